//! Trying up to 32 elements together, by a mask for each character of a text.
//!
//! Each bit of a mask says whether one of the elements takes the character.
ghost use Rattle.std.specs.Prelude.{◌≡◌, ◌≤◌, ◌<◌, ◌+◌, ◌==◌, ℕ, length, take, slice_index};
ghost use Rattle.std.specs.Int.{bit_at};
ghost use Rattle.lq_value_pattern.specs.Seek.{kept, AreKeptBy, AreOff};
ghost use Rattle.lq_value_pattern.specs.Masks.{AreCodes, AreMasksOfCodes, AreNextEnds, IsAlphabet, IsAscii, IsEntered};

use crate::build_masks::{ASCII, put_elements};
use crate::element::Element;
use crate::element_runs::kept;

// The most places of a text that are read: 512 for one element, and one for each other element.
const CODES: usize = 544;

// The number of characters that have masks: the ASCII ones, and the others of the text.
const CHARS: usize = 672;

/// Keeps the flags where each of the elements takes a character from the flag's index on, and
/// clears the others.
///
/// It takes one step for each index of the text, and one for each item that is an ASCII character.
/// Each other item takes a step for each character of the text that isn't ASCII, several at once.
pub(crate) fn match_window_masked(flags: &mut [u32], elements: &[Element], text: &[char])
    requires some { 0 < length elements.now }
    requires short { length elements.now ≤ 32 }
    requires window { length flags.old ≤ 512 }
    requires room { length elements.now + length flags.old ≤ length text.now + 1 }
    ensures { AreKeptBy elements.now text.now flags.old flags.new }
{
    let used = flags.len() + (elements.len() - 1);
    let mut codes = [0_u16; CODES];
    let mut chars = ['\0'; CHARS];
    let mut masks = [0_u32; CHARS];
    write_ascii(&mut chars);
    keep_with(
        flags,
        elements,
        text,
        &mut codes[..used],
        &mut chars,
        &mut masks,
    );
}

fn write_ascii(chars: &mut [char])
    requires { 128 ≤ length chars.old }
    ensures { IsAscii chars.new }
{
    for x in 0..128_u8 {
        chars[x as usize] = x as char;
    }
}

// As `match_window_ended`, given room for a code for each index of the text, for characters and for
// masks.
fn keep_with(
    flags: &mut [u32],
    elements: &[Element],
    text: &[char],
    codes: &mut [u16],
    chars: &mut [char],
    masks: &mut [u32],
)
    requires some { 0 < length elements.now }
    requires short { length elements.now ≤ 32 }
    requires places { length codes.old + 1 ≡ length flags.old + length elements.now }
    requires text { length codes.old ≤ length text.now }
    requires room { length codes.old + 128 ≤ length chars.old }
    requires few { length chars.old ≤ 672 }
    requires ascii { IsAscii chars.old }
    requires masks { length masks.old ≡ length chars.old }
    requires off { AreOff masks.old 0 (length masks.old) }
    ensures { AreKeptBy elements.now text.now flags.old flags.new }
{
    let count = encode(text, codes, chars);
    let masks = &mut masks[..count];
    put_elements(masks, elements, &chars[..count]);
    match_window_ended(flags, elements, text, codes, masks);
}

// Gives each character of the text a code, the index of the character among `chars`. Answers how
// many of these there are then.
fn encode(text: &[char], codes: &mut [u16], chars: &mut [char]) -> usize
    requires text { length codes.old ≤ length text.now }
    requires room { length codes.old + 128 ≤ length chars.old }
    requires few { length chars.old ≤ 672 }
    requires ascii { IsAscii chars.old }
    ensures within { result ≤ length chars.new }
    ensures alphabet { IsAlphabet (take result chars.new) }
    ensures codes { AreCodes (take result chars.new) codes.new text.now }
{
    let mut count = ASCII;
    for i in 0..codes.len() {
        let entered = enter(text[i], chars, count);
        codes[i] = entered.code;
        count = entered.count;
    }
    count
}

// The code of a character, and how many characters have codes then.
#[derive(Clone, Copy)]
struct Entered {
    code: u16,
    count: usize,
}

// An ASCII character is its own code, and each other one gets a new code.
fn enter(c: char, chars: &mut [char], count: usize) -> Entered
    requires low { 128 ≤ count }
    requires room { count < length chars.old }
    requires few { length chars.old ≤ 672 }
    requires ascii { IsAscii chars.old }
    ensures { IsEntered c count chars.old chars.new result }
{
    if (c as usize) < ASCII {
        return Entered {
            code: c as u16,
            count,
        };
    }
    chars[count] = c;
    Entered {
        code: count as u16,
        count: count + 1,
    }
}

// Flags the places at which the elements fit, given the masks. After each character of the text a
// bit says for each element whether it and those before it took the last characters.
fn match_window_ended(
    flags: &mut [u32],
    elements: &[Element],
    text: &[char],
    codes: &[u16],
    masks: &[u32],
)
    requires some { 0 < length elements.now }
    requires short { length elements.now ≤ 32 }
    requires places { length codes.now + 1 ≡ length flags.old + length elements.now }
    requires text { length codes.now ≤ length text.now }
    requires masks { AreMasksOfCodes elements.now text.now codes.now masks.now }
    ensures { AreKeptBy elements.now text.now flags.old flags.new }
{
    let last = elements.len() - 1;
    let mut ends = 0;
    for i in 0..codes.len() {
        ends = next_ends(ends, masks[codes[i] as usize]);
        keep_end(flags, ends, last, i);
    }
}

// Keeps the flag of the place from which on the last of the elements, of this index, ends with the
// character of index i.
fn keep_end(flags: &mut [u32], ends: u64, last: usize, i: usize)
    requires bit { last < 32 }
    requires within { i < length flags.old + last }
    ensures at { (k : ℕ) → k + last ≡ i
        → slice_index flags.new k ≡ kept (1 == bit_at ends last) (slice_index flags.old k) }
    ensures others { (k : ℕ) → (k + last ≡ i → ⊥)
        → slice_index flags.new k ≡ slice_index flags.old k }
{
    if last <= i {
        let index = i - last;
        flags[index] = kept(has_bit(ends, last), flags[index]);
    }
}

// The ends after one more character, whose mask it is.
fn next_ends(ends: u64, mask: u32) -> u64
    requires { ends < 4294967296 }
    ensures ends { AreNextEnds ends mask result }
    ensures small { result < 4294967296 }
{
    (ends * 2 + 1) & (mask as u64)
}

fn has_bit(ends: u64, j: usize) -> bool
    requires { j < 32 }
    ensures { result ≡ (1 == bit_at ends j) }
{
    1 == (ends >> j) & 1
}
