//! Putting the bits of the masks of characters: one bit for each element.
ghost use Rattle.std.specs.Prelude.{◌≡◌, ◌≤◌, ◌<◌, ◌+◌, ◌==◌, ◌&&◌, ◌||◌, ℕ, nat_le, true, length, take, slice_index, IfSome};
ghost use Rattle.lq_value_pattern.specs.Element.{has, set_has, takes};
ghost use Rattle.lq_value_pattern.specs.Seek.{set_takes, AreOff};
ghost use Rattle.lq_value_pattern.specs.Masks.{AreBitsOff, AreFlipped, AreMasks, ArePut, IsAlphabet, IsBitTaken, IsFlipped, IsPair, IsPut};

use crate::element::{Element, Item};

/// The number of ASCII characters.
pub(crate) const ASCII: usize = 128;

/// Puts a bit for each element in the masks of the characters that it takes.
pub(crate) fn put_elements(masks: &mut [u32], elements: &[Element], chars: &[char])
    requires short { length elements.now ≤ 32 }
    requires alphabet { IsAlphabet chars.now }
    requires same { length masks.old ≡ length chars.now }
    requires off { AreOff masks.old 0 (length masks.old) }
    ensures { AreMasks elements.now chars.now masks.new }
{
    for (j, element) in elements.iter().enumerate() {
        put_element(masks, j, element, chars);
    }
}

// Puts bit j of each mask whose character the element takes. No mask has the bit before.
fn put_element(masks: &mut [u32], j: usize, element: &Element, chars: &[char])
    requires bit { j < 32 }
    requires alphabet { IsAlphabet chars.now }
    requires same { length masks.old ≡ length chars.now }
    requires off { AreBitsOff j masks.old }
    ensures { IsBitTaken (takes element.now) j chars.now masks.old masks.new }
{
    match element {
        Element::Star => {}
        Element::Any => flip(masks, j),
        Element::Plain(c) => put_char(masks, j, *c, chars),
        Element::Set { negated, items } => put_set(masks, j, *negated, items.as_slice(), chars),
    }
}

fn put_set(masks: &mut [u32], j: usize, negated: bool, items: &[Item], chars: &[char])
    requires bit { j < 32 }
    requires alphabet { IsAlphabet chars.now }
    requires same { length masks.old ≡ length chars.now }
    requires off { AreBitsOff j masks.old }
    ensures { IsBitTaken (set_takes negated items.now) j chars.now masks.old masks.new }
{
    put_items(masks, j, items, chars);
    if negated {
        flip(masks, j);
    }
}

fn put_items(masks: &mut [u32], j: usize, items: &[Item], chars: &[char])
    requires bit { j < 32 }
    requires alphabet { IsAlphabet chars.now }
    requires same { length masks.old ≡ length chars.now }
    ensures { ArePut (set_has items.now) j chars.now masks.old masks.new }
{
    let mut i = 0;
    while i < items.len() {
        i += put_next(masks, j, &items[i..], chars);
    }
}

// Puts the bit for the first item, or for the first two, and answers how many.
fn put_next(masks: &mut [u32], j: usize, items: &[Item], chars: &[char]) -> usize
    requires bit { j < 32 }
    requires alphabet { IsAlphabet chars.now }
    requires same { length masks.old ≡ length chars.now }
    requires some { 0 < length items.now }
    ensures some { 0 < result }
    ensures within { result ≤ length items.now }
    ensures marked { ArePut (set_has (take result items.now)) j chars.now masks.old masks.new }
{
    if let Some((c, d)) = first_pair(items) {
        put_high(masks, j, c, d, chars);
        return 2;
    }
    put_item(masks, j, items[0], chars);
    1
}

// The first two items, if both are single characters that are not ASCII.
fn first_pair(items: &[Item]) -> Option<(char, char)>
    ensures { IfSome result (λ pair. IsPair items.now pair.0 pair.1) }
{
    match items {
        [Item::One(c), Item::One(d), ..] if 128 <= *c as u32 && 128 <= *d as u32 => Some((*c, *d)),
        _ => None,
    }
}

fn put_item(masks: &mut [u32], j: usize, item: Item, chars: &[char])
    requires bit { j < 32 }
    requires alphabet { IsAlphabet chars.now }
    requires same { length masks.old ≡ length chars.now }
    ensures { ArePut (has item) j chars.now masks.old masks.new }
{
    match item {
        Item::One(c) => put_char(masks, j, c, chars),
        Item::Range(first, last) => put_range(masks, j, first, last, chars),
    }
}

fn put_char(masks: &mut [u32], j: usize, c: char, chars: &[char])
    requires bit { j < 32 }
    requires alphabet { IsAlphabet chars.now }
    requires same { length masks.old ≡ length chars.now }
    ensures { ArePut (λ d. c == d) j chars.now masks.old masks.new }
{
    if (c as usize) < ASCII {
        let code = c as usize;
        masks[code] = put_bit(true, j, masks[code]);
    } else {
        put_high(masks, j, c, c, chars);
    }
}

// Puts the bit for two characters that are not ASCII.
fn put_high(masks: &mut [u32], j: usize, c: char, d: char, chars: &[char])
    requires bit { j < 32 }
    requires alphabet { IsAlphabet chars.now }
    requires same { length masks.old ≡ length chars.now }
    requires first { 128 ≤ c }
    requires second { 128 ≤ d }
    ensures { ArePut (λ e. c == e || d == e) j chars.now masks.old masks.new }
{
    for i in ASCII..masks.len() {
        masks[i] = put_bit(c == chars[i] || d == chars[i], j, masks[i]);
    }
}

fn put_range(masks: &mut [u32], j: usize, first: char, last: char, chars: &[char])
    requires bit { j < 32 }
    requires alphabet { IsAlphabet chars.now }
    requires same { length masks.old ≡ length chars.now }
    ensures { ArePut (λ d. nat_le first d && nat_le d last) j chars.now masks.old masks.new }
{
    if (last as usize) < ASCII {
        put_codes(masks, j, first as usize, last as usize + 1);
    } else if (first as usize) < ASCII {
        // The ASCII characters from the first one on, and the others up to the last one.
        put_codes(masks, j, first as usize, ASCII);
        put_up_to(masks, j, last, chars);
    } else {
        put_high_range(masks, j, first, last, chars);
    }
}

fn put_codes(masks: &mut [u32], j: usize, from: usize, to: usize)
    requires bit { j < 32 }
    requires within { to ≤ length masks.old }
    ensures inside { (x : ℕ) → from ≤ x → x < to
        → IsPut true j (slice_index masks.old x) (slice_index masks.new x) }
    ensures below { (x : ℕ) → x < from → slice_index masks.new x ≡ slice_index masks.old x }
    ensures above { (x : ℕ) → to ≤ x → slice_index masks.new x ≡ slice_index masks.old x }
{
    for code in from..to {
        masks[code] = put_bit(true, j, masks[code]);
    }
}

// Puts the bit for the characters up to this one that are not ASCII.
fn put_up_to(masks: &mut [u32], j: usize, last: char, chars: &[char])
    requires bit { j < 32 }
    requires same { length masks.old ≡ length chars.now }
    ensures high { (x : ℕ) → 128 ≤ x → x < length chars.now
        → IsPut (nat_le (slice_index chars.now x) last) j
        (slice_index masks.old x) (slice_index masks.new x) }
    ensures low { (x : ℕ) → x < 128 → slice_index masks.new x ≡ slice_index masks.old x }
{
    for i in ASCII..masks.len() {
        masks[i] = put_bit(chars[i] <= last, j, masks[i]);
    }
}

// Puts the bit for the characters of a range that has no ASCII character.
fn put_high_range(masks: &mut [u32], j: usize, first: char, last: char, chars: &[char])
    requires bit { j < 32 }
    requires alphabet { IsAlphabet chars.now }
    requires same { length masks.old ≡ length chars.now }
    requires high { 128 ≤ first }
    ensures { ArePut (λ d. nat_le first d && nat_le d last) j chars.now masks.old masks.new }
{
    for i in ASCII..masks.len() {
        masks[i] = put_bit(is_within(first, last, chars[i]), j, masks[i]);
    }
}

fn is_within(first: char, last: char, c: char) -> bool
    ensures { result ≡ (nat_le first c && nat_le c last) }
{
    first <= c && c <= last
}

fn flip(masks: &mut [u32], j: usize)
    requires { j < 32 }
    ensures { AreFlipped j masks.old masks.new }
{
    for i in 0..masks.len() {
        masks[i] = flip_bit(j, masks[i]);
    }
}

fn put_bit(hit: bool, j: usize, mask: u32) -> u32
    requires { j < 32 }
    ensures { IsPut hit j mask result }
{
    if hit { mask | (1 << j) } else { mask }
}

fn flip_bit(j: usize, mask: u32) -> u32
    requires { j < 32 }
    ensures { IsFlipped j mask result }
{
    mask ^ (1 << j)
}
