//! Looking for elements other than stars at many places of a text at once.
ghost use Rattle.std.specs.Prelude.{◌≡◌, ◌≤◌, ◌<◌, ◌+◌, length, drop, MatchOption};
ghost use Rattle.lq_value_pattern.specs.Seek.{AreOn, IsNextOn, TakeNoneBefore, IsFirstIndex, IsFirstIndexBefore, TakeNowhere};

use crate::element::Element;
use crate::element_runs::{count_run, match_window};

// The number of places that are tried at once.
const WINDOW: usize = 512;

// The number of places that are tried first, where most parts are found.
const FIRST_WINDOW: usize = 64;

/// The first index of the text from which on each element takes a character.
///
/// It takes about one step for each index and each element except `?`, and does several at once.
/// Each item of a set is a step too, or a few, for each 512 places.
#[tactic(auto, using(crate::proofs::SeekLemmas::indexes_more))]
pub(crate) fn find_index(elements: &[Element], text: &[char]) -> Option<usize>
    requires { length elements.now ≤ length text.now }
    ensures { MatchOption result
        (TakeNowhere elements.now text.now) (IsFirstIndex elements.now text.now) }
{
    if elements.is_empty() {
        return Some(0);
    }
    let end = text.len() - (elements.len() - 1);
    let mut start = 0;
    while start < end {
        let places = window_at(start).min(end - start);
        if let Some(index) = find_among(elements, from_index(text, start), places) {
            return Some(start + index);
        }
        start += places;
    }
    None
}

fn window_at(start: usize) -> usize
    ensures some { 0 < result }
    ensures within { result ≤ 512 }
{
    if start == 0 { FIRST_WINDOW } else { WINDOW }
}

/// The characters from an index on.
#[tactic(auto, using(std::proofs::lemmas::List::take_rest))]
pub(crate) fn from_index(text: &[char], index: usize) -> &[char]
    requires { index ≤ length text.now }
    ensures { result.now ≡ drop index text.now }
{
    &text[index..]
}

// The first of these places of the text from which on each element takes a character.
fn find_among(elements: &[Element], text: &[char], places: usize) -> Option<usize>
    requires some { 0 < places }
    requires window { places ≤ 512 }
    requires room { length elements.now + places ≤ length text.now + 1 }
    ensures { MatchOption result (TakeNoneBefore elements.now text.now places)
        (IsFirstIndexBefore elements.now text.now places) }
{
    let mut flags = [1_u32; WINDOW];
    find_flagged(elements, text, &mut flags[..places])
}

// The first index where the elements fit, with a flag for each index. Clears the flag of each index
// whose character the element doesn't take.
#[tactic(auto, using(crate::proofs::FlagLemmas::flag_steps))]
fn find_flagged(elements: &[Element], text: &[char], flags: &mut [u32]) -> Option<usize>
    requires some { 0 < length flags.old }
    requires window { length flags.old ≤ 512 }
    requires on { AreOn flags.old }
    requires room { length elements.now + length flags.old ≤ length text.now + 1 }
    ensures { MatchOption result (TakeNoneBefore elements.now text.now (length flags.old))
        (IsFirstIndexBefore elements.now text.now (length flags.old)) }
{
    let places = flags.len();
    let mut first = 0;
    let mut k = 0;
    while k < elements.len() {
        let count = count_run(elements, k);
        match_window(flags, &elements[k..k + count], from_index(text, k));
        first = next_on(flags, first);
        if first == places {
            return None;
        }
        k += count;
    }
    Some(first)
}

fn next_on(flags: &[u32], from: usize) -> usize
    requires { from ≤ length flags.now }
    ensures { IsNextOn flags.now from result }
{
    let mut next = from;
    while next < flags.len() && flags[next] == 0 {
        next += 1;
    }
    next
}
