//! Runs of elements that are tried together, at each of some places of a text.
ghost use Rattle.std.specs.Prelude.{◌≡◌, ◌≤◌, ◌<◌, ◌+◌, ◌==◌, ℕ, length, IfSome};
ghost use Rattle.lq_value_pattern.specs.Element.{takes};
ghost use Rattle.lq_value_pattern.specs.Seek.{kept, light_takes, item_takes, set_takes, AreKept, AreKeptBy, IsLight};

use crate::element::{Element, Item};
use crate::element_chars::has;
use crate::match_masks::match_window_masked;

// How many elements are tried together.
const RUN: usize = 32;

// How many elements are tried one by one first. Most places are out after a few.
const FIRST_ELEMENTS: usize = 8;

/// An element that is tried by itself.
#[derive(Clone, Copy)]
pub(crate) enum Light {
    Any,
    Plain(char),
    OneItem { negated: bool, item: Item },
}

/// How many elements from an index on are tried together.
pub(crate) fn count_run(elements: &[Element], from: usize) -> usize
    requires { from < length elements.now }
    ensures some { 0 < result }
    ensures short { result ≤ 32 }
    ensures within { from + result ≤ length elements.now }
{
    match light_element(&elements[from]) {
        Some(Light::Any) => 1,
        Some(_) if from < FIRST_ELEMENTS => 1,
        _ => RUN.min(elements.len() - from),
    }
}

/// Keeps the flags where each of the elements takes a character from the flag's index on, and
/// clears the others.
pub(crate) fn match_window(flags: &mut [u32], elements: &[Element], text: &[char])
    requires some { 0 < length elements.now }
    requires short { length elements.now ≤ 32 }
    requires window { length flags.old ≤ 512 }
    requires room { length elements.now + length flags.old ≤ length text.now + 1 }
    ensures { AreKeptBy elements.now text.now flags.old flags.new }
{
    match light_of(elements) {
        Some(light) => keep_light(flags, light, text),
        None => match_window_masked(flags, elements, text),
    }
}

fn light_of(elements: &[Element]) -> Option<Light>
    ensures { IfSome result (λ light. IsLight light elements.now) }
{
    let (element, rest) = elements.split_first()?;
    if !rest.is_empty() {
        return None;
    }
    light_element(element)
}

fn light_element(element: &Element) -> Option<Light>
    ensures { IfSome result (λ light. (c : ℕ) → light_takes light c ≡ takes element.now c) }
{
    match element {
        Element::Star => None,
        Element::Any => Some(Light::Any),
        Element::Plain(c) => Some(Light::Plain(*c)),
        Element::Set { negated, items } => light_set(*negated, items.as_slice()),
    }
}

fn light_set(negated: bool, items: &[Item]) -> Option<Light>
    ensures { IfSome result
        (λ light. (c : ℕ) → light_takes light c ≡ set_takes negated items.now c) }
{
    let (item, rest) = items.split_first()?;
    if !rest.is_empty() {
        return None;
    }
    Some(Light::OneItem {
        negated,
        item: *item,
    })
}

fn keep_light(flags: &mut [u32], light: Light, text: &[char])
    requires { length flags.old ≤ length text.now }
    ensures { AreKept (light_takes light) text.now flags.old flags.new }
{
    match light {
        Light::Any => {}
        Light::Plain(c) => keep_char(flags, c, text),
        Light::OneItem { negated, item } => keep_item(flags, negated, item, text),
    }
}

fn keep_char(flags: &mut [u32], c: char, text: &[char])
    requires { length flags.old ≤ length text.now }
    ensures { AreKept (λ d. c == d) text.now flags.old flags.new }
{
    for i in 0..flags.len() {
        flags[i] = kept(c == text[i], flags[i]);
    }
}

fn keep_item(flags: &mut [u32], negated: bool, item: Item, text: &[char])
    requires { length flags.old ≤ length text.now }
    ensures { AreKept (item_takes negated item) text.now flags.old flags.new }
{
    for i in 0..flags.len() {
        flags[i] = kept(item_takes(negated, item, text[i]), flags[i]);
    }
}

fn item_takes(negated: bool, item: Item, c: char) -> bool
    ensures { result ≡ item_takes negated item c }
{
    has(item, c) != negated
}

/// A flag that stays or is cleared.
pub(crate) fn kept(stays: bool, flag: u32) -> u32
    ensures { result ≡ kept stays flag }
{
    if stays { flag } else { 0 }
}
