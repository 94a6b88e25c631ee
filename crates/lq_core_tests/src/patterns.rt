//! Of lq_value: sources that a formula can't have, since a `\` ends them, and drawn patterns over
//! long texts, with the answers of a plain body.
use lq_value::{Element, Elements, Item, Pattern, Refusal};
use lq_value_pattern::{Starred, read_elements};
use std::alloc::{AllocError, Global};
use std::test::Fail;

// a source and the byte place of its leftmost fault
const FAULTS: [(&str, u64); 6] = [
    (r"\", 0),
    (r"a\", 1),
    (r"é\", 2),
    (r"\\\", 2),
    (r"[a\", 0),
    (r"[a-\", 0),
];

#[test]
fn a_source_has_its_leftmost_fault(rt: HostRuntime) -> Result<(), Fail> {
    for (source, place) in &FAULTS {
        let refused = Pattern::read(rt.alloc(), source).err();
        if refused != Some(Refusal::BadQuery { place: *place }) {
            return Err(Fail::from(*source));
        }
    }
    Ok(())
}

// sources that are plain text and stars, with whether a star stands before the text and after it
const STARRED: [(&str, bool, bool); 4] = [
    ("*.txt", true, false),
    ("draft*", false, true),
    ("*é*", true, true),
    (r"*a\*b", true, false),
];

#[test]
fn a_text_with_stars_is_kept_as_text(rt: HostRuntime) -> Result<(), Fail> {
    for (source, before, behind) in &STARRED {
        let Ok(elements) = read_elements(rt.alloc(), source) else {
            return Err(Fail::from(*source));
        };
        match Starred::of(rt.alloc(), elements.as_slice())? {
            Some(starred) if starred.before == *before && starred.behind == *behind => {}
            _ => return Err(Fail::from(*source)),
        }
    }
    Ok(())
}

// the pieces of a drawn pattern, and those of a drawn text
const PIECES: [&str; 16] = [
    "a", "b", "é", "?", "?", "ab", "a?", "?b", "[ab]", "[^b]", "[a-c]", "[^é-ü]", "???????", "*",
    "*", "*?",
];

const TEXTS: [&str; 16] = [
    "a", "a", "a", "a", "aa", "aa", "b", "b", "ab", "ab", "é", "é", "c", "c", "abababab",
    "abababab",
];

// the pieces of a drawn pattern whose elements are mostly sets: of few items and of many, of ASCII
// characters and of others
const SETS: [&str; 16] = [
    "[abc]",
    "[^x]",
    "[a-dé]",
    "[^è]",
    "[^€]",
    "[abcdefghijklmnopqrstuvw€éü]",
    "[^bdefghijklmnopqrstuvwx]",
    "[üéèab]",
    "[€éab]",
    "[a-z]",
    "[!-₿]",
    "?",
    "a?",
    "[^😀]",
    "[a-é€]",
    "*",
];

const TEXTS_OF_SETS: [&str; 16] = [
    "a", "a", "a", "é", "b", "ab", "aa", "a", "aé", "b", "a", "€", "aa", "d", "😀", "a",
];

const ASCII_TEXTS: [&str; 16] = [
    "a", "a", "a", "a", "a", "ab", "aa", "a", "ac", "b", "a", "d", "aa", "a", "x", "ab",
];

/// The next of a row of drawn numbers.
pub fn next(drawn: u64) -> u64 {
    drawn
        .wrapping_mul(6_364_136_223_846_793_005)
        .wrapping_add(1_442_695_040_888_963_407)
}

// As many pieces as the number says, after the first ones.
fn drawn_text(
    alloc: Global,
    first: &str,
    pieces: &[&str; 16],
    seed: u64,
    count: u64,
) -> Result<String, AllocError> {
    let mut text = String::from_str(alloc, first)?;
    let mut drawn = seed;
    for _ in 0..count {
        drawn = next(drawn);
        text.push_str(pieces[((drawn >> 33) % 16) as usize])?;
    }
    Ok(text)
}

fn has(item: Item, c: char) -> bool {
    match item {
        Item::One(d) => d == c,
        Item::Range(first, last) => first <= c && c <= last,
    }
}

// Whether the element takes the character by itself.
fn takes(element: &Element, c: char) -> bool {
    match element {
        Element::Star => false,
        Element::Any => true,
        Element::Plain(d) => *d == c,
        Element::Set { negated, items } => {
            items.as_slice().iter().any(|item| has(*item, c)) != *negated
        }
    }
}

// After which characters the elements can end, with one more, of those after which they could.
fn step(
    alloc: Global,
    element: &Element,
    text: &str,
    ends: &[bool],
) -> Result<Vec<bool>, AllocError> {
    let star = matches!(element, Element::Star);
    let mut before = ends.first() == Some(&true);
    let mut here = star && before;
    let mut next = Vec::new(alloc);
    next.push(here)?;
    for (c, end) in text.chars().zip(ends.iter().skip(1)) {
        here = if star {
            here || *end
        } else {
            before && takes(element, c)
        };
        before = *end;
        next.push(here)?;
    }
    Ok(next)
}

// Whether the elements fit the text: tries each prefix of the text with each of the elements.
fn fits_plainly(alloc: Global, elements: &[Element], text: &str) -> Result<bool, AllocError> {
    let mut ends = Vec::new(alloc);
    ends.push(true)?;
    for _ in text.chars() {
        ends.push(false)?;
    }
    for element in elements {
        ends = step(alloc, element, text, ends.as_slice())?;
    }
    Ok(ends.last() == Some(&true))
}

// Whether the pattern fits the text; an error where the plain body answers otherwise.
fn fits_as_plainly(alloc: Global, source: String, text: &str) -> Result<bool, Fail> {
    let Ok(pattern) = Pattern::read(alloc, source.as_str()) else {
        return Err(Fail::from(source));
    };
    let fits = match pattern.elements() {
        Elements::Text(plain) => plain == text,
        Elements::List(elements) => fits_plainly(alloc, elements, text)?,
    };
    if pattern.matches(text) != fits {
        return Err(Fail::from(source));
    }
    Ok(fits)
}

#[test]
fn a_long_text_is_matched_as_by_the_plain_body(rt: HostRuntime) -> Result<(), Fail> {
    let mut fitting: u32 = 0;
    for n in 0..600_u64 {
        let source = drawn_text(rt.alloc(), "*", &PIECES, n, n % 30)?;
        let text = drawn_text(rt.alloc(), "", &TEXTS, n, 60 + n % 240)?;
        if fits_as_plainly(rt.alloc(), source, text.as_str())? {
            fitting = fitting.saturating_add(1);
        }
    }
    if !(100..500).contains(&fitting) {
        return Err(Fail::from("too few or too many patterns fit"));
    }
    Ok(())
}

#[test]
fn sets_over_a_long_text_are_matched_as_by_the_plain_body(rt: HostRuntime) -> Result<(), Fail> {
    let mut fitting: u32 = 0;
    for n in 0..150_u64 {
        let source = drawn_text(rt.alloc(), "*", &SETS, n, n % 90)?;
        let pieces = if n % 2 == 0 {
            &ASCII_TEXTS
        } else {
            &TEXTS_OF_SETS
        };
        let text = drawn_text(rt.alloc(), "", pieces, n, 30 + n * 7 % 870)?;
        if fits_as_plainly(rt.alloc(), source, text.as_str())? {
            fitting = fitting.saturating_add(1);
        }
    }
    if !(30..120).contains(&fitting) {
        return Err(Fail::from("too few or too many patterns fit"));
    }
    Ok(())
}
