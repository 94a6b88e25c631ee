//! Writes comparisons as canonical text.
ghost use Rattle.std.specs.Prelude.{encode_utf8, ◌≡◌, [], IfOk};
ghost use Rattle.std.specs.List.{list_all};
ghost use Rattle.std.specs.Str.{chars, encode_utf8_all};
ghost use Rattle.lq_value.specs.Elements.{elements_shown};
ghost use Rattle.lq_value.specs.Pattern.{plain_elements};
ghost use Rattle.lq_predicate_formula.specs.Query.{Compare};
ghost use Rattle.lq_predicate_formula.specs.Canonical.{attr_then, canonical, element_then, in_set_then, is_bare_byte, item_then, items_then, literal_text, op_text, pattern_text, plain_then, quoted};

use crate::text_sink::TextSink;
use lq_value::{AttrName, Element, Elements, Item, Literal, Op};

// Appends the canonical text of a comparison: in parentheses, with the literal between `"` marks.
pub(crate) fn put_comparison<S: TextSink>(
    attr: &AttrName,
    op: Op,
    literal: &Literal,
    out: &mut S,
) -> Result<(), S::Error>
    ensures { IfOk result (λ _. S.seen out.new
        ≡ S.after (S.seen out.old) (canonical (Compare attr.now op literal.now))) }
{
    out.push_str("(")?;
    put_attr(attr, out)?;
    out.push_str(op_text(op))?;
    out.push_str("\"")?;
    put_literal(literal, out)?;
    out.push_str("\")")?;
    Ok(())
}

pub(crate) fn op_text(op: Op) -> &'static str
    ensures { result.now ≡ op_text op }
{
    match op {
        Op::Eq => "==",
        Op::Ne => "!=",
        Op::Lt => "<",
        Op::Le => "<=",
        Op::Gt => ">",
        Op::Ge => ">=",
    }
}

// Appends an attribute, without marks if each of its bytes may stand without them.
pub(crate) fn put_attr<S: TextSink>(attr: &AttrName, out: &mut S) -> Result<(), S::Error>
    ensures { IfOk result (λ _. S.seen out.new
        ≡ S.after (S.seen out.old) (attr_then attr.now [])) }
{
    let name = attr.as_str();
    if is_bare(name.as_bytes()) {
        out.push_str(name)?;
        return Ok(());
    }
    out.push_str("\"")?;
    put_quoted(name, out)?;
    out.push_str("\"")?;
    Ok(())
}

pub(crate) fn is_bare(name: &[u8]) -> bool
    ensures { result ≡ list_all is_bare_byte name.now }
{
    name.iter().all(|b| is_bare_byte(*b))
}

pub(crate) fn is_bare_byte(byte: u8) -> bool
    ensures { result ≡ is_bare_byte byte }
{
    matches!(byte, b'A'..=b'Z' | b'a'..=b'z' | b'0'..=b'9' | b'_' | b':' | b'.' | b'-')
}

// Appends a text with `\` before each `\` and `"`.
pub(crate) fn put_quoted<S: TextSink>(text: &str, out: &mut S) -> Result<(), S::Error>
    ensures { IfOk result (λ _. S.seen out.new
        ≡ S.after (S.seen out.old) (quoted text.now)) }
{
    for c in text.chars() {
        put_quoted_char(c, out)?;
    }
    Ok(())
}

#[tactic(auto, using(crate::proofs::WritingLemmas::quoted_clear))]
fn put_quoted_char<S: TextSink>(c: char, out: &mut S) -> Result<(), S::Error>
    ensures { IfOk result (λ _. S.seen out.new
        ≡ S.after (S.seen out.old) (quoted (encode_utf8 c))) }
{
    if c == '\\' {
        out.push_str("\\\\")?;
        #[tactic(auto, using(crate::proofs::WritingLemmas::quoted_backslash))]
        return Ok(());
    }
    if c == '"' {
        out.push_str("\\\"")?;
        #[tactic(auto, using(crate::proofs::WritingLemmas::quoted_mark))]
        return Ok(());
    }
    out.push(c)?;
    Ok(())
}

fn put_literal<S: TextSink>(literal: &Literal, out: &mut S) -> Result<(), S::Error>
    ensures { IfOk result (λ _. S.seen out.new
        ≡ S.after (S.seen out.old) (literal_text literal.now)) }
{
    match literal {
        Literal::Plain(text) => put_quoted(text.as_str(), out),
        Literal::Pattern(pattern) => put_elements(pattern.elements(), out),
    }
}

pub(crate) fn put_elements<S: TextSink>(elements: Elements<'_>, out: &mut S) -> Result<(), S::Error>
    ensures { IfOk result (λ _. S.seen out.new
        ≡ S.after (S.seen out.old)
        (encode_utf8_all (pattern_text (elements_shown elements.entry)))) }
{
    match elements {
        Elements::Text(text) => put_plain_text(text, out),
        Elements::List(elements) => put_list(elements, out),
    }
}

// Appends the pattern whose elements are the characters of a text.
pub(crate) fn put_plain_text<S: TextSink>(text: &str, out: &mut S) -> Result<(), S::Error>
    ensures { IfOk result (λ _. S.seen out.new
        ≡ S.after (S.seen out.old)
        (encode_utf8_all (pattern_text (plain_elements (chars text.now))))) }
{
    for c in text.chars() {
        put_plain(c, out)?;
    }
    Ok(())
}

fn put_list<S: TextSink>(elements: &[Element], out: &mut S) -> Result<(), S::Error>
    ensures { IfOk result (λ _. S.seen out.new
        ≡ S.after (S.seen out.old) (encode_utf8_all (pattern_text elements.now))) }
{
    for element in elements {
        put_element(element, out)?;
    }
    Ok(())
}

pub(crate) fn put_element<S: TextSink>(element: &Element, out: &mut S) -> Result<(), S::Error>
    ensures { IfOk result (λ _. S.seen out.new
        ≡ S.after (S.seen out.old) (encode_utf8_all (element_then element.now []))) }
{
    match element {
        Element::Star => out.push('*')?,
        Element::Any => out.push('?')?,
        Element::Plain(c) => put_plain(*c, out)?,
        Element::Set { negated, items } => {
            out.push('[')?;
            if *negated {
                out.push('^')?;
            }
            put_items(items.as_slice(), out)?;
        }
    }
    Ok(())
}

// Appends a plain character, with `\` before one of `*`, `?`, `[`, `\` and `"`.
fn put_plain<S: TextSink>(c: char, out: &mut S) -> Result<(), S::Error>
    ensures { IfOk result (λ _. S.seen out.new
        ≡ S.after (S.seen out.old) (encode_utf8_all (plain_then c []))) }
{
    if c == '*' || c == '?' || c == '[' || c == '\\' || c == '"' {
        out.push('\\')?;
    }
    out.push(c)?;
    Ok(())
}

// Appends the items of a set, and its `]`.
fn put_items<S: TextSink>(items: &[Item], out: &mut S) -> Result<(), S::Error>
    ensures { IfOk result (λ _. S.seen out.new
        ≡ S.after (S.seen out.old) (encode_utf8_all (items_then items.now []))) }
{
    for item in items {
        put_item(*item, out)?;
    }
    out.push(']')?;
    Ok(())
}

pub(crate) fn put_item<S: TextSink>(item: Item, out: &mut S) -> Result<(), S::Error>
    ensures { IfOk result (λ _. S.seen out.new
        ≡ S.after (S.seen out.old) (encode_utf8_all (item_then item []))) }
{
    match item {
        Item::One(c) => put_in_set(c, out),
        Item::Range(first, last) => {
            put_in_set(first, out)?;
            out.push('-')?;
            put_in_set(last, out)
        }
    }
}

// Appends a character in a set, with `\` before one of `]`, `[`, `\`, `^`, `-` and `"`.
fn put_in_set<S: TextSink>(c: char, out: &mut S) -> Result<(), S::Error>
    ensures { IfOk result (λ _. S.seen out.new
        ≡ S.after (S.seen out.old) (encode_utf8_all (in_set_then c []))) }
{
    if c == ']' || c == '[' || c == '\\' || c == '^' || c == '-' || c == '"' {
        out.push('\\')?;
    }
    out.push(c)?;
    Ok(())
}
