//! Patterns, and the texts that they fit.
ghost use Rattle.std.specs.Prelude.{◌≡◌, ◌↔◌, ℕ, Ok, IfOk, IfErr, IsTrue};
ghost use Rattle.std.specs.Str.{chars};
ghost use Rattle.std.specs.String.{string_bytes};
ghost use Rattle.lq_value.specs.Refusal.{FailsOnlyForMemory, IsRefusedBy};
ghost use Rattle.lq_value.specs.Form.{pattern_number};
ghost use Rattle.lq_value.specs.SourceRefusal.{source_refusal};
ghost use Rattle.lq_value_pattern.specs.Pattern.{Fits, is_fit, plain_elements};
ghost use Rattle.lq_value_pattern.specs.Sign.{signs_of};
ghost use Rattle.lq_value_pattern.specs.Source.{pattern_of};
ghost use Rattle.lq_value_pattern.specs.Written.{HasFaultAt, Writes};
ghost use Rattle.lq_value.specs.declared.refusal.Refusal.TheVariants.{BadQuery};

use crate::digits::number_of_bytes;
use crate::refusal::Refusal;
use lq_value_pattern::{
    Element, Starred, copy_elements, fits_are_splits, fits_plain, fits_text, plain_text,
    read_elements,
};
use std::alloc::Global;
use std::marker::Model;

/// A pattern: a list of elements, read from the left, that fits a whole text or doesn't.
///
/// A contract sees it as its list of elements. The patterns are our own.
///
/// ```rattle
/// use lq_value::Pattern;
///
/// let pattern = Pattern::read(alloc, "*.[jp][pn]g")?;
/// assert!(rt; pattern.matches("beach.jpg") && pattern.matches("map.png"));
/// assert!(rt; !pattern.matches("beach.jpg.bak"));
/// ```
pub struct Pattern {
    form: Form,
}

impl Drop for Pattern {
    fn drop(self) {
        let Pattern { form: _ } = self;
    }
}

// How a pattern keeps its elements.
#[derive(Drop)]
pub(crate) enum Form {
    // The text of plain elements, which is compared by its bytes, and the number that it writes.
    PlainText {
        text: String,
        number: Option<i128>,
    },
    // Elements that are plain except a star at one end or both, and the text between the stars.
    StarredText {
        elements: Vec<Element>,
        starred: Starred,
    },
    // Other elements, of which not all are plain.
    Elements(Vec<Element>),
}

/// The elements of a pattern, from the left: plain ones as their text, others as a list.
pub enum Elements<'a> {
    /// The text of the elements, which are all plain: one for each character.
    Text(&'a str),
    /// A list of elements, of which not all are plain.
    List(&'a [Element]),
}

impl Model for Pattern {
    ghost use Rattle.std.specs.Prelude.{List};
    ghost use Rattle.lq_value_pattern.specs.declared.element.Element.{Element};
    ghost use Rattle.lq_value.specs.Form.{elements_of, IsTextIfPlain};

    ghost Value = { List Element };

    ghost view = { λ pattern. elements_of pattern.form };

    ghost invariant = { λ pattern. IsTextIfPlain pattern.form };
}

impl Pattern {
    ghost use Rattle.lq_value.specs.Elements.{elements_shown};

    /// The pattern that a source text writes.
    ///
    /// `*` is a star, `?` any character, `[..]` a set and `[^..]` a negated one; `\` before a
    /// character makes it plain. Refused, the first that fits: `BadQuery` with the byte offset of
    /// the leftmost fault, `NoMemory`. A fault is the `[` of a set that is empty, has no end or has
    /// a range that falls, or a `\` that ends the source.
    pub fn read(alloc: Global, source: &str) -> Result<Pattern, Refusal>
        ensures value { IfOk result (λ pattern. pattern_of source.now ≡ Ok pattern) }
        ensures written { IfOk result (λ pattern. Writes (signs_of source.now) pattern) }

        // The leftmost fault, and where it is.
        ensures refused { IsRefusedBy result (source_refusal source.now) }
        ensures fault { IfErr result
            (λ e. (place : ℕ) → e ≡ BadQuery place → HasFaultAt source.now place) }
    {
        let elements = read_elements(alloc, source)?;
        Pattern::of(alloc, elements)
    }

    /// The pattern with these elements. Refused: `NoMemory`.
    pub fn of(alloc: Global, elements: Vec<Element>) -> Result<Pattern, Refusal>
        ensures refused { FailsOnlyForMemory result }
        ensures value { IfOk result (λ pattern. pattern ≡ elements.items) }
    {
        if let Some(text) = plain_text(alloc, elements.as_slice())? {
            return Ok(plain_pattern(text));
        }
        let form = match Starred::of(alloc, elements.as_slice())? {
            Some(starred) => Form::StarredText { elements, starred },
            None => Form::Elements(elements),
        };
        Ok(Pattern { form })
    }

    /// The elements, as the pattern keeps them. It takes no memory.
    pub fn elements(&self) -> Elements<'_>
        ensures { elements_shown result ≡ self.now }
    {
        match &self.form {
            Form::PlainText { text, .. } => Elements::Text(text.as_str()),
            Form::StarredText { elements, .. } | Form::Elements(elements) => {
                Elements::List(elements.as_slice())
            }
        }
    }

    /// Whether the pattern fits the whole text. It takes no memory.
    ///
    /// As the code says, it takes at most about as many steps as the pattern's length times the
    /// text's, and about as many as the text has bytes where all but a first and a last star are
    /// plain characters. In a text of 128 bytes to 4,096 characters many steps are done at once,
    /// and in one of 32 bytes or more where a set has more than 16 items.
    pub fn matches(&self, text: &str) -> bool
        ensures fits { result ≡ is_fit self.now (chars text.now) }
        ensures split { IsTrue result ↔ Fits self.now (chars text.now) }
    {
        fits_are_splits();
        match &self.form {
            Form::PlainText { text: plain, .. } => fits_plain(plain.as_str(), text),
            Form::StarredText { starred, .. } => starred.fits(text),
            Form::Elements(elements) => fits_text(elements.as_slice(), text),
        }
    }

    /// The whole number that the pattern writes, where all its elements are plain and their text is
    /// an optional `-` and 1 to 20 decimal digits.
    ///
    /// `None` for any other pattern. It takes no memory.
    pub fn number(&self) -> Option<i128>
        ensures { result ≡ pattern_number self.now }
    {
        match &self.form {
            Form::PlainText { number, .. } => *number,
            Form::StarredText { .. } | Form::Elements(_) => None,
        }
    }

    /// A copy of the pattern. Refused: `NoMemory`.
    pub fn copy(&self, alloc: Global) -> Result<Pattern, Refusal>
        ensures refused { FailsOnlyForMemory result }
        ensures value { IfOk result (λ pattern. pattern ≡ self.now) }
    {
        let form = match &self.form {
            Form::PlainText { text, number } => Form::PlainText {
                text: String::from_str(alloc, text.as_str())?,
                number: *number,
            },
            Form::StarredText { elements, starred } => Form::StarredText {
                elements: copy_elements(alloc, elements.as_slice())?,
                starred: starred.copy(alloc)?,
            },
            Form::Elements(elements) => Form::Elements(copy_elements(alloc, elements.as_slice())?),
        };
        Ok(Pattern { form })
    }
}

// The pattern whose elements are the characters of a text.
fn plain_pattern(text: String) -> Pattern
    ensures { result ≡ plain_elements (chars (string_bytes text)) }
{
    let number = plain_number(text.as_str());
    Pattern {
        form: Form::PlainText { text, number },
    }
}

fn plain_number(plain: &str) -> Option<i128>
    ensures { result ≡ pattern_number (plain_elements (chars plain.now)) }
{
    number_of_bytes(plain.as_bytes())
}
