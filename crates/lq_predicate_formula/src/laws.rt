//! Laws on tokens, the grammar and queries: functions that do nothing, each with a law as its
//! contract.
ghost use Rattle.std.specs.Prelude.{◌≡◌, ℕ, List};
ghost use Rattle.lq_predicate_formula.specs.Faults.{HasOneReading};
ghost use Rattle.lq_predicate_formula.specs.Tokens.{HasOneTokenList, Token};
ghost use Rattle.lq_predicate_formula.specs.Query.{Query};
ghost use Rattle.lq_predicate_formula.specs.Reading.{reading_of};
ghost use Rattle.lq_predicate_formula.specs.Grammar.{IsFormula};
ghost use Rattle.lq_predicate_formula.specs.Laws.{BareRowsFail, CanonicalIsRead, JoinedTextsAdd, MachineReads, PatternsAreGood, ReadIsGood, TruthGoesByNames, TruthStaysBesideSpans};

use lq_value::sources_are_read;

/// Each text has tokens by their signs, from whatever offset they are counted, and no other ones.
pub fn one_token_list()
    ensures { (at : ℕ) (text : List ℕ) → HasOneTokenList at text }
{}

/// Tokens read as at most one query.
pub fn reads_one()
    ensures { (n : ℕ) (ts : List Token) (q r : Query)
        → IsFormula n ts q → IsFormula n ts r → q ≡ r }
{}

/// Each text reads as just one query, or has its leftmost fault at just one offset, and never both.
/// `reading_of` of `specs/Reading` is this reading.
pub fn one_reading()
    ensures { (text : List ℕ) → HasOneReading text (reading_of text) }
{}

/// What the machine makes of a text's tokens, one after another, is the reading of the text.
pub fn machine_reads()
    ensures { MachineReads }
{}

/// The canonical text of a query within the limits reads as that query.
pub fn canonical_is_read()
    ensures { CanonicalIsRead }
{
    sources_are_read();
}

/// The canonical text of a query that was read from UTF-8 words reads as that query, if the query
/// is within the limits.
pub fn read_is_good()
    ensures { ReadIsGood }
{
    sources_are_read();
}

/// A pattern that was read from a text consists of characters, its sets have items, and no range
/// ends below its start. So its canonical text is a source of it.
pub fn patterns_are_good()
    ensures { PatternsAreGood }
{
    sources_are_read();
}

/// The truth of a predicate depends on its `names` alone: it is the same for two rows that show the
/// same under each of them, whatever they show under other names.
pub fn truth_goes_by_names()
    ensures { TruthGoesByNames }
{}

/// A predicate has the same truth for two rows if each name shows the same in both, or shows
/// numbers on the same side of all numbers that the predicate compares this name with.
pub fn truth_stays_beside_spans()
    ensures { TruthStaysBesideSpans }
{}

/// A predicate that needs an attribute (`needs_attribute`) is false of each row without attributes:
/// one that shows something under `name`, `size` and `last_modified` at most.
pub fn bare_rows_fail()
    ensures { BareRowsFail }
{}

/// The canonical text of an `And` or an `Or` of one part or more has the bytes of its parts' texts,
/// and two more for each part.
pub fn joined_texts_add()
    ensures { JoinedTextsAdd }
{}
