//! Reads a text to its end, or to its leftmost fault.
ghost use Rattle.std.specs.Prelude.{◌≡◌, ◌≤◌, ◌<◌, ◌+◌, ◌^◌, List, OnOk, Some, length, ℕ};
ghost use Rattle.std.specs.Str.{IsUtf8};
ghost use Rattle.lq_predicate_formula.specs.Grammar.{nesting};
ghost use Rattle.lq_predicate_formula.specs.Machine.{start};
ghost use Rattle.lq_predicate_formula.specs.MachineReading.{word_count};
ghost use Rattle.lq_predicate_formula.specs.TokenView.{placed_of, token_of};
ghost use Rattle.lq_predicate_formula.specs.Tokens.{HasTokens, Placed as TokenAt, bare};
ghost use Rattle.lq_predicate_formula.specs.Words.{WordsAre};
ghost use Rattle.lq_predicate.specs.Building.{HasBuilt, IsWholeOf, stop_in_text};
ghost use Rattle.lq_predicate.specs.declared.stop.Stop.TheVariants.{Fault};

use crate::builder::Builder;
use crate::machine::{Expected, Frames, finish, take};
use crate::stop::Stop;
use lq_predicate_formula::{Cursor, Placed, Token, machine_reads, next_token, one_token_list};

/// The most words: each comparison has two.
const MOST_WORDS: usize = 512;

// Builds the query of a text that isn't too long, however great the query is, with new frames. A
// fault has its byte offset.
pub(crate) fn read_text<B: Builder>(
    builder: &B,
    frames: &mut Frames<B::Parts>,
    text: &str,
) -> Result<B::Part, Stop<u64, B::Error>>
    requires short { length text.now ≤ 4096 }
    requires new { HasBuilt B.parts frames.old (start nesting) }
    ensures whole { IsWholeOf B.part text.now result }
    ensures texts { OnOk result
        ((ts : List TokenAt) × HasTokens 0 text.now ts × WordsAre IsUtf8 (bare ts)) }
{
    one_token_list();
    machine_reads();
    let mut expected = Expected::Operand;
    let mut cursor = Cursor {
        offset: 0,
        rest: text,
    };
    let mut words = 0;
    while let Some((placed, behind)) = next_token(cursor) {
        match take(builder, expected, frames, &placed.token) {
            Ok(next) => expected = next,
            Err(stop) => return Err(stop_in_text(text.len(), &placed, stop)),
        }
        words += word_count(&placed.token);
        if words > MOST_WORDS {
            return Err(Stop::Fault(placed.offset as u64));
        }
        cursor = behind;
    }
    let Some(part) = finish(builder, expected, frames)? else {
        return Err(Stop::Fault(text.len() as u64));
    };
    Ok(part)
}

// The same stop with its byte offset in the text, which ends at `end`.
fn stop_in_text<E>(end: usize, placed: &Placed, stop: Stop<Option<u64>, E>) -> Stop<u64, E>
    requires { (k : ℕ) → stop ≡ Fault (Some k) → placed.now.raw_offset + k < 2 ^ 64 }
    ensures { result ≡ stop_in_text end (placed_of placed.now) stop }
{
    match stop {
        Stop::Fault(Some(k)) => Stop::Fault(placed.raw_offset as u64 + k),
        Stop::Fault(None) => match placed.token {
            Token::Cut => Stop::Fault(end as u64),
            _ => Stop::Fault(placed.offset as u64),
        },
        Stop::Failed(e) => Stop::Failed(e),
    }
}

// 1 for a token that is a word, else 0.
fn word_count(token: &Token) -> usize
    ensures value { result ≡ word_count (token_of token.now) }
    ensures bound { result ≤ 1 }
{
    match token {
        Token::Word(_) => 1,
        _ => 0,
    }
}
