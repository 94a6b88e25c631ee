//! Laws, each as the contract of a function that does nothing.
ghost use denote.Param.Send.{IsSend};
ghost use Rattle.lq_embed.specs.BoundTokens.{BoundIsRead};
ghost use Rattle.lq_embed.specs.QuotedReading.{TextsAreMeant};
ghost use Rattle.lq_embed.specs.contracts.embedded.Embedded as embedded;

use lq_predicate::Stack;
use lq_predicate_formula::one_token_list;
use lq_script_desk::sessions_may_be_sent;
use lq_script_request::RecentAttrs;
use lq_value::{Entry, Value, sources_are_read};
use std::vec::IntoIter;

/// The literal that a text is quoted as, and that a bound text is replaced by, is one quoted text
/// of a formula. It reads as just this text: after `==` and `!=` as the pattern of its characters
/// alone, after the other operators as the text.
pub fn texts_are_meant()
    ensures { TextsAreMeant }
{
    sources_are_read();
}

/// A formula with its values in place has the formula's own tokens, and one word in place of each
/// parameter. So no value changes how the rest of the formula reads.
pub fn bound_formulas_are_read()
    ensures { BoundIsRead }
{
    one_token_list();
}

/// An embedded session may go to another thread, so a caller with its own lock may make each call
/// on any thread.
pub fn embedded_may_be_sent()
    ensures { IsSend embedded.the_row }
{
    // For the proof: what an embedded session is made of.
    sessions_may_be_sent();
    sends::<RecentAttrs>();
    sends::<IntoIter<Entry>>();
    sends::<Stack>();
    sends::<Vec<Value>>();
}

// The bound, as a fact.
fn sends<T: Send>()
    ensures { IsSend T.row }
{}
