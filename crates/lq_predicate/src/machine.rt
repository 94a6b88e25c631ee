//! Reads tokens from the left, with a stack of the formulas that are begun.
ghost use Rattle.std.specs.Prelude.{◌≡◌, IfOk, option_map};
ghost use Rattle.lq_predicate_formula.specs.Grammar.{nesting};
ghost use Rattle.lq_predicate_formula.specs.Machine.{Frame as Begun, MachineState, after_operand, completed, empty_frame, finished_query, operand, said_by, start};
ghost use Rattle.lq_predicate_formula.specs.Query.{Query};
ghost use Rattle.lq_predicate_formula.specs.TokenView.{token_of};
ghost use Rattle.lq_predicate.specs.Building.{HasBuilt, IsBuilt, IsStepAt, built_expected, built_frame};

use crate::builder::Builder;
use crate::stop::Stop;
use arrayvec::ArrayVec;
use lq_predicate_formula::Token;
use lq_value::{MAX_DEPTH, Op};
use std::mem;

// What comes next.
#[derive(Drop)]
pub(crate) enum Expected<N> {
    Operand,
    AfterAttr(N),
    AfterOp(N, Op),
    AfterOperand,
}

// A formula that is begun: the parts of its `or` that are done, those of its last `and`, and the
// `!` that wait.
#[derive(Default, Drop)]
pub(crate) struct Frame<P> {
    pub(crate) or_parts: P,
    pub(crate) and_parts: P,
    pub(crate) bangs: usize,
}

// The formulas that are begun, from the outside in, and how many more may nest.
#[derive(Drop)]
pub(crate) struct Frames<P> {
    pub(crate) below: ArrayVec<Frame<P>, MAX_DEPTH>,
    pub(crate) top: Frame<P>,
    pub(crate) room: usize,
}

pub(crate) fn new_frames<B: Builder>() -> Frames<B::Parts>
    ensures { HasBuilt B.parts result (start nesting) }
{
    Frames {
        below: ArrayVec::new(),
        top: new_frame::<B>(),
        room: MAX_DEPTH,
    }
}

fn new_frame<B: Builder>() -> Frame<B::Parts>
    ensures { result ≡ built_frame B.parts empty_frame }
{
    Frame {
        or_parts: B::no_parts(),
        and_parts: B::no_parts(),
        bangs: 0,
    }
}

// Reads one more token, and gives what comes next. A token's fault is the offset in it of its
// pattern's fault, if that is why it isn't taken.
pub(crate) fn take<B: Builder>(
    builder: &B,
    expected: Expected<B::Name>,
    frames: &mut Frames<B::Parts>,
    token: &Token,
) -> Result<Expected<B::Name>, Stop<Option<u64>, B::Error>>
    ensures { (s : MachineState) → HasBuilt B.parts frames.old s
        → expected ≡ built_expected B.named s.expected
        → IsStepAt B.named B.parts s.expected s (token_of token.now) result frames.new }
{
    match expected {
        Expected::Operand => at_operand(builder, frames, token),
        Expected::AfterAttr(attr) => match token {
            Token::Is(op) => Ok(Expected::AfterOp(attr, *op)),
            _ => Err(Stop::Fault(None)),
        },
        Expected::AfterOp(attr, op) => match token {
            Token::Word(raw) => {
                let part = builder.comparison(attr, op, raw)?;
                Ok(complete(builder, frames, part)?)
            }
            _ => Err(Stop::Fault(None)),
        },
        Expected::AfterOperand => after_operand(builder, frames, token),
    }
}

fn at_operand<B: Builder>(
    builder: &B,
    frames: &mut Frames<B::Parts>,
    token: &Token,
) -> Result<Expected<B::Name>, Stop<Option<u64>, B::Error>>
    ensures { (s : MachineState) → HasBuilt B.parts frames.old s
        → IsStepAt B.named B.parts operand s (token_of token.now) result frames.new }
{
    match token {
        Token::Word(raw) => {
            let attr = builder.name(raw)?;
            Ok(Expected::AfterAttr(attr))
        }
        Token::Opens => {
            if frames.room == 0 {
                return Err(Stop::Fault(None));
            }
            let outer = mem::replace(&mut frames.top, new_frame::<B>());
            // At most `MAX_DEPTH` formulas are begun, so there is a place for this one.
            let Ok(()) = frames.below.try_push(outer) else {
                return Err(Stop::Fault(None));
            };
            frames.room -= 1;
            Ok(Expected::Operand)
        }
        Token::Bang => {
            if frames.room == 0 {
                return Err(Stop::Fault(None));
            }
            frames.top.bangs = frames.top.bangs.saturating_add(1);
            frames.room -= 1;
            Ok(Expected::Operand)
        }
        _ => Err(Stop::Fault(None)),
    }
}

fn after_operand<B: Builder>(
    builder: &B,
    frames: &mut Frames<B::Parts>,
    token: &Token,
) -> Result<Expected<B::Name>, Stop<Option<u64>, B::Error>>
    ensures { (s : MachineState) → HasBuilt B.parts frames.old s
        → IsStepAt B.named B.parts after_operand s (token_of token.now) result frames.new }
{
    match token {
        Token::Ands => {
            frames.top.bangs = 0;
            Ok(Expected::Operand)
        }
        Token::Ors => {
            let and_parts = mem::replace(&mut frames.top.and_parts, B::no_parts());
            let part = builder.both(and_parts)?;
            builder.push(&mut frames.top.or_parts, part)?;
            frames.top.bangs = 0;
            Ok(Expected::Operand)
        }
        Token::Closes => {
            let Some(outer) = frames.below.pop() else {
                return Err(Stop::Fault(None));
            };
            let inner = mem::replace(&mut frames.top, outer);
            let part = whole(builder, inner)?;
            frames.room = frames.room.saturating_add(1);
            Ok(complete(builder, frames, part)?)
        }
        _ => Err(Stop::Fault(None)),
    }
}

// Completes the operand that was expected.
fn complete<B: Builder>(
    builder: &B,
    frames: &mut Frames<B::Parts>,
    part: B::Part,
) -> Result<Expected<B::Name>, B::Error>
    ensures { (s : MachineState) (q : Query) → HasBuilt B.parts frames.old s → part ≡ B.part q
        → IfOk result (λ next.
        IsBuilt B.named B.parts frames.new (completed q s.below s.top s.room) next) }
{
    let bangs = frames.top.bangs;
    let part = builder.negated(part, bangs)?;
    builder.push(&mut frames.top.and_parts, part)?;
    frames.top.bangs = 0;
    frames.room = frames.room.saturating_add(bangs);
    Ok(Expected::AfterOperand)
}

// What a frame says, once it is whole.
fn whole<B: Builder>(builder: &B, frame: Frame<B::Parts>) -> Result<B::Part, B::Error>
    ensures { (f : Begun) → frame ≡ built_frame B.parts f
        → IfOk result (λ part. part ≡ B.part (said_by f)) }
{
    let last = builder.both(frame.and_parts)?;
    builder.either(frame.or_parts, last)
}

// What the formula says, if it may end here.
pub(crate) fn finish<B: Builder>(
    builder: &B,
    expected: Expected<B::Name>,
    frames: &mut Frames<B::Parts>,
) -> Result<Option<B::Part>, B::Error>
    ensures { (s : MachineState) → HasBuilt B.parts frames.old s
        → expected ≡ built_expected B.named s.expected
        → IfOk result (λ made. made ≡ option_map B.part (finished_query s)) }
{
    let Expected::AfterOperand = expected else {
        return Ok(None);
    };
    if !frames.below.is_empty() {
        return Ok(None);
    }
    let part = whole(builder, mem::replace(&mut frames.top, new_frame::<B>()))?;
    Ok(Some(part))
}
