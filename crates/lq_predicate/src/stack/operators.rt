//! The operators of a stack, which make a predicate of the items on top.
ghost use Rattle.std.specs.Prelude.{◌≡◌, ◌∷◌, ◌+◌, ◌<◌, ◌≤◌, ◌^◌, drop, length, List, Option, option_and_then, Some, IfOk, IfSome, IfNone, OnOk, OnErr};
ghost use Rattle.lq_value.specs.Refusal.{FailsOnlyForMemory, IsRefusedBy};
ghost use Rattle.lq_predicate_formula.specs.Query.{And, Or};
ghost use Rattle.lq_predicate.specs.Stack.{IsMade, pushed, op_pushed, after_comparison, after_join, after_not, refusal_at};
ghost use Rattle.lq_predicate.specs.declared.stack_item.StackItem.{StackItem};

use crate::predicate::Predicate;
use crate::stack::Stack;
use crate::stack_comparison::compared;
use crate::stack_item::StackItem;
use crate::stack_op::StackOp;
use lq_value::Refusal;

impl Stack {
    /// Replaces the items on top by the predicate that an operator makes of them.
    ///
    /// A comparison takes a value on top and an attribute below it, `And` and `Or` take two
    /// predicates, `Not` takes one. Refused, the first that fits: `BadQuery` where these items are
    /// missing, the text is no pattern for `Eq` and `Ne`, the predicate would exceed a limit, or no
    /// further push can be counted, with its place as in `push_attr`; `NoMemory`. A refused call
    /// changes nothing.
    pub fn push_op(&mut self, op: StackOp) -> Result<(), Refusal>
        ensures ok { OnOk result (op_pushed op self.old ≡ Some self.new) }

        // Refused exactly where it doesn't fit; the stack is then unchanged.
        ensures refused { IsRefusedBy result
            (refusal_at self.old.pushes (op_pushed op self.old)) }
        ensures err { OnErr result (self.new ≡ self.old) }
    {
        if self.pushes == u64::MAX {
            return Err(self.misfit());
        }
        match op {
            StackOp::Not => self.put(1, self.negation()),
            StackOp::And => self.put(2, self.both()),
            StackOp::Or => self.put(2, self.either()),
            _ => self.put(2, self.comparison(op)),
        }
    }

    // Replaces this many items on top by what an operator made of them.
    fn put(&mut self, count: usize, made: Result<Option<Predicate>, Refusal>) -> Result<(), Refusal>
        requires room { self.old.pushes + 1 < 2 ^ 64 }
        requires some { 0 < count }
        requires there { IfOk made (λ m. IfSome m (λ _. count ≤ length self.old.items)) }
        requires refused { FailsOnlyForMemory made }
        ensures ok { (after : Option (List StackItem)) → IsMade made count self.old.items after
            → OnOk result (option_and_then (pushed self.old) after ≡ Some self.new) }
        ensures refused { (after : Option (List StackItem))
            → IsMade made count self.old.items after → IsRefusedBy result
            (refusal_at self.old.pushes (option_and_then (pushed self.old) after)) }
        ensures err { OnErr result (self.new ≡ self.old) }
    {
        let Some(predicate) = made? else {
            return Err(self.misfit());
        };
        self.items.truncate(self.items.len() - count);
        self.items.push_reserved(StackItem::Part(predicate));
        self.pushes += 1;
        Ok(())
    }

    // The two items on top, the upper one first.
    fn top_two(&self) -> Option<(&StackItem, &StackItem)>
        ensures some { IfSome result
            (λ r. self.now.items ≡ r.0.now ∷ r.1.now ∷ drop 2 self.now.items) }
        ensures none { IfNone result (length self.now.items < 2) }
    {
        match self.items.as_slice() {
            [.., lower, upper] => Some((upper, lower)),
            _ => None,
        }
    }

    // `Not` of the predicate on top.
    fn negation(&self) -> Result<Option<Predicate>, Refusal>
        ensures made { IsMade result 1 self.now.items (after_not self.now.items) }
        ensures refused { FailsOnlyForMemory result }
        ensures there { IfOk result (λ m. IfSome m (λ _. 1 ≤ length self.now.items)) }
    {
        match self.items.last() {
            Some(StackItem::Part(part)) => part.not(),
            _ => Ok(None),
        }
    }

    // `And` of the two predicates on top, the lower one first.
    fn both(&self) -> Result<Option<Predicate>, Refusal>
        ensures made { IsMade result 2 self.now.items (after_join And self.now.items) }
        ensures refused { FailsOnlyForMemory result }
        ensures there { IfOk result (λ m. IfSome m (λ _. 2 ≤ length self.now.items)) }
    {
        match self.top_two() {
            Some((StackItem::Part(upper), StackItem::Part(lower))) => { lower.both(upper) }
            _ => Ok(None),
        }
    }

    // `Or` of the two predicates on top, the lower one first.
    fn either(&self) -> Result<Option<Predicate>, Refusal>
        ensures made { IsMade result 2 self.now.items (after_join Or self.now.items) }
        ensures refused { FailsOnlyForMemory result }
        ensures there { IfOk result (λ m. IfSome m (λ _. 2 ≤ length self.now.items)) }
    {
        match self.top_two() {
            Some((StackItem::Part(upper), StackItem::Part(lower))) => { lower.either(upper) }
            _ => Ok(None),
        }
    }

    // The comparison of the attribute below the top with the value on top.
    fn comparison(&self, op: StackOp) -> Result<Option<Predicate>, Refusal>
        ensures made { IsMade result 2 self.now.items (after_comparison op self.now.items) }
        ensures refused { FailsOnlyForMemory result }
        ensures there { IfOk result (λ m. IfSome m (λ _. 2 ≤ length self.now.items)) }
    {
        match self.top_two() {
            Some((StackItem::Value(text), StackItem::Attr(attr))) => {
                compared(*self.items.allocator(), op, attr, text)
            }
            _ => Ok(None),
        }
    }
}
