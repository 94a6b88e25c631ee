//! Binds values, one after another, and opens or fetches by a formula with them.
ghost use Rattle.std.specs.Prelude.{◌≡◌, [], IfErr, IfOk, Ok, Err};
ghost use Rattle.lq_value.specs.declared.value.Value.TheVariants as value;
ghost use Rattle.lq_embed.specs.Bound.{BindsValue, FetchesBound, OpensBound, bound_text, state_after_unbound, taken_off, unbound_status};
ghost use Rattle.lq_embed.specs.BoundFormula.{Binds};
ghost use Rattle.lq_embed.specs.SessionState.{holds, with_bound};

use crate::bound_formula::{Unbound, bind};
use crate::embedded::Embedded;
use crate::numbers::{MISUSE, NO_VALUE, UNUSED_VALUE, status};
use crate::out_structs::{FetchedOut, OpenOptions, OpeningOut};
use crate::parameters::MAX_VALUES;
use lq_value::{Refusal, Value};

impl Embedded {
    /// Binds a text after the values that are bound.
    ///
    /// Refused, the first that fits: `MISUSE` after 256 values, `NotUtf8`, `TooLong` above 4,096
    /// bytes, `NoMemory`. A refused value leaves the others.
    pub fn bind_text(&mut self, text: &[u8]) -> u32
        ensures { BindsValue (holds self.old) (holds self.new) (bound_text text.now) result }
    {
        if self.bound.len() >= MAX_VALUES {
            return MISUSE;
        }
        let Ok(text) = str::from_utf8(text) else {
            return status(Refusal::NotUtf8);
        };
        match Value::text(self.alloc, text) {
            Ok(value) => self.bind_value(value),
            Err(refusal) => status(refusal),
        }
    }

    /// Binds a number after the values that are bound. Refused: `MISUSE` after 256 values,
    /// `NoMemory`.
    pub fn bind_int64(&mut self, number: i64) -> u32
        ensures { BindsValue (holds self.old) (holds self.new) (Ok (value.Int64 number)) result }
    {
        self.bind_value(Value::Int64(number))
    }

    /// As `bind_int64`.
    pub fn bind_uint64(&mut self, number: u64) -> u32
        ensures { BindsValue (holds self.old) (holds self.new) (Ok (value.UInt64 number)) result }
    {
        self.bind_value(Value::UInt64(number))
    }

    // Binds a value after the values that are bound.
    fn bind_value(&mut self, value: Value) -> u32
        ensures { BindsValue (holds self.old) (holds self.new) (Ok value) result }
    {
        if self.bound.len() >= MAX_VALUES {
            return MISUSE;
        }
        match self.bound.push(value) {
            Ok(()) => 0,
            Err(_) => status(Refusal::NoMemory),
        }
    }

    /// Takes the bound values off. It takes no memory.
    pub fn clear_bound(&mut self)
        ensures { holds self.new ≡ with_bound (holds self.old) [] }
    {
        self.bound.clear();
    }

    /// Opens a live query of a formula with the bound values in place of its parameters, as
    /// `open_by` opens one. In each case the values are taken off; the formula with its values is
    /// then the text, which is empty where there is none.
    ///
    /// Refused, the first that fits: as by `bind`, then as `open_by`; `NoMemory`.
    pub fn open_bound(&mut self, formula: &[u8], options: &OpenOptions, out: &mut OpeningOut) -> u32
        ensures { OpensBound (holds self.old) (holds self.new) options.now formula.now
            result out.old out.new }
    {
        match self.take_bound(formula) {
            Err(refusal) => self.unbound(refusal),
            Ok(text) => {
                let status = self.open_by(&text, options, out);
                self.text = text;
                status
            }
        }
    }

    /// Fetches the entries that match a formula with the bound values in place of its parameters,
    /// as `fetch` does. In each case the values are taken off; the formula with its values is then
    /// the text, which is empty where there is none.
    ///
    /// Refused, the first that fits: as by `bind`, then as `fetch`; `NoMemory`.
    pub fn fetch_bound(&mut self, formula: &[u8], out: &mut FetchedOut) -> u32
        ensures { FetchesBound (holds self.old) (holds self.new) formula.now
            result out.old out.new }
    {
        match self.take_bound(formula) {
            Err(refusal) => self.unbound(refusal),
            Ok(text) => {
                let status = self.fetch(&text, out);
                self.text = text;
                status
            }
        }
    }

    // Puts the bound values in place of a formula's parameters, and takes them off.
    fn take_bound(&mut self, formula: &[u8]) -> Result<Vec<u8>, Unbound>
        ensures ok { IfOk result (λ text.
            Binds (holds self.old).bound formula.now (Ok text.items)) }
        ensures err { IfErr result (λ e. Binds (holds self.old).bound formula.now (Err e)) }
        ensures after { holds self.new ≡ taken_off (holds self.old) }
    {
        self.text.clear();
        let bound = bind(self.alloc, formula, &self.bound);
        self.bound.clear();
        bound
    }

    // The status of a formula whose values can't be put in place; the place of its fault is kept.
    fn unbound(&mut self, unbound: Unbound) -> u32
        ensures status { result ≡ unbound_status unbound }
        ensures after { holds self.new ≡ state_after_unbound unbound (holds self.old) }
    {
        match unbound {
            Unbound::Refused(refusal) => self.refused(refusal),
            Unbound::NoValue(number) => {
                self.fault = number as u64;
                NO_VALUE
            }
            Unbound::UnusedValue(number) => {
                self.fault = number as u64;
                UNUSED_VALUE
            }
        }
    }
}
