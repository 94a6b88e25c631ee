//! Parses a line's bytes to its request, or the refusal that comes first.
ghost use Rattle.std.specs.Prelude.{◌≡◌, ◌⊎◌, IfOk, IfErr, Ok, Err};
ghost use Rattle.lq_value.specs.declared.refusal.Refusal.TheVariants.{NoMemory};
ghost use Rattle.lq_script_request.specs.Asked.{raw_asked, given};
ghost use Rattle.lq_script_request.specs.Request.{asks_create, asks_fetch, asks_find, asks_move, asks_open, asks_set, asks_unset, value_for, request_for, request_in};

use crate::fields::Fields;
use crate::quick_read::plain_read;
use crate::raw_request::{RawRequest, raw_request_in};
use crate::request::{Look, Request};
use crate::scratch::{RecentAttrs, Scratch};
use lq_desk_world::{Event, OpenOptions};
use lq_predicate::{one_reading, read};
use lq_value::{Kind, Name, Refusal, View};
use lq_volume::Change;
use serde_json::Value;
use simdutf8::is_utf8;
use std::alloc::Global;

/// The request of a line without its LF and CR.
///
/// A scratch reused from line to line saves memory and changes no answer. Refused: `NoMemory`;
/// else, the first that fits, `NotUtf8`, `NotJson`, `BadLine` (no object, an unknown `do`, a field
/// missing, of the wrong type or out of its range), then, as the values are read, `BadName` or
/// `BadQuery`. The faults and their order are our own.
pub fn request_in(alloc: Global, scratch: &mut Scratch, line: &[u8]) -> Result<Request, Refusal>
    ensures value { IfOk result (λ request. request_in line.now ≡ Ok request) }
    ensures refused { IfErr result (λ e. (e ≡ NoMemory) ⊎ (request_in line.now ≡ Err e)) }
{
    if let Some(slot) = plain_read(line) {
        return Ok(Request::Event(Event::Take(slot)));
    }
    if !is_utf8(line) {
        return Err(Refusal::NotUtf8);
    }
    let text = unsafe { str::from_utf8_unchecked(line) };
    let mut value = Value::Null;
    let mut fields = Fields::new();
    fields.read(alloc, &mut value, text)?;
    let Some(raw) = raw_request_in(&fields) else {
        return Err(Refusal::BadLine);
    };
    read_request(alloc, &mut scratch.attrs, &raw)
}

/// A raw request with its values read.
///
/// The attribute names that are kept from request to request save memory and change no answer.
/// Refused: `NoMemory`; else, the first that fits, `BadName`, `TooLong` for a text value,
/// `BadQuery`.
pub fn read_request(
    alloc: Global,
    attrs: &mut RecentAttrs,
    raw: &RawRequest<'_>,
) -> Result<Request, Refusal>
    ensures value { IfOk result (λ request. request_for (raw_asked raw.now) ≡ Ok request) }
    ensures refused { IfErr result (λ e. (e ≡ NoMemory)
        ⊎ (request_for (raw_asked raw.now) ≡ Err e)) }
{
    match raw {
        RawRequest::Create {
            dir,
            name,
            kind,
            size,
            time,
        } => creating(alloc, *dir, name, *kind, *size, *time),
        RawRequest::Remove { node } => Ok(Request::Event(Event::Change(Change::Remove {
            node: *node,
        }))),
        RawRequest::Move {
            node,
            dir,
            name,
            clobber,
        } => moving(alloc, *node, *dir, name, *clobber),
        RawRequest::Write { node, size, time } => Ok(Request::Event(Event::Change(
            Change::Write {
                node: *node,
                size: *size,
                time: *time,
            },
        ))),
        RawRequest::Set { node, attr, value } => setting(alloc, attrs, *node, attr, *value),
        RawRequest::Unset { node, attr } => unsetting(alloc, attrs, *node, attr),
        RawRequest::Open { query, options } => opening(alloc, query, *options),
        RawRequest::At { slot, act } => Ok(Request::Event(act.at(*slot))),
        RawRequest::Find { dir, name } => finding(alloc, *dir, name),
        RawRequest::Entry { node } => Ok(Request::Look(Look::Entry { node: *node })),
        RawRequest::Fetch { query } => fetching(alloc, query),
        RawRequest::Rebuilt { slot } => Ok(Request::Look(Look::Rebuilt { slot: *slot })),
    }
}

// The request that creates an entry.
fn creating(
    alloc: Global,
    dir: u64,
    name: &str,
    kind: Kind,
    size: u64,
    time: i64,
) -> Result<Request, Refusal>
    ensures value { IfOk result (λ request.
        request_for (asks_create dir name.now kind size time) ≡ Ok request) }
    ensures refused { IfErr result (λ e. (e ≡ NoMemory)
        ⊎ (request_for (asks_create dir name.now kind size time) ≡ Err e)) }
{
    let name = Name::read(alloc, name)?;
    Ok(Request::Event(Event::Change(Change::Create {
        dir,
        name,
        kind,
        size,
        time,
    })))
}

// The request that moves an entry.
fn moving(alloc: Global, node: u64, dir: u64, name: &str, clobber: bool) -> Result<Request, Refusal>
    ensures value { IfOk result (λ request.
        request_for (asks_move node dir name.now clobber) ≡ Ok request) }
    ensures refused { IfErr result (λ e. (e ≡ NoMemory)
        ⊎ (request_for (asks_move node dir name.now clobber) ≡ Err e)) }
{
    let name = Name::read(alloc, name)?;
    Ok(Request::Event(Event::Change(Change::Move {
        node,
        dir,
        name,
        clobber,
    })))
}

// The request that sets an attribute; its name is read before its value.
fn setting(
    alloc: Global,
    attrs: &mut RecentAttrs,
    node: u64,
    attr: &str,
    value: View<'_>,
) -> Result<Request, Refusal>
    ensures value { IfOk result (λ request.
        request_for (asks_set node attr.now (given value.entry)) ≡ Ok request) }
    ensures refused { IfErr result (λ e. (e ≡ NoMemory)
        ⊎ (request_for (asks_set node attr.now (given value.entry)) ≡ Err e)) }
{
    let attr = attrs.read(alloc, attr)?;
    let value = typed(alloc, value)?;
    Ok(Request::Event(Event::Change(Change::SetAttr { node, attr, value })))
}

// The value of an attribute that a line gives.
fn typed(alloc: Global, shown: View<'_>) -> Result<lq_value::Value, Refusal>
    ensures refused { IfErr result (λ e. (e ≡ NoMemory) ⊎ (value_for (given shown.entry) ≡ Err e)) }
    ensures value { IfOk result (λ value. value_for (given shown.entry) ≡ Ok value) }
{
    match shown {
        View::Text(text) => Ok(lq_value::Value::text(alloc, text)?),
        View::Int32(number) => Ok(lq_value::Value::Int32(number)),
        View::Int64(number) => Ok(lq_value::Value::Int64(number)),
        View::UInt32(number) => Ok(lq_value::Value::UInt32(number)),
        View::UInt64(number) => Ok(lq_value::Value::UInt64(number)),
    }
}

// The request that removes an attribute.
fn unsetting(
    alloc: Global,
    attrs: &mut RecentAttrs,
    node: u64,
    attr: &str,
) -> Result<Request, Refusal>
    ensures value { IfOk result (λ request.
        request_for (asks_unset node attr.now) ≡ Ok request) }
    ensures refused { IfErr result (λ e. (e ≡ NoMemory)
        ⊎ (request_for (asks_unset node attr.now) ≡ Err e)) }
{
    let attr = attrs.read(alloc, attr)?;
    Ok(Request::Event(Event::Change(Change::RemoveAttr { node, attr })))
}

// The request that opens a subscription.
fn opening(alloc: Global, query: &str, options: OpenOptions) -> Result<Request, Refusal>
    ensures value { IfOk result (λ request.
        request_for (asks_open query.now options) ≡ Ok request) }
    ensures refused { IfErr result (λ e. (e ≡ NoMemory)
        ⊎ (request_for (asks_open query.now options) ≡ Err e)) }
{
    one_reading();
    let predicate = read(alloc, query)?;
    Ok(Request::Event(Event::OpenBy { predicate, options }))
}

// The request that finds the node at a place.
fn finding(alloc: Global, dir: u64, name: &str) -> Result<Request, Refusal>
    ensures value { IfOk result (λ request.
        request_for (asks_find dir name.now) ≡ Ok request) }
    ensures refused { IfErr result (λ e. (e ≡ NoMemory)
        ⊎ (request_for (asks_find dir name.now) ≡ Err e)) }
{
    let name = Name::read(alloc, name)?;
    Ok(Request::Look(Look::Find { dir, name }))
}

// The request that fetches the entries that match a formula.
fn fetching(alloc: Global, query: &str) -> Result<Request, Refusal>
    ensures value { IfOk result (λ request.
        request_for (asks_fetch query.now) ≡ Ok request) }
    ensures refused { IfErr result (λ e. (e ≡ NoMemory)
        ⊎ (request_for (asks_fetch query.now) ≡ Err e)) }
{
    one_reading();
    let predicate = read(alloc, query)?;
    Ok(Request::Look(Look::Fetch { predicate }))
}
