//! Members of a reply's JSON value, as the plain way puts them: lists, entries, numbers and texts.
ghost use Rattle.std.specs.Prelude.{◌≡◌, IfOk, OnOk, codes, map};
ghost use Rattle.serde_json.specs.View.{view, items_of, members_view};
ghost use Rattle.serde_json.specs.Data.{array, put as with_member};
ghost use Rattle.lq_script_desk.specs.Reply.{attr_data, count, entry_data, type_name, value_data, word};

use lq_value::{AttrName, Entry};
use serde_json::{Map, Value, put};
use std::alloc::{AllocError, Global};

/// Puts a list of attributes.
pub fn put_attrs(
    alloc: Global,
    members: &mut Map<String, Value>,
    attrs: &[(AttrName, lq_value::Value)],
) -> Result<(), AllocError>
    ensures { OnOk result (members_view members.new.entries
        ≡ with_member (codes "attrs") (array (items_of (map attr_data attrs.now)))
        (members_view members.old.entries)) }
{
    let mut items = Vec::new(alloc);
    for attr in attrs {
        items.push(attr_value(alloc, &attr.0, &attr.1)?)?;
    }
    put(members, alloc, "attrs", Value::Array(items))
}

fn attr_value(alloc: Global, name: &AttrName, value: &lq_value::Value) -> Result<Value, AllocError>
    ensures { IfOk result (λ v. view v ≡ attr_data (name.now, value.now)) }
{
    let mut map = Map::new(alloc);
    put_word(alloc, &mut map, "name", name.as_str())?;
    put_typed(alloc, &mut map, value)?;
    Ok(Value::Object(map))
}

// Puts the type of a value, and the value.
fn put_typed(
    alloc: Global,
    members: &mut Map<String, Value>,
    value: &lq_value::Value,
) -> Result<(), AllocError>
    ensures { OnOk result (members_view members.new.entries
        ≡ with_member (codes "value") (value_data value.now)
        (with_member (codes "type") (word (type_name value.now))
        (members_view members.old.entries))) }
{
    match value {
        lq_value::Value::Text(text) => {
            put_word(alloc, members, "type", "CSTR")?;
            put_word(alloc, members, "value", text.as_str())
        }
        lq_value::Value::Int32(number) => {
            put_word(alloc, members, "type", "LONG")?;
            put(members, alloc, "value", Value::from(*number))
        }
        lq_value::Value::Int64(number) => {
            put_word(alloc, members, "type", "LLNG")?;
            put(members, alloc, "value", Value::from(*number))
        }
        lq_value::Value::UInt32(number) => {
            put_word(alloc, members, "type", "ULNG")?;
            put_count(alloc, members, "value", u64::from(*number))
        }
        lq_value::Value::UInt64(number) => {
            put_word(alloc, members, "type", "ULLG")?;
            put_count(alloc, members, "value", *number)
        }
    }
}

/// Puts a list of entries.
pub fn put_result(
    alloc: Global,
    members: &mut Map<String, Value>,
    entries: &[Entry],
) -> Result<(), AllocError>
    ensures { OnOk result (members_view members.new.entries
        ≡ with_member (codes "result") (array (items_of (map entry_data entries.now)))
        (members_view members.old.entries)) }
{
    let mut items = Vec::new(alloc);
    for entry in entries {
        items.push(entry_value(alloc, entry)?)?;
    }
    put(members, alloc, "result", Value::Array(items))
}

fn entry_value(alloc: Global, entry: &Entry) -> Result<Value, AllocError>
    ensures { IfOk result (λ v. view v ≡ entry_data entry.now) }
{
    let mut map = Map::new(alloc);
    put_entry(alloc, &mut map, entry.dir, entry.name.as_str(), entry.node)?;
    Ok(Value::Object(map))
}

/// Puts where an entry stands, and its node.
pub fn put_entry(
    alloc: Global,
    members: &mut Map<String, Value>,
    dir: u64,
    name: &str,
    node: u64,
) -> Result<(), AllocError>
    ensures { OnOk result (members_view members.new.entries
        ≡ with_member (codes "node") (count node) (with_member (codes "name") (word name.now)
        (with_member (codes "dir") (count dir) (members_view members.old.entries)))) }
{
    put_count(alloc, members, "dir", dir)?;
    put_word(alloc, members, "name", name)?;
    put_count(alloc, members, "node", node)
}

/// Puts the change and the number of what is read, and what that is.
pub fn put_step(
    alloc: Global,
    members: &mut Map<String, Value>,
    change: u64,
    seq: u64,
    what: &str,
) -> Result<(), AllocError>
    ensures { OnOk result (members_view members.new.entries
        ≡ with_member (codes "what") (word what.now) (with_member (codes "seq") (count seq)
        (with_member (codes "change") (count change) (members_view members.old.entries)))) }
{
    put_count(alloc, members, "change", change)?;
    put_count(alloc, members, "seq", seq)?;
    put_word(alloc, members, "what", what)
}

/// Puts a number under a key.
pub fn put_count(
    alloc: Global,
    members: &mut Map<String, Value>,
    key: &str,
    number: u64,
) -> Result<(), AllocError>
    ensures { OnOk result (members_view members.new.entries
        ≡ with_member key.now (count number) (members_view members.old.entries)) }
{
    put(members, alloc, key, Value::from(number))
}

/// Puts a text under a key.
pub fn put_word(
    alloc: Global,
    members: &mut Map<String, Value>,
    key: &str,
    text: &str,
) -> Result<(), AllocError>
    ensures { OnOk result (members_view members.new.entries
        ≡ with_member key.now (word text.now) (members_view members.old.entries)) }
{
    let text = Value::try_from_str(alloc, text)?;
    put(members, alloc, key, text)
}
