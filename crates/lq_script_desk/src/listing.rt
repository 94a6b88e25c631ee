//! Writes the text of a whole entry, with its attributes, as `entry` of a script answers it.
#![tactic(auto, using(crate::proofs::Joining::joined), unfolding(json::specs::Print::escape_byte))]

ghost use Rattle.std.specs.Prelude.{◌≡◌, ◌++◌, codes, OnOk, map, true, false};
ghost use Rattle.serde_json.specs.View.{items_of};
ghost use Rattle.serde_json.specs.Written.{compact_text, items_text, members_text, comma_if};
ghost use Rattle.lq_script_desk.specs.Front.{AppendsTo};
ghost use Rattle.lq_volume.specs.Lookup.{listed};
ghost use Rattle.lq_script_desk.specs.Reply.{attr_data, kind_name, listing_data, sized_members, type_name, value_data, word};

use crate::pieces::{put_bytes, put_signed, put_unsigned};
use crate::quoted_text::put_text;
use lq_value::{AttrName, Kind, Value};
use lq_volume::Listing;
use std::alloc::AllocError;

/// Appends the whole entry of a node to `out`.
///
/// An error says that memory ran out: `out` then keeps what it had, maybe followed by a part of the
/// text.
pub fn put_listing(out: &mut Vec<u8>, node: u64, listing: &Listing) -> Result<(), AllocError>
    ensures ok { OnOk result (out.new.items
        ≡ out.old.items ++ compact_text (listing_data node (listed listing.now))) }
    ensures front { AppendsTo out.new.items out.old.items }
{
    put_attrs(out, b"{\"attrs\":[", &listing.attrs)?;
    put_unsigned(out, b",\"dir\":", listing.dir)?;
    put_text(out, b",\"kind\":", kind_name(listing.kind))?;
    put_text(out, b",\"name\":", listing.name.as_str())?;
    put_sized(out, node, listing)?;
    Ok(())
}

fn put_sized(out: &mut Vec<u8>, node: u64, listing: &Listing) -> Result<(), AllocError>
    ensures ok { OnOk result (out.new.items
        ≡ out.old.items ++ members_text true (sized_members node (listed listing.now))) }
    ensures front { AppendsTo out.new.items out.old.items }
{
    put_unsigned(out, b",\"node\":", node)?;
    put_unsigned(out, b",\"size\":", listing.size)?;
    put_signed(out, b",\"time\":", listing.time)?;
    put_bytes(out, b"}")?;
    Ok(())
}

fn kind_name(kind: Kind) -> &'static str
    ensures { result.now ≡ kind_name kind }
{
    match kind {
        Kind::File => "file",
        Kind::Folder => "folder",
    }
}

// Appends the attributes, and the closing bracket of their list.
fn put_attrs(
    out: &mut Vec<u8>,
    before: &[u8],
    attrs: &[(AttrName, Value)],
) -> Result<(), AllocError>
    ensures ok { OnOk result (out.new.items
        ≡ out.old.items ++ (before.now ++ items_text false (items_of (map attr_data attrs.now)))) }
    ensures front { AppendsTo out.new.items out.old.items }
{
    put_bytes(out, before)?;
    let mut later = false;
    for attr in attrs {
        put_attr(out, later, &attr.0, &attr.1)?;
        later = true;
    }
    put_bytes(out, b"]")
}

// Appends an attribute, after a comma if it isn't the first.
fn put_attr(
    out: &mut Vec<u8>,
    later: bool,
    name: &AttrName,
    value: &Value,
) -> Result<(), AllocError>
    ensures ok { OnOk result (out.new.items
        ≡ out.old.items ++ (comma_if later ++ compact_text (attr_data (name.now, value.now)))) }
    ensures front { AppendsTo out.new.items out.old.items }
{
    put_text(
        out,
        if later { b",{\"name\":" } else { b"{\"name\":" },
        name.as_str(),
    )?;
    put_typed(out, value)?;
    put_bytes(out, b"}")
}

// Appends the members of the type and of the value.
fn put_typed(out: &mut Vec<u8>, value: &Value) -> Result<(), AllocError>
    ensures ok { OnOk result (out.new.items
        ≡ out.old.items ++ (codes ",\"type\":" ++ (compact_text (word (type_name value.now))
        ++ (codes ",\"value\":" ++ compact_text (value_data value.now))))) }
    ensures front { AppendsTo out.new.items out.old.items }
{
    match value {
        Value::Text(text) => put_text(out, b",\"type\":\"CSTR\",\"value\":", text.as_str()),
        Value::Int32(number) => {
            put_signed(out, b",\"type\":\"LONG\",\"value\":", i64::from(*number))
        }
        Value::Int64(number) => put_signed(out, b",\"type\":\"LLNG\",\"value\":", *number),
        Value::UInt32(number) => {
            put_unsigned(out, b",\"type\":\"ULNG\",\"value\":", u64::from(*number))
        }
        Value::UInt64(number) => put_unsigned(out, b",\"type\":\"ULLG\",\"value\":", *number),
    }
}
