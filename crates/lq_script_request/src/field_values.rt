//! The values that a request takes from a line's fields: some have a default, some are narrower.
ghost use Rattle.std.specs.Prelude.{◌≡◌, codes, option_and_then, pos, false};
ghost use Rattle.std.specs.Option.{option_map};
ghost use Rattle.lq_value.specs.declared.value.Value.TheVariants.{Int32, UInt32};
ghost use Rattle.lq_value.specs.declared.kind.Kind.TheVariants.{File};
ghost use Rattle.serde_json.specs.Find.{as_i64, as_number, as_u64, get};
ghost use Rattle.lq_script_request.specs.Fields.{AreLastMembers, key_text, whole_data};
ghost use Rattle.lq_script_request.specs.Request.{given_by, given_number, within_i32, within_u32, flag_or, u64_or, i64_or, kind_or};
ghost use Rattle.lq_script_request.specs.Asked.{given};

use crate::fields::Fields;
use crate::key::Key;
use lq_value::{Kind, View};

/// A whole number from 0 up, or the default if the field is absent.
pub fn u64_or(fields: &Fields<'_>, key: Key, default: u64) -> Option<u64>
    requires { AreLastMembers fields.now }
    ensures { result ≡ u64_or default (get (key_text key) (whole_data fields.now)) }
{
    let field = fields.at(key);
    if field.is_absent() {
        return Some(default);
    }
    field.number()
}

/// A whole number of 64 bits with a sign, or 0 if the field is absent.
pub fn i64_or_zero(fields: &Fields<'_>, key: Key) -> Option<i64>
    requires { AreLastMembers fields.now }
    ensures { result ≡ i64_or (pos 0) (get (key_text key) (whole_data fields.now)) }
{
    let field = fields.at(key);
    if field.is_absent() {
        return Some(0);
    }
    field.signed()
}

/// A truth value, or false if the field is absent.
pub fn bool_or_false(fields: &Fields<'_>, key: Key) -> Option<bool>
    requires { AreLastMembers fields.now }
    ensures { result ≡ flag_or false (get (key_text key) (whole_data fields.now)) }
{
    let field = fields.at(key);
    if field.is_absent() {
        return Some(false);
    }
    field.truth()
}

/// The kind, or a file if the field is absent.
pub fn kind_or_file(fields: &Fields<'_>) -> Option<Kind>
    requires { AreLastMembers fields.now }
    ensures { result ≡ kind_or File (get (codes "kind") (whole_data fields.now)) }
{
    let field = fields.at(Key::Kind);
    if field.is_absent() {
        return Some(Kind::File);
    }
    let text = field.text()?;
    match text {
        "file" => Some(Kind::File),
        "folder" => Some(Kind::Folder),
        _ => None,
    }
}

/// The value of one of the five attribute types, given the type's text.
pub fn typed_in<'a>(fields: &Fields<'a>, kind: &str) -> Option<View<'a>>
    requires { AreLastMembers fields.now }
    ensures { option_map given result
        ≡ option_and_then (given_by kind.now) (get (codes "value") (whole_data fields.now)) }
{
    match kind {
        "CSTR" => {
            let text = fields.at(Key::Value).text()?;
            Some(View::Text(text))
        }
        "LONG" => {
            let number = narrow_signed(fields, Key::Value)?;
            Some(View::Int32(number))
        }
        "LLNG" => {
            let number = fields.at(Key::Value).signed()?;
            Some(View::Int64(number))
        }
        "ULNG" => {
            let number = narrow_number(fields, Key::Value)?;
            Some(View::UInt32(number))
        }
        "ULLG" => {
            let number = fields.at(Key::Value).number()?;
            Some(View::UInt64(number))
        }
        _ => None,
    }
}

// The whole number of a key's field, if it fits into 32 bits with a sign.
fn narrow_signed(fields: &Fields<'_>, key: Key) -> Option<i32>
    requires { AreLastMembers fields.now }
    ensures { option_map (λ n. given_number (Int32 n)) result
        ≡ option_and_then within_i32 (option_and_then as_i64
        (option_and_then as_number (get (key_text key) (whole_data fields.now)))) }
{
    let number = fields.at(key).signed()?;
    if number < -2147483648 || number > 2147483647 {
        return None;
    }
    Some(number as i32)
}

// The whole number of a key's field, if it fits into 32 bits without a sign.
fn narrow_number(fields: &Fields<'_>, key: Key) -> Option<u32>
    requires { AreLastMembers fields.now }
    ensures { option_map (λ n. given_number (UInt32 n)) result
        ≡ option_and_then within_u32 (option_and_then as_u64
        (option_and_then as_number (get (key_text key) (whole_data fields.now)))) }
{
    let number = fields.at(key).number()?;
    if number > 4294967295 {
        return None;
    }
    Some(number as u32)
}
