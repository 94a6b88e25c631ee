//! The raw request of a line: which one its word names, and its fields.
ghost use Rattle.std.specs.Prelude.{◌≡◌};
ghost use Rattle.std.specs.Option.{option_map};
ghost use Rattle.lq_script_request.specs.Fields.{AreLastMembers, whole_data};
ghost use Rattle.lq_script_request.specs.Request.{raw_asked_of, create_of, remove_of, move_of, write_of, set_of, unset_of, open_of, act_asked, rebuilt_of, find_of, entry_asked, fetch_of};
ghost use Rattle.lq_script_request.specs.Asked.{raw_asked};

use crate::field_values::{bool_or_false, i64_or_zero, kind_or_file, typed_in, u64_or};
use crate::fields::Fields;
use crate::key::Key;
use lq_desk_world::{Act, Flags, OpenOptions};
use lq_value::{Kind, View};

/// The request of a line, with its fields taken and its values not read yet: its texts are borrowed
/// from the line's JSON.
#[derive(Drop)]
pub enum RawRequest<'a> {
    Create {
        dir: u64,
        name: &'a str,
        kind: Kind,
        size: u64,
        time: i64,
    },
    Remove {
        node: u64,
    },
    Move {
        node: u64,
        dir: u64,
        name: &'a str,
        clobber: bool,
    },
    Write {
        node: u64,
        size: u64,
        time: i64,
    },
    Set {
        node: u64,
        attr: &'a str,
        value: View<'a>,
    },
    Unset {
        node: u64,
        attr: &'a str,
    },
    Open {
        query: &'a str,
        options: OpenOptions,
    },
    At {
        slot: u64,
        act: Act,
    },
    Find {
        dir: u64,
        name: &'a str,
    },
    Entry {
        node: u64,
    },
    Fetch {
        query: &'a str,
    },
    Rebuilt {
        slot: u64,
    },
}

/// The raw request of a line whose fields are found; `None` where a field is missing or wrong.
pub fn raw_request_in<'a>(fields: &Fields<'a>) -> Option<RawRequest<'a>>
    requires { AreLastMembers fields.now }
    ensures { option_map raw_asked result ≡ raw_asked_of (whole_data fields.now) }
{
    let Some(act) = fields.at(Key::Do).text() else {
        return None;
    };
    match act.len() {
        3 => match act {
            "set" => set_in(fields),
            _ => None,
        },
        4 => match act {
            "read" => act_in(fields, Act::Take),
            "move" => move_in(fields),
            "open" => open_in(fields),
            "find" => find_in(fields),
            _ => None,
        },
        5 => match act {
            "write" => write_in(fields),
            "unset" => unset_in(fields),
            "close" => act_in(fields, Act::Close),
            "entry" => entry_in(fields),
            "fetch" => fetch_in(fields),
            _ => None,
        },
        6 => match act {
            "create" => create_in(fields),
            "remove" => remove_in(fields),
            "finish" => act_in(fields, Act::Finish),
            "result" => rebuilt_in(fields),
            _ => None,
        },
        7 => match act {
            "hang_up" => act_in(fields, Act::HangUp),
            _ => None,
        },
        _ => None,
    }
}

fn create_in<'a>(fields: &Fields<'a>) -> Option<RawRequest<'a>>
    requires { AreLastMembers fields.now }
    ensures { option_map raw_asked result ≡ create_of (whole_data fields.now) }
{
    let name = fields.at(Key::Name).text()?;
    let dir = u64_or(fields, Key::Dir, 1)?;
    let kind = kind_or_file(fields)?;
    let size = u64_or(fields, Key::Size, 0)?;
    let time = i64_or_zero(fields, Key::Time)?;
    Some(RawRequest::Create {
        dir,
        name,
        kind,
        size,
        time,
    })
}

fn remove_in<'a>(fields: &Fields<'a>) -> Option<RawRequest<'a>>
    requires { AreLastMembers fields.now }
    ensures { option_map raw_asked result ≡ remove_of (whole_data fields.now) }
{
    let node = fields.at(Key::Node).number()?;
    Some(RawRequest::Remove { node })
}

fn move_in<'a>(fields: &Fields<'a>) -> Option<RawRequest<'a>>
    requires { AreLastMembers fields.now }
    ensures { option_map raw_asked result ≡ move_of (whole_data fields.now) }
{
    let node = fields.at(Key::Node).number()?;
    let name = fields.at(Key::Name).text()?;
    let dir = u64_or(fields, Key::Dir, 1)?;
    let clobber = bool_or_false(fields, Key::Clobber)?;
    Some(RawRequest::Move {
        node,
        dir,
        name,
        clobber,
    })
}

fn write_in<'a>(fields: &Fields<'a>) -> Option<RawRequest<'a>>
    requires { AreLastMembers fields.now }
    ensures { option_map raw_asked result ≡ write_of (whole_data fields.now) }
{
    let node = fields.at(Key::Node).number()?;
    let size = fields.at(Key::Size).number()?;
    let time = i64_or_zero(fields, Key::Time)?;
    Some(RawRequest::Write { node, size, time })
}

fn set_in<'a>(fields: &Fields<'a>) -> Option<RawRequest<'a>>
    requires { AreLastMembers fields.now }
    ensures { option_map raw_asked result ≡ set_of (whole_data fields.now) }
{
    let node = fields.at(Key::Node).number()?;
    let attr = fields.at(Key::Attr).text()?;
    let kind = fields.at(Key::Type).text()?;
    let value = typed_in(fields, kind)?;
    Some(RawRequest::Set { node, attr, value })
}

fn unset_in<'a>(fields: &Fields<'a>) -> Option<RawRequest<'a>>
    requires { AreLastMembers fields.now }
    ensures { option_map raw_asked result ≡ unset_of (whole_data fields.now) }
{
    let node = fields.at(Key::Node).number()?;
    let attr = fields.at(Key::Attr).text()?;
    Some(RawRequest::Unset { node, attr })
}

fn open_in<'a>(fields: &Fields<'a>) -> Option<RawRequest<'a>>
    requires { AreLastMembers fields.now }
    ensures { option_map raw_asked result ≡ open_of (whole_data fields.now) }
{
    let query = fields.at(Key::Query).text()?;
    let port = fields.at(Key::Port).number()?;
    let backlog = fields.at(Key::Backlog).number()?;
    let moved = bool_or_false(fields, Key::Moved)?;
    let values = bool_or_false(fields, Key::Values)?;
    let options = OpenOptions {
        port,
        backlog,
        flags: Flags { moved, values },
    };
    Some(RawRequest::Open { query, options })
}

fn act_in<'a>(fields: &Fields<'a>, act: Act) -> Option<RawRequest<'a>>
    requires { AreLastMembers fields.now }
    ensures { option_map raw_asked result ≡ act_asked act (whole_data fields.now) }
{
    let slot = fields.at(Key::Slot).number()?;
    Some(RawRequest::At { slot, act })
}

fn find_in<'a>(fields: &Fields<'a>) -> Option<RawRequest<'a>>
    requires { AreLastMembers fields.now }
    ensures { option_map raw_asked result ≡ find_of (whole_data fields.now) }
{
    let name = fields.at(Key::Name).text()?;
    let dir = u64_or(fields, Key::Dir, 1)?;
    Some(RawRequest::Find { dir, name })
}

fn entry_in<'a>(fields: &Fields<'a>) -> Option<RawRequest<'a>>
    requires { AreLastMembers fields.now }
    ensures { option_map raw_asked result ≡ entry_asked (whole_data fields.now) }
{
    let node = fields.at(Key::Node).number()?;
    Some(RawRequest::Entry { node })
}

fn fetch_in<'a>(fields: &Fields<'a>) -> Option<RawRequest<'a>>
    requires { AreLastMembers fields.now }
    ensures { option_map raw_asked result ≡ fetch_of (whole_data fields.now) }
{
    let query = fields.at(Key::Query).text()?;
    Some(RawRequest::Fetch { query })
}

fn rebuilt_in<'a>(fields: &Fields<'a>) -> Option<RawRequest<'a>>
    requires { AreLastMembers fields.now }
    ensures { option_map raw_asked result ≡ rebuilt_of (whole_data fields.now) }
{
    let slot = fields.at(Key::Slot).number()?;
    Some(RawRequest::Rebuilt { slot })
}
