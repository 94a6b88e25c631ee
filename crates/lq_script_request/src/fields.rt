//! Finds the fields of a line: by its bytes if it is plain, else by serde_json.
ghost use Rattle.std.specs.Prelude.{◌≡◌, ◌⊎◌, ◌≤◌, IfErr, IfOk, IfSome, IsTrue, None, Some, length};
ghost use Rattle.lq_value.specs.declared.refusal.Refusal.TheVariants.{NoMemory, NotJson};
ghost use Rattle.serde_json.specs.Find.{get};
ghost use Rattle.serde_json.specs.Read.{read as read_text};
ghost use Rattle.serde_json.specs.View.{view};
ghost use Rattle.lq_script_request.specs.Fields.{AreAbsent, AreLastMembers, key_text, updated, whole_data};
ghost use Rattle.lq_script_request.specs.Members.{IsMember};
ghost use Rattle.lq_script_request.specs.Shown.{IsFieldOf};

use crate::field::{Field, field_of};
use crate::key::Key;
use crate::member::{byte_at, past_space, text_at, value_at};
use lq_value::Refusal;
use serde_json::Value;
use std::alloc::Global;

/// The fields of a JSON text: for each key of a line the last member with that key.
#[derive(Drop)]
pub struct Fields<'a> {
    text: &'a str,
    act: Field<'a>,
    dir: Field<'a>,
    name: Field<'a>,
    kind: Field<'a>,
    size: Field<'a>,
    time: Field<'a>,
    node: Field<'a>,
    attr: Field<'a>,
    value_type: Field<'a>,
    given: Field<'a>,
    query: Field<'a>,
    port: Field<'a>,
    backlog: Field<'a>,
    moved: Field<'a>,
    values: Field<'a>,
    slot: Field<'a>,
    clobber: Field<'a>,
}

impl<'a> Fields<'a> {
    /// The fields before any is found.
    #[inline(always)]
    pub fn new() -> Fields<'a>
        ensures { AreAbsent result }
    {
        let absent: Field<'a> = Field::Absent;
        Fields {
            text: "",
            act: absent,
            dir: absent,
            name: absent,
            kind: absent,
            size: absent,
            time: absent,
            node: absent,
            attr: absent,
            value_type: absent,
            given: absent,
            query: absent,
            port: absent,
            backlog: absent,
            moved: absent,
            values: absent,
            slot: absent,
            clobber: absent,
        }
    }

    /// The field of a key, once fields are found; `Absent` where no member has the key.
    #[inline(always)]
    pub fn at(&self, key: Key) -> Field<'a>
        requires { AreLastMembers self.now }
        ensures { IsFieldOf result (get (key_text key) (whole_data self.now)) }
    {
        match key {
            Key::Do => self.act,
            Key::Dir => self.dir,
            Key::Name => self.name,
            Key::Kind => self.kind,
            Key::Size => self.size,
            Key::Time => self.time,
            Key::Node => self.node,
            Key::Attr => self.attr,
            Key::Type => self.value_type,
            Key::Value => self.given,
            Key::Query => self.query,
            Key::Port => self.port,
            Key::Backlog => self.backlog,
            Key::Moved => self.moved,
            Key::Values => self.values,
            Key::Slot => self.slot,
            Key::Clobber => self.clobber,
        }
    }

    /// Finds the fields of a text. Of equal keys the last one counts, and a value that is no object
    /// has no fields.
    ///
    /// A plain line is one object with a member or more, in which nothing nests. Its keys and texts
    /// have no escapes. Its other values are `true`, `false`, and whole numbers of up to 18 digits,
    /// with or without a minus, but not `-0`. White space may be where JSON allows it. A plain line
    /// is read by its bytes, without memory. Any other text is read by `serde_json` into `value`,
    /// and the fields borrow from there.
    ///
    /// Refused: `NoMemory`, else `NotJson`, also where arrays and objects nest deeper than 127, or
    /// where a number rounds to an infinite double.
    #[inline(always)]
    pub fn read(
        &mut self,
        alloc: Global,
        value: &'a mut Value,
        text: &'a str,
    ) -> Result<(), Refusal>
        requires { AreAbsent self.old }
        ensures value { IfOk result (λ _. read_text text.now ≡ Some (whole_data self.new)) }
        ensures found { IfOk result (λ _. AreLastMembers self.new) }
        ensures refused { IfErr result (λ e. (e ≡ NoMemory)
            ⊎ ((e ≡ NotJson) × (read_text text.now ≡ None))) }
    {
        if self.read_plain(text) {
            return Ok(());
        }
        self.read_value(alloc, value, text)
    }

    // Finds the fields of a text by `serde_json`'s value.
    #[inline(never)]
    fn read_value(
        &mut self,
        alloc: Global,
        value: &'a mut Value,
        text: &'a str,
    ) -> Result<(), Refusal>
        ensures value { IfOk result (λ _. read_text text.now ≡ Some (whole_data self.new)) }
        ensures found { IfOk result (λ _. AreLastMembers self.new) }
        ensures refused { IfErr result (λ e. (e ≡ NoMemory)
            ⊎ ((e ≡ NotJson) × (read_text text.now ≡ None))) }
    {
        match Value::from_str(alloc, text) {
            Ok(found) => *value = found,
            Err(error) => {
                return Err(if error.is_memory() {
                    Refusal::NoMemory
                } else {
                    Refusal::NotJson
                });
            }
        }
        *self = Fields::of(text, value);
        Ok(())
    }

    // The fields of a text with this value.
    fn of(text: &'a str, value: &'a Value) -> Fields<'a>
        requires { read_text text.now ≡ Some (view value.now) }
        ensures value { read_text text.now ≡ Some (whole_data result) }
        ensures found { AreLastMembers result }
    {
        let mut fields = Fields::new();
        fields.text = text;
        let Some(members) = value.as_object() else {
            return fields;
        };
        for (key, member) in members.iter() {
            fields.put(key.as_str(), field_of(member));
        }
        fields
    }

    // Finds the fields of a plain line. False of any other text, whose fields then have no meaning.
    // It takes no memory.
    fn read_plain(&mut self, text: &'a str) -> bool
        requires { AreAbsent self.old }
        ensures value { IsTrue result → read_text text.now ≡ Some (whole_data self.new) }
        ensures found { IsTrue result → AreLastMembers self.new }
    {
        let bytes = text.as_bytes();
        let brace = past_space(bytes, 0);
        if byte_at(bytes, brace) != b'{' {
            return false;
        }
        let Some(mut end) = self.read_member(text, past_space(bytes, brace + 1)) else {
            return false;
        };
        'members: while byte_at(bytes, end) == b',' {
            let Some(next) = self.read_member(text, past_space(bytes, end + 1)) else {
                return false;
            };
            end = next;
        }
        if past_space(bytes, end + 1) < bytes.len() {
            return false;
        }
        self.text = text;
        true
    }

    // Reads the member at an offset, and gives the offset of the comma or the brace after it.
    fn read_member(&mut self, text: &'a str, from: usize) -> Option<usize>
        requires { from ≤ length text.now }
        ensures { IfSome result (λ end. IsMember text.now from self.old self.new end) }
    {
        let bytes = text.as_bytes();
        let (key, key_end) = text_at(text, from)?;
        let colon = past_space(bytes, key_end);
        if byte_at(bytes, colon) != b':' {
            return None;
        }
        let (found, value_end) = value_at(text, past_space(bytes, colon + 1))?;
        let end = past_space(bytes, value_end);
        let byte = byte_at(bytes, end);
        if byte != b',' && byte != b'}' {
            return None;
        }
        self.put(key, found);
        Some(end)
    }

    // Puts a value in the place of its key, if the key is one of a line's.
    fn put(&mut self, key: &str, found: Field<'a>)
        ensures { self.new ≡ updated key.now found.entry self.old }
    {
        match key.len() {
            2 => match key {
                "do" => self.act = found,
                _ => {}
            },
            3 => match key {
                "dir" => self.dir = found,
                _ => {}
            },
            4 => match key {
                "name" => self.name = found,
                "size" => self.size = found,
                "time" => self.time = found,
                "node" => self.node = found,
                "attr" => self.attr = found,
                "type" => self.value_type = found,
                "slot" => self.slot = found,
                "kind" => self.kind = found,
                "port" => self.port = found,
                _ => {}
            },
            5 => match key {
                "value" => self.given = found,
                "query" => self.query = found,
                "moved" => self.moved = found,
                _ => {}
            },
            6 => match key {
                "values" => self.values = found,
                _ => {}
            },
            7 => match key {
                "clobber" => self.clobber = found,
                "backlog" => self.backlog = found,
                _ => {}
            },
            _ => {}
        }
    }
}
