//! Writes the attributes of an entry for the caller, by index or by name.
ghost use Rattle.std.specs.Prelude.{◌≡◌, length};
ghost use Rattle.lq_value.specs.Value.{shown_by};
ghost use Rattle.lq_embed.specs.Attrs.{ShowsAttr, ShowsNamed, attr_by_name, attr_by_index, attr_out, attr_with_name};
ghost use Rattle.lq_embed.specs.Outs.{attr_after, text_put};
ghost use Rattle.lq_embed.specs.SessionState.{holds, volume_in};
ghost use Rattle.lq_embed.specs.Status.{outcome_status};

use crate::embedded::Embedded;
use crate::numbers::status;
use crate::out_structs::{AttrOut, put_text};
use lq_value::{AttrName, Refusal, View};

impl Embedded {
    /// Writes the attribute of an entry at an index, from 0 in the order in which they were first
    /// set. It takes no memory.
    ///
    /// Refused, the first that fits: `NoNode` where there is no such node, `NoEntry` for the root,
    /// `NoAttr` where the entry has no such index.
    pub fn attr_at(&mut self, node: u64, index: usize, out: &mut AttrOut) -> u32
        ensures { ShowsAttr (holds self.old) (holds self.new)
            (attr_by_index (volume_in (holds self.old)) node index) result out.old out.new }
    {
        match self.session.volume().entry(node) {
            Err(refusal) => status(refusal),
            Ok(entry) => match entry.attr_at(index) {
                None => status(Refusal::NoAttr),
                Some((name, view)) => {
                    put_attr(name.as_str().as_bytes(), view, out);
                    0
                }
            },
        }
    }

    /// Writes the attribute of an entry with this name.
    ///
    /// Refused, the first that fits: `NotUtf8`, `BadName`, `NoNode` where there is no such node,
    /// `NoEntry` for the root, `NoAttr` where the entry has no attribute of that name; `NoMemory`.
    pub fn attr_named(&mut self, node: u64, attr: &[u8], out: &mut AttrOut) -> u32
        ensures { ShowsNamed (holds self.old) (holds self.new)
            (attr_by_name (volume_in (holds self.old)) node attr.now) result out.old out.new }
    {
        let Ok(text) = str::from_utf8(attr) else {
            return status(Refusal::NotUtf8);
        };
        let name = match AttrName::read(self.alloc, text) {
            Ok(name) => name,
            Err(refusal) => return status(refusal),
        };
        self.put_named(node, &name, out)
    }

    // Writes the attribute of an entry with this name.
    fn put_named(&self, node: u64, attr: &AttrName, out: &mut AttrOut) -> u32
        ensures status { result ≡ outcome_status
            (attr_with_name (volume_in (holds self.now)) node attr.now) }
        ensures out { out.new ≡ attr_out
            (attr_with_name (volume_in (holds self.now)) node attr.now) out.old }
    {
        match self.session.volume().entry(node) {
            Err(refusal) => status(refusal),
            Ok(entry) => match entry.attr(attr) {
                None => status(Refusal::NoAttr),
                Some(view) => {
                    put_attr(attr.as_str().as_bytes(), view, out);
                    0
                }
            },
        }
    }
}

// Writes an attribute.
fn put_attr(name: &[u8], view: View<'_>, out: &mut AttrOut)
    ensures { out.new ≡ attr_after name.now (shown_by view.entry) out.old }
{
    out.name_size = put_text(&mut out.name, name);
    match view {
        View::Text(text) => put_value(0x43535452, 0, 0, text.as_bytes(), out),
        View::Int32(number) => put_value(0x4C4F4E47, i64::from(number), 0, b"", out),
        View::Int64(number) => put_value(0x4C4C4E47, number, 0, b"", out),
        View::UInt32(number) => put_value(0x554C4E47, 0, u64::from(number), b"", out),
        View::UInt64(number) => put_value(0x554C4C47, 0, number, b"", out),
    }
}

// Writes the type of a value, and its number or its text.
fn put_value(kind: u32, whole: i64, natural: u64, text: &[u8], out: &mut AttrOut)
    ensures { out.new ≡ record out.old {
      kind = kind;
      whole = whole;
      natural = natural;
      text_size = length text.now;
      text = text_put text.now out.old.text;
    } }
{
    out.kind = kind;
    out.whole = whole;
    out.natural = natural;
    out.text_size = put_text(&mut out.text, text);
}
