//! The messages that readers have to read: for each accepted change, the difference of two whole
//! results, and the value that it writes within.
use crate::acts::{Answer, Expected};
use lq_desk_sub::Read;
use lq_predicate::read;
use lq_server::Accepted;
use lq_update::{Flags, Mark, Message, Opcode};
use lq_value::{AttrName, Entry, Refusal};
use lq_volume::{Change, Volume};
use std::alloc::Global;
use std::fmt::Debug;

/// The number of changes that each volume takes.
pub const LIMIT: u64 = 2000;

/// A change that a server accepted, and what it answered.
#[derive(Drop)]
pub struct Taken {
    pub accepted: Accepted,
    pub change: Change,
}

/// How an entry is reported.
#[derive(Clone, Copy)]
enum Line {
    Removed,
    Moved,
    Created,
}

/// One subscription: what was asked, the numbers of changes known before its opening, at it and
/// after it, and its mark.
///
/// If its reader is kept, also the result that it began with, what it read up to its end, and the
/// result then.
#[derive(Drop)]
pub struct Log {
    pub alloc: Global,
    pub query: &'static str,
    pub flags: Flags,
    pub from: u64,
    pub opened: u64,
    pub to: u64,
    pub mark: Option<Mark>,
    pub begun: Option<String>,
    pub messages: Vec<Message>,
    pub ended: Option<String>,
}

/// What a value shows as.
pub fn text<T: Debug>(alloc: Global, value: &T) -> Result<String, Refusal> {
    Ok(format!(in alloc; "{value:?}")?)
}

/// Whether a volume answers all changes as the server did.
fn are_answered(volume: &mut Volume, taken: &[Taken]) -> bool {
    for Taken { accepted, change } in taken {
        match volume.apply(change) {
            Ok(applied) if (applied.change, applied.node) == (accepted.change, accepted.node) => {}
            _ => return false,
        }
    }
    true
}

/// What the entry of a node shows as, with its attributes in order, or why there is none.
fn shown_entry(alloc: Global, volume: &Volume, node: u64) -> Result<String, Refusal> {
    let entry = match volume.entry(node) {
        Ok(entry) => entry,
        Err(refusal) => return text(alloc, &refusal),
    };
    let (dir, name, kind) = (entry.dir(), entry.name(), entry.kind());
    let (size, time) = (entry.size(), entry.time());
    let mut shown = format!(in alloc; "{dir} {name:?} {kind:?} {size} {time}")?;
    for index in 0..entry.attr_count() {
        shown.push_str(&text(alloc, &entry.attr_at(index))?)?;
    }
    Ok(shown)
}

/// Whether a plain volume answers these changes as the server did, and the volume that is left has
/// the same entries then. A change makes one node at most, and the root is node 1.
pub fn is_left(alloc: Global, left: &Volume, taken: &[Taken]) -> Result<bool, Refusal> {
    let mut volume = Volume::new(alloc, LIMIT);
    let answered = are_answered(&mut volume, taken);
    for node in 0..taken.len() as u64 + 2 {
        if shown_entry(alloc, &volume, node)? != shown_entry(alloc, left, node)? {
            return Ok(false);
        }
    }
    Ok(answered && left.changes() == volume.changes())
}

/// What a query finds after each number of changes, none first.
pub fn results_of(alloc: Global, query: &str, taken: &[Taken]) -> Result<Vec<Vec<Entry>>, Refusal> {
    let predicate = read(alloc, query)?;
    let mut volume = Volume::new(alloc, LIMIT);
    let mut results = Vec::new(alloc);
    results.push(volume.fetch(&predicate)?)?;
    for one in taken {
        volume.apply(&one.change)?;
        results.push(volume.fetch(&predicate)?)?;
    }
    Ok(results)
}

/// The entry of a node in a result.
fn entry_of(entries: &[Entry], node: u64) -> Option<&Entry> {
    let place = entries.binary_search_by_key(&node, |other| other.node);
    entries.get(place.ok()?)
}

/// The node of the value that a change writes, and the attribute, if it is one.
fn value_of(change: &Change) -> Option<(u64, Option<&AttrName>)> {
    match change {
        Change::Write { node, .. } => Some((*node, None)),
        Change::SetAttr { node, attr, .. } | Change::RemoveAttr { node, attr } => {
            Some((*node, Some(attr)))
        }
        _ => None,
    }
}

/// Whether a message tells of this attribute, or of the size and time.
fn is_value(op: &Opcode, attribute: Option<&AttrName>) -> bool {
    match op {
        Opcode::ValueChanged { attribute: told } => told.as_ref() == attribute,
        _ => false,
    }
}

/// Whether the entry has a message of this kind, where the other result has `other` for its node.
fn is_line(line: Line, moved: bool, entry: &Entry, other: Option<&Entry>) -> bool {
    match (line, other) {
        (Line::Moved, None) => false,
        (_, None) => true,
        (_, Some(other)) if other.dir == entry.dir && other.name == entry.name => false,
        (Line::Moved, Some(_)) => moved,
        (_, Some(_)) => !moved,
    }
}

/// Whether a message is the one of this kind for an entry.
fn is_message_of(message: &Message, line: Line, entry: &Entry, other: Option<&Entry>) -> bool {
    let is_of = match (line, &message.op, other) {
        (Line::Removed, Opcode::Removed, _) | (Line::Created, Opcode::Created, _) => true,
        (
            Line::Moved,
            Opcode::Moved {
                from_dir,
                from_name,
            },
            Some(from),
        ) => *from_dir == from.dir && *from_name == from.name,
        _ => false,
    };
    is_of && message.dir == entry.dir && message.name == entry.name && message.node == entry.node
}

impl Log {
    /// What was read, and keeps it.
    pub fn hear(&mut self, read: Read) -> Answer {
        Ok(match read {
            Read::Update(message) => {
                let answer = Expected::Update(message.seq, message.change, message.node);
                if self.begun.is_some() {
                    self.messages.push(message)?;
                }
                answer
            }
            Read::Fin(mark) => {
                self.mark = Some(mark);
                Expected::End(mark.seq, mark.change, mark.cause)
            }
            Read::Empty => Expected::Empty,
            Read::Ended => Expected::Ended,
        })
    }

    /// Whether it began with the result at its opening, read exactly the messages up to its mark,
    /// and ended with the result there.
    pub fn is_right(&self, taken: &[Taken], results: &[Vec<Entry>]) -> Result<bool, Refusal> {
        let Some(mark) = self.mark else {
            return Ok(false);
        };
        Ok(
            self.from <= self.opened
                && self.opened <= self.to
                && self.has_messages(taken, results, mark)
                && self.is_result(results, self.opened, &self.begun)?
                && self.is_result(results, mark.change, &self.ended)?,
        )
    }

    /// Whether it read exactly the messages of all changes between its opening and its mark.
    fn has_messages(&self, taken: &[Taken], results: &[Vec<Entry>], mark: Mark) -> bool {
        let mut seen = 0;
        for before in self.opened..mark.change {
            let told = self.count(results, before, seen);
            let Some(count) = told.and_then(|told| self.count_value(taken, results, before, told))
            else {
                return false;
            };
            seen = count;
        }
        seen == self.messages.len() && mark.seq == (seen as u64).saturating_add(1)
    }

    /// How many messages there were with those of the change after this one: what left, what moved
    /// where that was asked, and what came, by rising node. `None` where one is missing.
    fn count(&self, results: &[Vec<Entry>], before: u64, seen: usize) -> Option<usize> {
        let change = before.saturating_add(1);
        let old = results.get(before as usize)?;
        let new = results.get(change as usize)?;
        let left = self.count_lines(change, Line::Removed, old, new, seen)?;
        let went = self.count_lines(change, Line::Moved, new, old, left)?;
        self.count_lines(change, Line::Created, new, old, went)
    }

    fn count_lines(
        &self,
        change: u64,
        line: Line,
        entries: &[Entry],
        others: &[Entry],
        seen: usize,
    ) -> Option<usize> {
        let mut count = seen;
        for entry in entries {
            let other = entry_of(others, entry.node);
            if is_line(line, self.flags.moved, entry, other) {
                let message = self.message(count, change)?;
                if !is_message_of(message, line, entry, other) {
                    return None;
                }
                count = count.saturating_add(1);
            }
        }
        Some(count)
    }

    /// How many messages there were with the one of the value that the change after this one
    /// writes, if values were asked for and its entry is in both results.
    fn count_value(
        &self,
        taken: &[Taken],
        results: &[Vec<Entry>],
        before: u64,
        seen: usize,
    ) -> Option<usize> {
        let change = before.saturating_add(1);
        let one = taken.get(before as usize)?;
        let Some((node, attribute)) = value_of(&one.change) else {
            return Some(seen);
        };
        let old = entry_of(results.get(before as usize)?, node);
        let new = entry_of(results.get(change as usize)?, node);
        let (Some(_), Some(entry), true) = (old, new, self.flags.values) else {
            return Some(seen);
        };
        let message = self.message(seen, change)?;
        let is_at = message.dir == entry.dir && message.name == entry.name && message.node == node;
        (is_at && is_value(&message.op, attribute)).then_some(seen.saturating_add(1))
    }

    /// The message at this place, if it is of this change, has the next number, and is marked as
    /// the last just where no other of this change follows.
    fn message(&self, place: usize, change: u64) -> Option<&Message> {
        let message = self.messages.get(place)?;
        let next = place.saturating_add(1);
        let is_last = match self.messages.get(next) {
            Some(following) => following.change != change,
            None => true,
        };
        let is_next = message.change == change && message.seq == next as u64;
        (is_next && message.last == is_last).then_some(message)
    }

    /// Whether this was shown of the result after that many changes.
    fn is_result(
        &self,
        results: &[Vec<Entry>],
        number: u64,
        shown: &Option<String>,
    ) -> Result<bool, Refusal> {
        Ok(Some(text(self.alloc, &results.get(number as usize))?) == *shown)
    }
}
