//! The readers that a run has opened and not finished. No clause says what these calls do.
use lq_desk_sub::{SlotIndex, SlotTable};
use lq_server::{Named, OwnReader};
use lq_value::Refusal;
use std::alloc::Global;

/// The readers of the slots.
#[derive(Drop)]
pub struct ReaderTable<N: Named> {
    slots: SlotTable<OwnReader<N>>,
}

impl<N: Named> ReaderTable<N> {
    /// All slots free. Refused: `NoMemory`.
    pub fn new(alloc: Global) -> Result<ReaderTable<N>, Refusal> {
        let slots = SlotTable::new(alloc)?;
        Ok(ReaderTable { slots })
    }

    /// The reader of a slot. Refused: `NotOpen` if it has none.
    pub fn reader(&mut self, slot: SlotIndex) -> Result<&mut OwnReader<N>, Refusal> {
        match self.slots.get_mut(slot) {
            Some(reader) => Ok(reader),
            None => Err(Refusal::NotOpen),
        }
    }

    /// Takes the reader of a slot out. Refused: `NotOpen` if it has none.
    pub fn take(&mut self, slot: SlotIndex) -> Result<OwnReader<N>, Refusal> {
        match self.slots.remove(slot) {
            Some(reader) => Ok(reader),
            None => Err(Refusal::NotOpen),
        }
    }

    /// Puts a reader into its slot.
    pub fn put(&mut self, reader: OwnReader<N>) {
        if let Some(slot) = SlotIndex::of(reader.reader().slot()) {
            self.slots.insert(slot, reader);
        }
    }
}

/// The slot with this number. Refused: `NotOpen` if it is none of 1 to 64.
pub fn slot_of(number: u64) -> Result<SlotIndex, Refusal> {
    match SlotIndex::of(number) {
        Some(slot) => Ok(slot),
        None => Err(Refusal::NotOpen),
    }
}
