//! Slots at their edges: numbers of none, sets, a full table, and visits of free slots.
use lq_desk_sub::{SlotIndex, SlotSet, SlotTable, Visit};
use lq_value::Refusal;
use std::alloc::Global;
use std::test::Fail;

/// A slot by its number.
pub fn slot(number: u64) -> Result<SlotIndex, Refusal> {
    SlotIndex::of(number).ok_or(Refusal::NotOpen)
}

// The number of a slot, 0 for none.
fn number_of(slot: Option<SlotIndex>) -> u64 {
    match slot {
        Some(slot) => slot.number(),
        None => 0,
    }
}

#[test]
fn slots_are_numbered_from_1_to_64(rt: HostRuntime) -> Result<(), Fail> {
    assert!(rt; number_of(SlotIndex::of(0)) == 0 && number_of(SlotIndex::of(65)) == 0);
    assert!(rt; slot(1)?.index() == 0 && slot(1)?.number() == 1);
    assert!(rt; slot(64)?.index() == 63 && slot(64)?.number() == 64);
    Ok(())
}

// The set of the slots with these numbers.
fn set_of(numbers: &[u64]) -> Result<SlotSet, Refusal> {
    let mut set = SlotSet::new();
    for number in numbers {
        set.insert(slot(*number)?);
    }
    Ok(set)
}

// The numbers of four slots that are taken out of a set in turn, 0 for each that it lacks.
fn popped(mut set: SlotSet) -> [u64; 4] {
    let mut numbers = [9; 4];
    for number in &mut numbers {
        *number = number_of(set.pop_lowest());
    }
    numbers
}

#[test]
fn a_set_has_the_slots_that_were_put_in(rt: HostRuntime) -> Result<(), Fail> {
    let mut set = set_of(&[64, 1, 1])?;
    assert!(rt; set.word() == 1 << 63 | 1 && popped(set) == [1, 64, 0, 0]);
    assert!(rt; popped(set.union(set_of(&[2, 64])?)) == [1, 2, 64, 0]);
    assert!(rt; number_of(set.lowest_outside()) == 2 && set.contains(slot(64)?));
    set.remove(slot(2)?);
    set.remove(slot(1)?);
    set.put(slot(3)?, true);
    set.put(slot(64)?, false);
    assert!(rt; popped(set) == [3, 0, 0, 0] && !set.contains(slot(64)?) && !set.is_empty());
    assert!(rt; number_of(set.lowest_outside()) == 1 && SlotSet::new().is_empty());
    Ok(())
}

// A table in which so many of the lowest slots are taken, each with its number.
fn table_of(alloc: Global, count: u64) -> Result<SlotTable<u64>, Refusal> {
    let mut table = SlotTable::new(alloc)?;
    for _ in 0..count {
        let slot = table.lowest_free().ok_or(Refusal::NoSlot)?;
        table.insert(slot, slot.number());
    }
    Ok(table)
}

#[test]
fn a_full_table_has_no_free_slot(rt: HostRuntime) -> Result<(), Fail> {
    let mut table = table_of(rt.alloc(), 64)?;
    assert!(rt; number_of(table.lowest_free()) == 0 && table.taken().word() == u64::MAX);
    assert!(rt; table_of(rt.alloc(), 65).err() == Some(Refusal::NoSlot));
    for number in [64, 1] {
        let slot = slot(number)?;
        assert!(rt; table.remove(slot) == Some(number) && table.remove(slot) == None);
        assert!(rt; table.get(slot) == None && table.get_mut(slot) == None);
        assert!(rt; number_of(table.lowest_free()) == number && !table.taken().contains(slot));
    }
    table.insert(slot(1)?, 7);
    table.insert(slot(2)?, 8);
    if let Some(item) = table.get_mut(slot(2)?) {
        *item = 9;
    }
    assert!(rt; table.get(slot(1)?) == Some(&7) && table.get(slot(2)?) == Some(&9));
    assert!(rt; number_of(table.lowest_free()) == 64);
    Ok(())
}

/// Notes two digits for each slot's number, in the order of the visits, and doubles the item.
#[derive(Drop)]
struct Doubling;

impl Visit<u64, u64> for Doubling {
    ghost allows = { λ v s i x. Unit {0} };

    ghost did = { λ v t i x y. Unit {0} };

    fn visit(&self, state: &mut u64, slot: SlotIndex, item: &mut u64) {
        *state = state.wrapping_mul(100).wrapping_add(slot.number());
        *item = item.wrapping_mul(2);
    }
}

#[test]
fn a_visit_is_of_the_taken_slots_of_a_set(rt: HostRuntime) -> Result<(), Fail> {
    let mut table = table_of(rt.alloc(), 64)?;
    let _ = table.remove(slot(2)?);
    let mut visits = 0;
    table.visit(SlotSet::new(), &Doubling, &mut visits);
    assert!(rt; visits == 0);
    table.visit(set_of(&[64, 3, 2, 1])?, &Doubling, &mut visits);
    assert!(rt; visits == 1_03_64);
    for (number, item) in [(1, 2), (3, 6), (4, 4), (64, 128)] {
        assert!(rt; table.get(slot(number)?) == Some(&item));
    }
    assert!(rt; table.get(slot(2)?) == None);
    Ok(())
}
