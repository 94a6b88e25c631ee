//! A port at work: one place, no taker left, and two threads.
ghost use Rattle.lq_port.specs.End.{IsSamePort};

use lq_port::{Follows, PortIn, PortOut, make};
use lq_value::Refusal;
use std::alloc::Global;
use std::sync::Wait;
use std::test::Fail;
use std::thread;

// A number under no law.
#[derive(Drop)]
struct PortItem(u64);

impl Follows for PortItem {
    type Floor = ();

    ghost follows = { λ before floor item. Unit {0} };

    ghost no_floor = { tt };
}

// Puts an item; the number of what comes back, and 0 where it fits.
fn back_of<R: Wait>(rt: &R, input: &mut PortIn<PortItem>, number: u64) -> u64
    ensures port { IsSamePort input.old input.new }
{
    match input.put(rt, PortItem(number)) {
        Ok(()) => 0,
        Err(PortItem(back)) => back,
    }
}

// Takes an item; its number, and 0 where none waits.
fn taken<R: Wait>(rt: &R, output: &mut PortOut<PortItem>) -> u64 {
    match output.take(rt) {
        Some(PortItem(number)) => number,
        None => 0,
    }
}

// What comes back of two puts, how many items wait then, what two takes take, and what comes back
// of two puts where no taker is left.
fn one_place<R: Wait>(rt: &R, alloc: Global) -> Result<[u64; 7], Refusal> {
    let (mut input, mut output) = make::<PortItem>(alloc, 1, &())?;
    let fits = back_of(rt, &mut input, 7);
    let full = back_of(rt, &mut input, 8);
    let waiting = output.beside(&mut input);
    let first = taken(rt, &mut output);
    let none = taken(rt, &mut output);
    drop(output);
    let fits_still = back_of(rt, &mut input, 9);
    let full_still = back_of(rt, &mut input, 10);
    Ok([fits, full, waiting, first, none, fits_still, full_still])
}

#[test]
fn scenario_one_place_port(rt: HostRuntime) -> Result<(), Fail> {
    for places in [0, 1025] {
        if make::<PortItem>(rt.alloc(), places, &()).err() != Some(Refusal::BadPort) {
            return Err(Fail::from(places));
        }
    }
    assert!(rt; one_place(&rt, rt.alloc())? == [0, 8, 1, 7, 0, 0, 10]);
    Ok(())
}

// What comes back of three puts into two places where no taker is left.
fn two_places<R: Wait>(rt: &R, alloc: Global) -> Result<[u64; 3], Refusal> {
    let (mut input, output) = make::<PortItem>(alloc, 2, &())?;
    drop(output);
    let first = back_of(rt, &mut input, 7);
    let second = back_of(rt, &mut input, 8);
    Ok([first, second, back_of(rt, &mut input, 9)])
}

#[test]
fn a_port_without_a_taker_fills_up(rt: HostRuntime) -> Result<(), Fail> {
    assert!(rt; two_places(&rt, rt.alloc())? == [0, 0, 9]);
    Ok(())
}

// Puts 1 to 1,000 in order, each until it fits.
fn put_all<R: Wait>(rt: &R, mut input: PortIn<PortItem>) {
    for number in 1..1_001 {
        for _ in rt.forever() {
            if back_of(rt, &mut input, number) == 0 {
                break;
            }
            thread::yield_now();
        }
    }
}

// Takes all until the other end is gone: how many of them came in order from 1 on, each once.
fn count_all<R: Wait>(rt: &R, output: &mut PortOut<PortItem>) -> u64 {
    let mut count = 0u64;
    for _ in rt.forever() {
        let Some(PortItem(number)) = output.take_waiting(rt) else {
            break;
        };
        if number != count.saturating_add(1) {
            return 0;
        }
        count = number;
    }
    count
}

#[test]
fn a_thousand_items_come_in_order_through_one_place(rt: HostRuntime) -> Result<(), Fail> {
    let (input, mut output) = make::<PortItem>(rt.alloc(), 1, &())?;
    let child = thread::spawn(&rt, move || put_all(&rt, input))?;
    let count = count_all(&rt, &mut output);
    child.join(&rt);
    assert!(rt; count == 1_000);
    Ok(())
}
