//! A board at work: its words, and a counted board.
ghost use Rattle.std.specs.Prelude.{IfOk};
ghost use Rattle.lq_volume.specs.Change.{IsLawful};

use lq_board::{Board, Keeper, Seat};
use lq_value::{Kind, Name, Refusal};
use lq_volume::{Change, Volume};
use std::alloc::Global;
use std::test::Fail;

/// A file that the volume takes.
pub fn lawful_file(alloc: Global, volume: &Volume, name: &str) -> Result<Change, Refusal>
    ensures { IfOk result (λ change. IsLawful volume.now change) }
{
    let create = Change::Create {
        dir: 1,
        name: Name::read(alloc, name)?,
        kind: Kind::File,
        size: 7,
        time: 5,
    };
    volume.check(&create)?;
    Ok(create)
}

// What the words of a board answer where a change is added: `latest` of one seat before it and
// after it, then each other word, and the number at the end.
fn words(alloc: Global) -> Result<[u64; 7], Refusal> {
    let volume = Volume::new(alloc, 9);
    let create = lawful_file(alloc, &volume, "a")?;
    let (board, mut keeper): (Board<u64>, Keeper<u64>) = Board::new(alloc, &volume)?;
    let mut seat = board.seat(&mut keeper);
    let mut reader = board.slot_seat(&mut keeper, 1);
    let before = board.latest(&mut seat);
    let added = board.add(&mut keeper, &create);
    let after = board.latest(&mut seat);
    board.ask(&mut reader);
    let asks = board.asks(&mut keeper, 1);
    let met = board.meet(&mut keeper, &mut seat);
    board.record_moment(&mut keeper, &mut seat);
    let met_slot = board.meet_slot(&mut keeper, &mut reader);
    board.join(&mut keeper, reader);
    let closed = board.close_with(keeper, seat);
    Ok([before, added, after, asks, met, met_slot, closed])
}

// A `latest` that answers what its seat knew before meets its contract, but not this.
#[test]
fn scenario_board_words(rt: HostRuntime) -> Result<(), Fail> {
    assert!(rt; words(rt.alloc())? == [0, 1, 1, 1, 1, 1, 1]);
    Ok(())
}

// The number of a change by an enlisted seat of a slot, at a counted board, and the number at its
// end, by its leading seat.
fn counted(alloc: Global) -> Result<[u64; 2], Refusal> {
    let volume = Volume::new(alloc, 9);
    let create = lawful_file(alloc, &volume, "a")?;
    let (mut board, mut keeper): (Board<u64>, Keeper<u64>) = Board::new(alloc, &volume)?;
    let mut head: Seat<u64> = board.lead(&mut keeper);
    let mut one = board.slot_seat_by(&mut keeper, &mut head, 1);
    let other = board.seat_by(&mut keeper, &mut head);
    board.join(&mut keeper, other);
    board.enlist(&mut head, &mut one);
    let added = board.add_by(&mut keeper, &mut one, &create);
    board.dismiss(&mut head, &mut one);
    board.compare(&mut head, &mut one);
    board.join(&mut keeper, one);
    Ok([added, board.close_with(keeper, head)])
}

#[test]
fn a_counted_board_counts_an_enlisted_seat(rt: HostRuntime) -> Result<(), Fail> {
    assert!(rt; counted(rt.alloc())? == [1, 1]);
    Ok(())
}
