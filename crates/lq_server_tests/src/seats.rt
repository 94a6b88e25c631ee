//! A counted server: its leading seat is one of the 16, and it counts the changes of a reader's
//! seat.
ghost use Rattle.std.specs.Prelude.{◌≡◌};
ghost use Rattle.lq_board.specs.Token.{counted_board};

use crate::acts::file;
use crate::reference::LIMIT;
use crate::scenario::base;
use lq_predicate::read;
use lq_server::{Base, Named, Seat, Server};
use lq_value::{Name, Refusal};
use std::alloc::Global;
use std::marker::Brand;
use std::sync::Wait;
use std::test::Fail;

/// The number of changes at the end of a counted server, one of which a reader's seat makes.
fn counted<N: Named, R: Wait>(rt: &R, alloc: Global, base: Base) -> Result<u64, Refusal>
    requires { (N.board ≡ counted_board base.board) × (base.volume ≡ N.start) }
{
    let (server, mut head): (Server<N>, Seat) = Server::counted(base);
    let predicate = read(alloc, "name=*")?;
    let mut reader = server.open(rt, &mut head, &predicate, 4, 8, false)?;
    server.enlist(&mut head, reader.seat());
    server.apply(rt, reader.seat(), &file(Name::read(alloc, "a")?))?;
    server.dismiss(&mut head, reader.seat());
    Ok(server.retire(rt, head).changes)
}

#[test]
fn a_counted_server_counts_a_readers_seat(rt: HostRuntime) -> Result<(), Fail> {
    let base = base(rt.alloc(), LIMIT)?;
    assert!(rt; counted::<Brand, _>(&rt, rt.alloc(), base)? == 1);
    Ok(())
}

/// Whether 15 seats are given beside the leading one, no other, and one in place of one that came
/// back. A dropped seat stays out.
fn seats_beside_a_leading_one<N: Named, R: Wait>(rt: &R, base: Base) -> Result<bool, Refusal>
    requires { (N.board ≡ counted_board base.board) × (base.volume ≡ N.start) }
{
    let (server, mut head): (Server<N>, Seat) = Server::counted(base);
    let other = server.seat_by(rt, &mut head)?;
    for _ in 0..14 {
        server.seat_by(rt, &mut head)?;
    }
    let Err(Refusal::NoSeat) = server.seat_by(rt, &mut head) else {
        return Ok(false);
    };
    server.give_back(rt, other);
    server.seat_by(rt, &mut head)?;
    Ok(server.seat_by(rt, &mut head).err() == Some(Refusal::NoSeat))
}

#[test]
fn a_leading_seat_is_one_of_the_16(rt: HostRuntime) -> Result<(), Fail> {
    let base = base(rt.alloc(), LIMIT)?;
    assert!(rt; seats_beside_a_leading_one::<Brand, _>(&rt, base)?);
    Ok(())
}
