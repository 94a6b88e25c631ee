//! Reads that wait, and works in threads.
ghost use Rattle.std.specs.Prelude.{◌≡◌, true};

use crate::more_threads::WAITED;
use crate::reference::LIMIT;
use crate::scenario::{base, play};
use lq_server::{Base, Named, Server, Work, map_over};
use lq_value::Refusal;
use std::alloc::Global;
use std::marker::Brand;
use std::sync::Wait;
use std::test::Fail;
use std::thread::Threads;

/// A look at the server: its own number and the number of changes.
#[derive(Drop)]
struct Looks {
    number: u64,
}

impl Work for Looks {
    type Given = Result<(u64, u64), Refusal>;

    ghost can = { λ _ board. board.free ≡ true };

    ghost gives = { λ _ _ _. Unit {0} };

    fn work<N: Named, R: Wait>(self, rt: &R, server: &Server<N>) -> Result<(u64, u64), Refusal> {
        let mut seat = server.seat(rt)?;
        Ok((self.number, server.latest(&mut seat)))
    }
}

/// The answers of three looks at a server without changes.
fn look_thrice<N: Named + Send + Sync, R: Threads + Wait + Sync>(
    rt: &R,
    alloc: Global,
    base: Base,
) -> Result<Vec<Result<(u64, u64), Refusal>>, Refusal>
    requires { (base.board ≡ N.board) × (base.volume ≡ N.start) }
{
    let server: Server<N> = Server::new(base);
    let works = [1, 2, 3].map(|number| Looks { number });
    map_over(rt, &server, Vec::from_array(alloc, works)?)
}

#[test]
fn a_read_waits_for_the_next_change(rt: HostRuntime) -> Result<(), Fail> {
    assert!(rt; play(&rt, rt.alloc(), LIMIT, 1, 0, &WAITED)?.is_right(rt.alloc())?);
    Ok(())
}

#[test]
fn works_are_answered_in_order(rt: HostRuntime) -> Result<(), Fail> {
    let base = base(rt.alloc(), LIMIT)?;
    let given = look_thrice::<Brand, _>(&rt, rt.alloc(), base)?;
    assert!(rt; given.len() == 3);
    for (place, one) in given.into_iter().enumerate() {
        assert!(rt; one? == (place as u64 + 1, 0));
    }
    Ok(())
}
