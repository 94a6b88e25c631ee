//! Threads over one server.
ghost use Rattle.std.specs.Prelude.{◌≡◌, All, IfOk};
ghost use Rattle.lq_value.specs.Refusal.{FailsOnlyForMemory};
ghost use Rattle.lq_server.specs.Works.{AllGive};

use crate::laws::servers_may_be_shared;
use crate::server::Server;
use lq_server_slots::Named;
use lq_value::Refusal;
use std::sync::Wait;
use std::thread::{Threads, join, map_vec};

/// The work of a thread at a server that it shares with others.
///
/// `can` is what the work requires of the server's board, and `gives` what then holds for its
/// answer.
pub trait Work {
    ghost use Rattle.lq_board.specs.Token.{BoardName};

    type Given;

    ghost can: { Self → BoardName → Type 0 };

    ghost gives: { Self → BoardName → Self.Given → Type 0 };

    /// Does the work at this server.
    fn work<N: Named, R: Wait>(self, rt: &R, server: &Server<N>) -> Self::Given
        requires { can self N.board }
        ensures { gives self N.board result };
}

/// The answers of two works at one server.
///
/// Both are done when the call returns. By std's `join`, not by a clause, the second runs in this
/// thread, and the first in one of its own, or last where none can be made: if the second waits for
/// it, it waits for ever then. It takes no memory.
pub fn join_over<
    N: Named + Send + Sync,
    R: Threads + Wait + Sync,
    F: Work<Given: Send> + Send + Drop,
    G: Work + Drop,
>(rt: &R, server: &Server<N>, first: F, second: G) -> (F::Given, G::Given)
    requires first { F.can first N.board }
    requires second { G.can second N.board }
    ensures first { F.gives first N.board result.0 }
    ensures second { G.gives second N.board result.1 }
{
    servers_may_be_shared::<N>();
    join(rt, || first.work(rt, server), || second.work(rt, server))
}

/// The answers of a list of works at one server, in order.
///
/// By std's `map_vec`, not by a clause, each work has a thread of its own where one can be made.
/// Where memory for a thread is refused, works share one: a work that waits for another of the list
/// may then wait for ever. Refused: `NoMemory`; some works may then have been dropped undone, also
/// those that others wait for, and the results are dropped.
pub fn map_over<
    N: Named + Send + Sync,
    R: Threads + Wait + Sync,
    W: Work<Given: Send + Drop> + Send + Drop,
>(rt: &R, server: &Server<N>, works: Vec<W>) -> Result<Vec<W::Given>, Refusal>
    requires { All (λ w. W.can w N.board) works.items }
    ensures each { IfOk result (λ v.
        AllGive (λ w x. W.gives w N.board x) works.items v.items) }
    ensures refused { FailsOnlyForMemory result }
{
    servers_may_be_shared::<N>();
    Ok(map_vec(rt, works, &|work: W| work.work(rt, server))?)
}
