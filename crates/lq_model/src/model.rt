//! A server from its beginning to its end: one thread makes changes, another reads the updates.
ghost use Rattle.std.specs.Prelude.{◌≡◌, [], ◌∷◌, IfOk, IfErr, OnOk, true};
ghost use Rattle.lq_value.specs.Refusal.{FailsOnlyForMemory};
ghost use Rattle.lq_board.specs.Author.{leader, with_roll};
ghost use Rattle.lq_board.specs.Roll.{numbers};
ghost use Rattle.lq_board.specs.Token.{counted_board};
ghost use Rattle.lq_server_slots.specs.Own.{IsOwn};
ghost use Rattle.lq_server.specs.Retired.{IsRetired};
ghost use Rattle.lq_model.specs.Followed.{AreRefused, HasHungUp, HasApplied, HasStopped, IsFollowRefused, IsFollowed};

use lq_board::Seat;
use lq_desk_sub::Read;
use lq_predicate::Predicate;
use lq_server::{Base, Callers, Named, Reader, Retired, Server, Synced, Work, join_over};
use lq_server_slots::{Identity, books_extend_on, states_stay};
use lq_update::updates_stay;
use lq_value::Refusal;
use lq_volume::Change;
use std::sync::Wait;
use std::thread::Threads;

/// What is left after a query was followed: its reader, its progress, and what the server left.
#[derive(Drop)]
pub struct Followed {
    pub reader: Reader,
    pub synced: Synced,
    pub retired: Retired,
}

/// Makes changes at a new server in one thread, and reads a query's updates in another.
///
/// The reader makes `reads` reads, hangs up, and reads on to its mark. Then there is one book of
/// changes, which are just the changes given, in their order. The reader opened its query before
/// the first of them. It has received the query's whole update list over the book up to the mark.
/// Its entries are the query's result after the mark's change. The volume is the state after the
/// book, from the base's volume on. Refused: `Exhausted` where that volume takes no changes,
/// `NoMemory`, or as one of the changes is refused after just those before it.
pub fn follow<N: Named + Send + Sync, R: Threads + Wait + Sync>(
    rt: &R,
    base: Base,
    predicate: &Predicate,
    changes: &[Change],
    reads: u64,
) -> Result<Followed, Refusal>
    requires { (N.board ≡ counted_board base.board) × (base.volume ≡ N.start) }
    ensures followed { IfOk result (IsFollowed N.start predicate.now changes.now) }
    ensures refused { IfErr result (IsFollowRefused N.start changes.now) }
{
    let (server, callers): (Server<N>, Callers) = Server::counted_with_reader(
        base, predicate, 16, 1024, false,
    )?;
    let Callers {
        mut head,
        mut seat,
        reader,
    } = callers;
    server.enlist(&mut head, &mut seat);
    let reads = Reads { reader, reads };
    let (reader, applied) = join_over(rt, &server, reads, Applies { seat, changes });
    let mut reader = reader?;
    let Applied { mut seat, result } = applied;
    if let Err(refusal) = result {
        gather(rt, &server, &mut head, &mut seat, changes, refusal);
        return Err(refusal);
    }
    updates_stay();
    books_extend_on();
    states_stay();
    let synced = server.sync(rt, &mut reader);
    reader.headline();
    server.meet(rt, &mut seat, &mut head);
    server.meet(rt, reader.seat(), &mut head);
    Ok(leave(rt, server, reader, head, seat, synced))
}

// Ends the server by its leading seat, which has met the reader's and has enlisted this one alone,
// and answers what is left.
fn leave<N: Named, R: Wait>(
    rt: &R,
    server: Server<N>,
    reader: Reader,
    mut head: Seat<Identity>,
    mut seat: Seat<Identity>,
    synced: Synced,
) -> Followed
    requires boards { (head.board ≡ N.board) × (seat.board ≡ N.board) }
    requires slot { head.slot ≡ 0 }
    requires leads { head.author ≡ with_roll leader (seat.author.number ∷ []) [] }
    requires signs { seat.author.signs ≡ true }
    requires met { head.book ≡ reader.seat.book }
    ensures left { result
        ≡ record { reader = reader; synced = synced; retired = result.retired } }
    ensures retired { IsRetired N.start reader.seat.book
        result.retired.volume result.retired.changes }
    ensures all { seat.author.changes ≡ numbers result.retired.changes }
{
    server.dismiss(&mut head, &mut seat);
    let retired = server.retire(rt, head);
    Followed {
        reader,
        synced,
        retired,
    }
}

// For the proof: the leading seat gathers the changes of the one seat that it has enlisted, and
// they are all changes. So a change was refused after just those before it.
fn gather<N: Named, R: Wait>(
    rt: &R,
    server: &Server<N>,
    head: &mut Seat<Identity>,
    seat: &mut Seat<Identity>,
    changes: &[Change],
    refusal: Refusal,
)
    requires boards { (head.old.board ≡ N.board) × (seat.old.board ≡ N.board) }
    requires slot { head.old.slot ≡ 0 }
    requires leads { head.old.author ≡ with_roll leader (seat.old.author.number ∷ []) [] }
    requires signs { seat.old.author.signs ≡ true }
    requires stopped { HasStopped seat.old N.start changes.now refusal }
    ensures { AreRefused N.start changes.now refusal }
{
    // For the contract alone, which says what the changes were, and how one was refused.
    let _ = changes;
    let _ = refusal;
    server.meet(rt, seat, head);
    server.dismiss(head, seat);
    server.latest(head);
}

// What is left of a work that makes changes: its seat, and why a change was refused.
#[derive(Drop)]
pub(crate) struct Applied {
    pub(crate) seat: Seat<Identity>,
    pub(crate) result: Result<(), Refusal>,
}

// The work of one thread: it makes changes.
#[derive(Drop)]
pub(crate) struct Applies<'a> {
    pub(crate) seat: Seat<Identity>,
    pub(crate) changes: &'a [Change],
}

impl<'a> Work for Applies<'a> {
    type Given = Applied;

    ghost can = { λ applies board. (applies.seat.board ≡ board) × (applies.seat.slot ≡ 0)
        × (applies.seat.author.signs ≡ true) };

    ghost gives = { λ applies board given.
        (given.seat.board ≡ board) × (given.seat.slot ≡ 0)
        × HasApplied applies.seat given.seat applies.changes.now given.result };

    fn work<N: Named, R: Wait>(self, rt: &R, server: &Server<N>) -> Applied {
        let Applies { mut seat, changes } = self;
        let result = apply_all(rt, server, &mut seat, changes);
        Applied { seat, result }
    }
}

// The work of the other thread: it makes `reads` reads, and then reads on to its mark.
#[derive(Drop)]
struct Reads {
    reader: Reader,
    reads: u64,
}

impl Work for Reads {
    type Given = Result<Reader, Refusal>;

    ghost can = { λ reads board. (reads.reader.seat.board ≡ board) × IsOwn reads.reader };

    ghost gives = { λ reads _ given. IfOk given (HasHungUp reads.reader)
        × FailsOnlyForMemory given };

    fn work<N: Named, R: Wait>(self, rt: &R, server: &Server<N>) -> Result<Reader, Refusal> {
        let Reads { reader, reads } = self;
        read_out(rt, server, reader, reads)
    }
}

// Makes changes until one is refused.
fn apply_all<N: Named, R: Wait>(
    rt: &R,
    server: &Server<N>,
    seat: &mut Seat<Identity>,
    changes: &[Change],
) -> Result<(), Refusal>
    requires { (seat.old.board ≡ N.board) × (seat.old.slot ≡ 0) × (seat.old.author.signs ≡ true) }
    ensures board { (seat.new.board ≡ N.board) × (seat.new.slot ≡ 0) }
    ensures applied { HasApplied seat.old seat.new changes.now result }
{
    for change in changes {
        server.apply(rt, seat, change)?;
    }
    Ok(())
}

// Makes `reads` reads, then hangs up so that the mark comes, and reads on to the mark.
fn read_out<N: Named, R: Wait>(
    rt: &R,
    server: &Server<N>,
    mut reader: Reader,
    reads: u64,
) -> Result<Reader, Refusal>
    requires { (reader.seat.board ≡ N.board) × IsOwn reader }
    ensures ok { IfOk result (HasHungUp reader) }
    ensures refused { FailsOnlyForMemory result }
{
    for _ in 0..reads {
        reader.read(rt)?;
    }
    reader.hang_up(server);
    for _ in rt.forever() {
        if let Read::Fin(_) | Read::Ended = reader.read_waiting(rt, server)? {
            return Ok(reader);
        }
    }
    unreachable!()
}
