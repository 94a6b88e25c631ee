//! Two threads make changes at one server, each by a seat.
ghost use Rattle.std.specs.Prelude.{◌≡◌, [], ◌∷◌, IfOk, IfErr, true};
ghost use Rattle.lq_board.specs.Author.{leader, with_roll};
ghost use Rattle.lq_board.specs.Token.{counted_board};
ghost use Rattle.lq_model.specs.Followed.{AreBothMade, AreBothGathered, IsPairRefused};

use crate::model::{Applied, Applies};
use lq_board::Seat;
use lq_server::{Base, Named, Retired, Server, join_over, two_seats_make_the_book};
use lq_server_slots::{Identity, books_extend_on};
use lq_value::Refusal;
use lq_volume::Change;
use std::sync::Wait;
use std::thread::Threads;

/// Makes two lists of changes at a new server, each by a seat and in a thread.
///
/// Then there is one book, whose changes are just the two lists mixed, each in its order. The
/// volume is the state after the book, from the base's volume on. Refused: `NoMemory`, or as a
/// change of one list is refused. That change was refused after a book of just the changes before
/// it, mixed with the first changes of the other list.
pub fn two_callers<N: Named + Send + Sync, R: Threads + Wait + Sync>(
    rt: &R,
    base: Base,
    first: &[Change],
    second: &[Change],
) -> Result<Retired, Refusal>
    requires { (N.board ≡ counted_board base.board) × (base.volume ≡ N.start) }
    ensures made { IfOk result (AreBothMade N.start first.now second.now) }
    ensures refused { IfErr result (IsPairRefused N.start first.now second.now) }
{
    let (server, mut head): (Server<N>, Seat<Identity>) = Server::counted(base);
    // Fewer than 15 seats were made for the leading seat, so neither is refused.
    let Ok(mut one) = server.seat_by(rt, &mut head) else {
        unreachable!()
    };
    let Ok(mut two) = server.seat_by(rt, &mut head) else {
        unreachable!()
    };
    server.enlist(&mut head, &mut one);
    server.enlist(&mut head, &mut two);
    let one = Applies {
        seat: one,
        changes: first,
    };
    let two = Applies {
        seat: two,
        changes: second,
    };
    let (one, two) = join_over(rt, &server, one, two);
    let Applied { seat: one, result } = one;
    let Applied {
        seat: two,
        result: other,
    } = two;
    let retired = retire_both(rt, server, head, one, two);
    // For the proof: the book is what both seats made.
    two_seats_make_the_book();
    result?;
    other?;
    Ok(retired)
}

// Ends the server by its leading seat, which has enlisted these two seats alone.
fn retire_both<N: Named, R: Wait>(
    rt: &R,
    server: Server<N>,
    mut head: Seat<Identity>,
    mut one: Seat<Identity>,
    mut two: Seat<Identity>,
) -> Retired
    requires head { (head.board ≡ N.board) × (head.slot ≡ 0) }
    requires boards { (one.board ≡ N.board) × (two.board ≡ N.board) }
    requires leads { head.author
        ≡ with_roll leader (two.author.number ∷ one.author.number ∷ []) [] }
    requires signs { (one.author.signs ≡ true) × (two.author.signs ≡ true) }
    ensures { AreBothGathered N.start one two result }
{
    // For the proof: books are met one after another.
    books_extend_on();
    server.meet(rt, &mut one, &mut head);
    server.meet(rt, &mut two, &mut head);
    server.dismiss(&mut head, &mut one);
    server.dismiss(&mut head, &mut two);
    server.retire(rt, head)
}
