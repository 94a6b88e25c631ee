//! The server: the state under its lock, and the board, which threads read without the lock. Here
//! are its beginning, its seats and its end.
ghost use Rattle.std.specs.Prelude.{◌≡◌, ◌≢◌, ◌+◌, ◌<◌, ◌≤◌, [], ◌∷◌, slice_index, IfOk, IfErr, OnOk, OnErr, true, false};
ghost use Rattle.lq_value.specs.declared.refusal.Refusal.TheVariants.{NoSeat};
ghost use Rattle.lq_volume.specs.Book.{Extends};
ghost use Rattle.lq_board.specs.Author.{AreDisjoint, HasHeard, IsWhole, author_heard, with_roll, with_signs};
ghost use Rattle.lq_board.specs.Roll.{IsMerged, without_number};
ghost use Rattle.lq_board.specs.Token.{counted_board};
ghost use Rattle.lq_server_slots.specs.Leading.{leading_seat};
ghost use Rattle.lq_server_slots.specs.Own.{StaysOwn};
ghost use Rattle.lq_server.specs.Retired.{IsRetired};

use lq_board::Board;
use lq_server_slots::{Base, Identity, Named, Seat, ServerState};
use lq_update::Mark;
use lq_value::Refusal;
use lq_volume::{Applied, Volume};
use std::marker::Model;
use std::sync::{Mutex, Wait};

/// The progress of a subscription: the number of changes so far, the updates that wait to be read,
/// those held before its port, and the mark if it has ended.
///
/// A waiting update is in the port, or was taken and isn't folded yet.
#[derive(Clone, Copy)]
pub struct Synced {
    pub change: u64,
    pub waiting: u64,
    pub held: u64,
    pub mark: Option<Mark>,
}

/// The answer to an accepted change, as a volume gives it: its number, and the node that it created
/// or named.
pub type Accepted = Applied;

/// What a server leaves at its end: its volume, and the number of its changes.
#[derive(Debug, Drop)]
pub struct Retired {
    pub volume: Volume,
    pub changes: u64,
}

/// A volume and its subscriptions under a lock, with the board beside it.
///
/// Threads share it by reference. Contracts see which board it has: the one that N names.
///
/// ```rattle
/// use lq_server::{Base, Named, Server};
/// use lq_value::{Kind, Name, Refusal};
/// use lq_volume::{Change, Volume};
/// use std::marker::Brand;
/// use std::sync::Wait;
///
/// fn serve<N: Named, R: Wait>(rt: &R, base: Base, change: &Change) -> Result<u64, Refusal>
///     requires { (base.board ≡ N.board) × (base.volume ≡ N.start) }
/// {
///     let server: Server<N> = Server::new(base);
///     let mut seat = server.seat(rt)?;
///     server.apply(rt, &mut seat, change)?;
///     Ok(server.retire(rt, seat).changes)
/// }
///
/// let name = Name::read(alloc, "notes.txt")?;
/// let create = Change::Create { dir: 1, name, kind: Kind::File, size: 200, time: 0 };
/// let base = Base::new(alloc, Volume::new(alloc, 1000))?;
/// assert!(rt; serve::<Brand, _>(&rt, base, &create)? == 1);
/// ```
pub struct Server<N: Named> {
    pub(crate) state: Mutex<ServerState<N>>,
    pub(crate) board: Board<Identity>,
}

impl<N: Named> Drop for Server<N> {
    fn drop(self) {
        let Server { state: _, board: _ } = self;
    }
}

impl<N: Named> Model for Server<N> {
    ghost use Rattle.std.specs.Prelude.{◌≡◌};
    ghost use Rattle.lq_board.specs.Token.{BoardName};

    ghost Value = { BoardName };

    ghost view = { λ s. s.board };

    ghost invariant = { λ s. s.board ≡ N.board };
}

impl<N: Named> Server<N> {
    /// A server over a base, each seat of which may make changes. N names the board of the base and
    /// its volume.
    ///
    /// Contracts alone use N. The caller picks an N that names this base's board and volume: there
    /// is one for each base.
    pub fn new(base: Base) -> Server<N>
        requires { (base.board ≡ N.board) × (base.volume ≡ N.start) }
        ensures free { N.board.free ≡ true }
    {
        let (board, locked) = base.into_parts();
        let state = Mutex::new(locked);
        Server { state, board }
    }

    /// A counted server over a base, and its leading seat, one of the 16. Another seat may make
    /// changes just while the leading seat has it enlisted.
    ///
    /// So all changes are answers to the calls by enlisted seats (`calls_make_the_book`), once the
    /// leading seat has dismissed them and is the one that `retire` takes: it has then gathered the
    /// numbers of all changes, each once. N names the counted board of the base, and its volume.
    pub fn counted(base: Base) -> (Server<N>, Seat)
        requires { (N.board ≡ counted_board base.board) × (base.volume ≡ N.start) }
        ensures head { result.1 ≡ leading_seat N.board N.start }
    {
        let (board, locked, head) = base.into_counted();
        let state = Mutex::new(locked);
        (Server { state, board }, head)
    }

    /// The leading seat enlists another, which made no change and may make changes from then on.
    ///
    /// The other may be a reader's seat. It is for contracts alone: it takes no lock and no memory.
    pub fn enlist(&self, head: &mut Seat, other: &mut Seat)
        requires boards { (head.old.board ≡ N.board) × (other.old.board ≡ N.board) }
        requires slot { head.old.slot ≡ 0 }
        requires leads { head.old.author.leads ≡ true }
        requires fresh { other.old.author.changes ≡ [] }
        ensures head { head.new ≡ record head.old {
          author = with_roll head.old.author
              (other.old.author.number ∷ head.old.author.enlisted) head.old.author.gathered;
        } }
        ensures other { other.new ≡ record other.old {
          author = with_signs other.old.author true;
        } }
        ensures own { StaysOwn other.old other.new }
    {
        self.board.enlist(head, other);
    }

    /// The leading seat gathers the changes of an enlisted seat, which may then make no more.
    ///
    /// The other may be a reader's seat. It is for contracts alone: it takes no lock and no memory.
    pub fn dismiss(&self, head: &mut Seat, other: &mut Seat)
        requires boards { (head.old.board ≡ N.board) × (other.old.board ≡ N.board) }
        requires slot { head.old.slot ≡ 0 }
        requires leads { head.old.author.leads ≡ true }
        requires signs { other.old.author.signs ≡ true }
        ensures merged { IsMerged head.old.author.gathered other.old.author.changes
            head.new.author.gathered }
        ensures head { head.new ≡ record head.old {
          author = with_roll head.old.author
              (without_number other.old.author.number head.old.author.enlisted)
              head.new.author.gathered;
        } }
        ensures other { other.new ≡ record other.old {
          author = with_signs other.old.author false;
        } }
        ensures own { StaysOwn other.old other.new }
    {
        self.board.dismiss(head, other);
    }

    /// A seat of no slot, which made no change and may make changes. Its book begins with the
    /// volume of the base.
    ///
    /// The server is one made by `new`: a counted one gives seats by `seat_by`. The seat knows the
    /// changes so far, but no clause of this call says so. Refused: `NoSeat`, just where 16 seats
    /// are out: a clause of the call under the lock says so, since this call is given no seat that
    /// could know it. A dropped seat still counts as out. It takes no memory.
    pub fn seat<R: Wait>(&self, rt: &R) -> Result<Seat, Refusal>
        requires uncounted { N.board.free ≡ true }
        ensures seat { IfOk result (λ seat. (seat.board ≡ N.board) × (seat.slot ≡ 0)) }
        ensures author { IfOk result (λ seat. seat.author.changes ≡ []) }
        ensures signs { IfOk result (λ seat. seat.author.signs ≡ N.board.free) }
        ensures start { IfOk result (λ seat. seat.book.start ≡ N.start) }
        ensures refused { IfErr result (λ e. e ≡ NoSeat) }
    {
        self.state.lock(rt).seat(&self.board)
    }

    /// As `seat`, made for the leading seat of a counted server, which counts it (`seats`). Given
    /// or refused, that seat then knows the changes so far. The new seat may make changes once it
    /// is enlisted.
    ///
    /// Where it is refused, at least 15 seats were made for the leading seat.
    pub fn seat_by<R: Wait>(&self, rt: &R, head: &mut Seat) -> Result<Seat, Refusal>
        requires board { head.old.board ≡ N.board }
        requires slot { head.old.slot ≡ 0 }
        requires leads { head.old.author.leads ≡ true }
        ensures seat { IfOk result (λ seat. (seat.board ≡ N.board) × (seat.slot ≡ 0)) }
        ensures author { IfOk result (λ seat. seat.author.changes ≡ []) }
        ensures signs { IfOk result (λ seat. seat.author.signs ≡ N.board.free) }
        ensures counts { IfOk result (λ seat. (seat.seats ≡ 0) × (seat.openings ≡ 0)) }
        ensures start { IfOk result (λ seat. seat.book.start ≡ N.start) }
        ensures refused { IfErr result (λ e. e ≡ NoSeat) }
        ensures head { head.new ≡ record head.old {
          book = head.new.book;
          seats = head.new.seats;
        } }
        ensures given { OnOk result (head.new.seats ≡ head.old.seats + 1) }
        ensures none { OnErr result (head.new.seats ≡ head.old.seats) }
        ensures few { OnErr result (15 ≤ head.old.seats) }
        ensures later { Extends head.new.book head.old.book }
    {
        self.state.lock(rt).seat_by(&self.board, head)
    }

    /// Takes a seat back. It takes no memory. That another can then be given out is a clause of the
    /// call under the lock.
    pub fn give_back<R: Wait>(&self, rt: &R, seat: Seat)
        requires { (seat.board ≡ N.board) × (seat.slot ≡ 0) }
    {
        self.state.lock(rt).give_back(&self.board, seat);
    }

    /// Compares two seats, for contracts alone: they share no change. The second may be a reader's.
    ///
    /// It leaves both as they were, and neither waits nor takes memory.
    pub fn compare(&self, one: &mut Seat, two: &mut Seat)
        requires boards { (one.old.board ≡ N.board) × (two.old.board ≡ N.board) }
        requires slot { one.old.slot ≡ 0 }
        ensures numbers { one.new.author.number ≢ two.new.author.number }
        ensures changes { AreDisjoint one.new.author.changes two.new.author.changes }
        ensures one { one.new ≡ one.old }
        ensures two { two.new ≡ two.old }
    {
        self.board.compare(one, two);
    }

    /// A seat of no slot hears how often a reader's seat has asked, and of all requests that the
    /// other seat has heard of. For contracts alone.
    ///
    /// A change that the first seat then makes comes after the end of each subscription whose
    /// request it has heard of. It neither waits nor takes memory.
    pub fn hear_of(&self, one: &mut Seat, two: &mut Seat)
        requires boards { (one.old.board ≡ N.board) × (two.old.board ≡ N.board) }
        requires slot { one.old.slot ≡ 0 }
        ensures one { one.new ≡ record one.old {
          author = author_heard one.old.author one.new.author.heard;
        } }
        ensures two { two.new ≡ two.old }
        ensures more { HasHeard one.new.author.heard one.old.author.heard }
        ensures heard { HasHeard one.new.author.heard two.old.author.heard }
        ensures asks { 0 < two.old.slot
            → two.old.asks ≤ slice_index one.new.author.heard two.old.slot }
    {
        self.board.hear_of(one, two);
    }

    /// The volume and the number of its changes, at the end of the server.
    ///
    /// They are those of one book, which begins with the volume of the server's base. Where the
    /// seat leads and none is enlisted, it has gathered the numbers of all changes, each once.
    /// Messages still held are dropped, as the code says. It takes no memory.
    pub fn retire<R: Wait>(self, rt: &R, seat: Seat) -> Retired
        requires board { seat.board ≡ N.board }
        ensures retired { IsRetired N.start seat.book result.volume result.changes }
        ensures whole { IsWhole seat.author result.changes }
    {
        let _ = rt;
        let Server { state, board } = self;
        let (keeper, volume) = state.into_inner().into_parts();
        let changes = board.close_with(keeper, seat);
        Retired { volume, changes }
    }
}
