//! Calls of a server on its subscriptions: each is opened, synced, closed and finished here.
ghost use Rattle.std.specs.Prelude.{◌≡◌, ◌+◌, ◌-◌, ◌<◌, ◌^◌, [], IfOk, IfErr, IfSome, IfNone, OnOk, OnErr, Err, is_some, true, false};
ghost use Rattle.lq_value.specs.declared.refusal.Refusal.TheVariants.{StillOpen};
ghost use Rattle.lq_value.specs.Refusal.{IsRefusedBy};
ghost use Rattle.lq_volume.specs.Book.{Extends};
ghost use Rattle.lq_update.specs.Options.{no_values};
ghost use Rattle.lq_board.specs.Token.{MayOpen, counted_board};
ghost use Rattle.lq_server_slots.specs.Reading.{is_marked};
ghost use Rattle.lq_server_slots.specs.Opening.{IsOpeningRefused, size_refusal};
ghost use Rattle.lq_server.specs.declared.server.Synced.{Synced as SyncedOf};
ghost use Rattle.lq_server_slots.specs.declared.slots.ServerSlots.{ServerSlots as SlotsOf};
ghost use Rattle.lq_server.specs.Closed.{IsCloseAnswer};
ghost use Rattle.lq_server.specs.Counted.{leading_callers};
ghost use Rattle.lq_server_slots.specs.Leading.{leading_seat};
ghost use Rattle.lq_server.specs.Opened.{IsAnsweredOver, IsNewReader, first_opening_refusal};
ghost use Rattle.lq_server_slots.specs.Own.{IsOwn, StaysOwn};
ghost use Rattle.lq_server.specs.Syncing.{IsSynced, bit, is_mark_in_port};

use crate::reader::Reader;
use crate::server::{Server, Synced};
use lq_predicate::Predicate;
use lq_server_slots::{Base, Named, Progress, Reading, Seat};
use lq_update::OpenOptions;
use lq_value::Refusal;
use std::sync::{Mutex, Wait};

/// What the callers of a counted server begin with: its leading seat, another seat and a reader.
#[derive(Drop)]
pub struct Callers {
    pub head: Seat,
    pub seat: Seat,
    pub reader: Reader,
}

impl<N: Named> Server<N> {
    /// As `counted`, with a seat besides (both are of the 16, as the code says), and with the
    /// reader of a live query. Both are made for the leading seat, which counts them.
    ///
    /// The numbers are as in `open`. No other caller has the server yet, so no other seat and no
    /// slot is taken. Refused, the first that fits: `BadPort`, `BadBacklog`, `Exhausted` where the
    /// volume takes no changes, `NoMemory`.
    pub fn counted_with_reader(
        base: Base,
        predicate: &Predicate,
        port: u64,
        backlog: u64,
        moved: bool,
    ) -> Result<(Server<N>, Callers), Refusal>
        requires { (N.board ≡ counted_board base.board) × (base.volume ≡ N.start) }
        ensures head { IfOk result (λ r.
            r.1.head ≡ leading_callers N.board N.start r.1.head.moments) }
        ensures seat { IfOk result (λ r. (r.1.seat.board ≡ N.board) × (r.1.seat.slot ≡ 0)) }
        ensures author { IfOk result (λ r. r.1.seat.author.changes ≡ []) }
        ensures signs { IfOk result (λ r. r.1.seat.author.signs ≡ false) }
        ensures start { IfOk result (λ r. r.1.seat.book.start ≡ N.start) }
        ensures opened { IfOk result (λ r.
            IsNewReader r.1.reader N.board (leading_seat N.board N.start).book predicate.now
            (no_values moved) port backlog) }
        ensures refused { IsRefusedBy result (first_opening_refusal N.start port backlog) }
    {
        let (board, mut locked, mut head) = base.into_counted();
        // The leading seat alone is out, so this one isn't refused.
        let Ok(seat) = locked.seat_by(&board, &mut head) else {
            unreachable!()
        };
        let options = OpenOptions::without_values(port, backlog, moved);
        let opened = locked.open(&board, &mut head, predicate, &options)?;
        let reader = Reader {
            reading: opened.reading,
            seat: opened.seat,
            slot: opened.slot,
            hang_up_asked: false,
        };
        let state = Mutex::new(locked);
        Ok((Server { state, board }, Callers { head, seat, reader }))
    }

    /// Opens a live query in the lowest free slot.
    ///
    /// The port has `port` places, 1 to 1,024. At most `backlog` messages are held before it, up to
    /// 65,536. With `moved`, one message reports a move of an entry that matches before and after
    /// it. Messages of values are for `open_by` to ask for. The seat has to be one that may make
    /// changes, or leads. It counts the reader (`openings`), then knows the book that the reader
    /// begins with, and has recorded which slots were out and how many openings there were. Refused
    /// by what it has recorded, the first that fits: `BadPort`, `BadBacklog`, `NoSlot` where 64 are
    /// taken, `Exhausted` where the openings have reached the limit on changes, `NoMemory`.
    pub fn open<R: Wait>(
        &self,
        rt: &R,
        seat: &mut Seat,
        predicate: &Predicate,
        port: u64,
        backlog: u64,
        moved: bool,
    ) -> Result<Reader, Refusal>
        requires board { seat.old.board ≡ N.board }
        requires may { MayOpen seat.old }
        ensures seat { seat.new ≡ record seat.old {
          book = seat.new.book;
          moments = seat.new.moments;
          openings = seat.new.openings;
        } }
        ensures made { OnOk result (seat.new.openings ≡ seat.old.openings + 1) }
        ensures none { OnErr result (seat.new.openings ≡ seat.old.openings) }
        ensures own { StaysOwn seat.old seat.new }
        ensures later { Extends seat.new.book seat.old.book }
        ensures opened { IfOk result (λ r.
            IsNewReader r N.board seat.new.book predicate.now (no_values moved) port backlog) }
        ensures refused { IfSome (size_refusal port backlog) (λ e. result ≡ Err e) }
        ensures others { IfNone (size_refusal port backlog) (IfErr result IsOpeningRefused) }

        // The first that fits and no other, by the slots that stood under the lock in this call:
        // the seat has recorded their keeper, also where it is refused.
        ensures table { (under : SlotsOf)
            × IsAnsweredOver under N.start seat.old seat.new port backlog result }
    {
        let options = OpenOptions::without_values(port, backlog, moved);
        self.open_by(rt, seat, predicate, &options)
    }

    /// Opens a live query with these options in the lowest free slot: as `open`, and with
    /// `options.flags.values` also with messages of values.
    pub fn open_by<R: Wait>(
        &self,
        rt: &R,
        seat: &mut Seat,
        predicate: &Predicate,
        options: &OpenOptions,
    ) -> Result<Reader, Refusal>
        requires board { seat.old.board ≡ N.board }
        requires may { MayOpen seat.old }
        ensures seat { seat.new ≡ record seat.old {
          book = seat.new.book;
          moments = seat.new.moments;
          openings = seat.new.openings;
        } }
        ensures made { OnOk result (seat.new.openings ≡ seat.old.openings + 1) }
        ensures none { OnErr result (seat.new.openings ≡ seat.old.openings) }
        ensures own { StaysOwn seat.old seat.new }
        ensures later { Extends seat.new.book seat.old.book }
        ensures opened { IfOk result (λ r. IsNewReader r N.board seat.new.book predicate.now
            options.now.flags options.now.port options.now.backlog) }
        ensures refused { IfSome (size_refusal options.now.port options.now.backlog) (λ e.
            result ≡ Err e) }
        ensures others { IfNone (size_refusal options.now.port options.now.backlog)
            (IfErr result IsOpeningRefused) }
        ensures table { (under : SlotsOf) × IsAnsweredOver under N.start seat.old seat.new
            options.now.port options.now.backlog result }
    {
        let opened = self
            .state
            .lock(rt)
            .open(&self.board, seat, predicate, options)?;
        Ok(Reader {
            reading: opened.reading,
            seat: opened.seat,
            slot: opened.slot,
            hang_up_asked: false,
        })
    }

    /// The progress of the reader's subscription, over the book that the reader's seat then knows.
    ///
    /// First the subscription ends where its reader asked for that, and then its port is filled.
    /// What the reader has received and knows stays. It takes no memory.
    pub fn sync<R: Wait>(&self, rt: &R, reader: &mut Reader) -> Synced
        requires board { reader.old.seat.board ≡ N.board }
        requires own { IsOwn reader.old }
        ensures { IsSynced reader.old reader.new result }
    {
        // For the proof: the reading's invariant.
        reader.reading.update_facts();
        let progress = self
            .state
            .lock(rt)
            .sync(rt, &self.board, &mut reader.seat, &mut reader.reading);
        Synced {
            change: progress.change,
            waiting: waiting(&progress, &reader.reading),
            held: progress.held,
            mark: progress.mark,
        }
    }

    /// As `sync`, without the answer.
    pub fn pump<R: Wait>(&self, rt: &R, reader: &mut Reader)
        requires board { reader.old.seat.board ≡ N.board }
        requires own { IsOwn reader.old }
        ensures { (x : SyncedOf) × IsSynced reader.old reader.new x }
    {
        self.sync(rt, reader);
    }

    /// Closes the reader's subscription, fills its port as in `sync`, and answers the number of
    /// changes then.
    ///
    /// Refused: `NotOpen` where its reader asked for the end or it was closed, else only where it
    /// has overrun (`first_closes_are_refused_late`). What was received stays. It takes no memory.
    pub fn close<R: Wait>(&self, rt: &R, reader: &mut Reader) -> Result<u64, Refusal>
        requires board { reader.old.seat.board ≡ N.board }
        requires own { IsOwn reader.old }
        ensures { IsCloseAnswer reader.old reader.new result }
    {
        // For the proof: the reading's invariant.
        reader.reading.update_facts();
        let closed = self
            .state
            .lock(rt)
            .close(rt, &self.board, &mut reader.seat, &mut reader.reading);
        closed.ok_or(Refusal::NotOpen)
    }

    /// Takes the reader back, and frees its slot.
    ///
    /// Refused: `StillOpen` just where its mark wasn't read; the reader then comes back as it was.
    /// It takes no memory. That the slot is free then is a clause of the call under the lock, since
    /// a caller sees no slots; tests open a query in it.
    pub fn finish<R: Wait>(&self, rt: &R, reader: Reader) -> Result<(), (Reader, Refusal)>
        requires board { reader.seat.board ≡ N.board }
        requires own { IsOwn reader }
        ensures ok { OnOk result (is_marked reader.reading ≡ true) }
        ensures err { IfErr result (λ e. (e.0 ≡ reader) × (e.1 ≡ StillOpen)
            × (is_marked reader.reading ≡ false)) }
    {
        if !reader.reading.is_ended() {
            return Err((reader, Refusal::StillOpen));
        }
        let Reader {
            seat,
            hang_up_asked,
            ..
        } = reader;
        self.state.lock(rt).finish(&self.board, seat, hang_up_asked);
        Ok(())
    }
}

// How many updates wait: the parcels in the port but the mark, and the message in hand.
fn waiting(progress: &Progress, reading: &Reading) -> u64
    ensures { progress.now.waiting < 2 ^ 63
        → result ≡ progress.now.waiting + bit (is_some reading.now.hand)
        - bit (is_mark_in_port progress.now.out (is_marked reading.now)) }
{
    match (reading.has_hand(), progress.out && !reading.is_ended()) {
        (true, false) => progress.waiting.saturating_add(1),
        (false, true) => progress.waiting.saturating_sub(1),
        _ => progress.waiting,
    }
}
