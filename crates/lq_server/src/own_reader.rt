//! A reader that holds the preconditions of a server's calls as invariants, so that its own calls
//! require nothing.
ghost use Rattle.std.specs.Prelude.{◌≡◌, IfErr, OnOk, true, false};
ghost use Rattle.lq_value.specs.declared.refusal.Refusal.TheVariants.{StillOpen};
ghost use Rattle.lq_server_slots.specs.Hold.{ReaderHold as HoldOf};
ghost use Rattle.lq_server_slots.specs.Reading.{is_marked};
ghost use Rattle.lq_server.specs.declared.server.Synced.{Synced as SyncedOf};
ghost use Rattle.lq_server.specs.Closed.{IsCloseAnswer};
ghost use Rattle.lq_server.specs.Syncing.{IsReadAfter, IsSynced};

use crate::reader::Reader;
use crate::server::Server;
use lq_desk_sub::Read;
use lq_server_slots::Named;
use lq_value::Refusal;
use std::marker::{Model, PhantomData};
use std::sync::Wait;

/// A reader of N's board, with the seat of its own slot. A contract sees it as a `Reader`.
pub struct OwnReader<N: Named> {
    pub(crate) reader: Reader,
    pub(crate) of: PhantomData<N>,
}

// One call takes it apart, wherever one is dropped.
impl<N: Named> Drop for OwnReader<N> {
    fn drop(self) {
        let OwnReader { reader: _, of: _ } = self;
    }
}

impl<N: Named> Model for OwnReader<N> {
    ghost use Rattle.std.specs.Prelude.{◌≡◌};
    ghost use Rattle.std.specs.Coded.{codes};
    ghost use Rattle.lq_server.specs.contracts.reader.Reader as a_reader;
    ghost use Rattle.lq_server_slots.specs.Hold.{ReaderHold};
    ghost use Rattle.lq_server_slots.specs.Own.{IsOwn};

    ghost Value = { ReaderHold };

    ghost coded = { Prim.hlevel (codes, a_reader.the_row.coded) };

    ghost view = { λ h. h.reader };

    ghost invariant = { λ h. (h.reader.seat.board ≡ N.board) × IsOwn h.reader };
}

impl<N: Named> OwnReader<N> {
    /// The reader. Its slot and its result are read through it. It takes no lock.
    pub fn reader(&self) -> &Reader
        ensures { result.now ≡ self.now }
    {
        &self.reader
    }

    /// Fills its port, and reads the next message or the mark. Refused: `NoMemory`; the next read
    /// with memory then gives the message.
    pub fn read<R: Wait>(&mut self, rt: &R, server: &Server<N>) -> Result<Read, Refusal>
        ensures { (filled : HoldOf) × (x : SyncedOf) × IsSynced self.old filled x
            × IsReadAfter filled self.new result }
    {
        server.pump(rt, &mut self.reader);
        self.reader.read(rt)
    }

    /// Asks for the end of its subscription. It takes no lock.
    pub fn hang_up(&mut self, server: &Server<N>)
        ensures hang_up_asked { self.new.hang_up_asked ≡ true }
        ensures reading { self.new.reading ≡ self.old.reading }
        ensures again { self.old.hang_up_asked ≡ true → self.new ≡ self.old }
    {
        self.reader.hang_up(server);
    }

    /// Closes its subscription, and answers the number of changes then. Refused: `NotOpen`, as by
    /// `Server::close`.
    pub fn close<R: Wait>(&mut self, rt: &R, server: &Server<N>) -> Result<u64, Refusal>
        ensures { IsCloseAnswer self.old self.new result }
    {
        server.close(rt, &mut self.reader)
    }

    /// Frees its slot. Refused: `StillOpen` just where its mark wasn't read; it then comes back.
    pub fn finish<R: Wait>(self, rt: &R, server: &Server<N>) -> Result<(), (OwnReader<N>, Refusal)>
        ensures ok { OnOk result (is_marked self.reading ≡ true) }
        ensures err { IfErr result (λ e. (e.0 ≡ self) × (e.1 ≡ StillOpen)
            × (is_marked self.reading ≡ false)) }
    {
        let OwnReader { reader, of } = self;
        match server.finish(rt, reader) {
            Ok(()) => Ok(()),
            Err((reader, refusal)) => Err((OwnReader { reader, of }, refusal)),
        }
    }
}
