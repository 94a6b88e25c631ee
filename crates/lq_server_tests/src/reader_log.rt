//! A reader of a server in a scenario, with what it read.
ghost use Rattle.std.specs.Prelude.{◌≡◌, true};
ghost use Rattle.lq_server.specs.Own.{StaysOwn};

use crate::acted::Acted;
use crate::acts::{Act, Answer, Expected, are_entries};
use crate::random_changes::DrawnOpening;
use crate::reference::{Log, text};
use lq_predicate::read;
use lq_server::{Named, Reader, Seat, Server};
use lq_value::Refusal;
use std::alloc::Global;
use std::marker::{Model, PhantomData};
use std::sync::Wait;

/// A reader of N's server, with the seat of its own slot, and what it has read.
#[derive(Drop)]
pub struct ReaderLog<N: Named> {
    reader: Reader,
    log: Log,
    of: PhantomData<N>,
}

impl<N: Named> Model for ReaderLog<N> {
    ghost use Rattle.std.specs.Prelude.{◌≡◌, true};
    ghost use Rattle.lq_board.specs.Token.{BoardName};
    ghost use Rattle.lq_server.specs.Own.{IsOwn};

    ghost Value = { BoardName };

    ghost view = { λ r. r.reader.seat.board };

    ghost invariant = { λ r. (r.reader.seat.board ≡ N.board) × IsOwn r.reader
        × (r.reader.seat.author.signs ≡ true) × (N.board.free ≡ true) };
}

impl<N: Named> ReaderLog<N> {
    /// As `Server::open_by`, of a query that is read from its text.
    pub fn open<R: Wait>(
        rt: &R,
        alloc: Global,
        server: &Server<N>,
        seat: &mut Seat,
        opening: DrawnOpening,
    ) -> Result<ReaderLog<N>, Refusal>
        requires board { (seat.old.board ≡ N.board) × (N.board.free ≡ true) }
        requires signs { seat.old.author.signs ≡ true }
        ensures board { seat.new.board ≡ seat.old.board }
        ensures author { seat.new.author ≡ seat.old.author }
        ensures own { StaysOwn seat.old seat.new }
    {
        let DrawnOpening { query, options } = opening;
        let predicate = read(alloc, query)?;
        let from = server.latest(seat);
        let reader = server.open_by(rt, seat, &predicate, &options)?;
        let log = Log {
            alloc,
            query,
            flags: options.flags,
            from,
            opened: reader.opened(),
            to: server.latest(seat),
            mark: None,
            begun: None,
            messages: Vec::new(alloc),
            ended: None,
        };
        Ok(ReaderLog {
            reader,
            log,
            of: PhantomData,
        })
    }

    /// As `open`, by its own seat.
    pub fn open_another<R: Wait>(
        &mut self,
        rt: &R,
        server: &Server<N>,
        opening: DrawnOpening,
    ) -> Result<ReaderLog<N>, Refusal> {
        ReaderLog::open(rt, self.log.alloc, server, self.reader.seat(), opening)
    }

    /// As `Acted::call`, by its own seat.
    pub fn call<R: Wait>(
        &mut self,
        rt: &R,
        server: &Server<N>,
        acted: &mut Acted,
        act: &Act,
    ) -> Result<Option<Expected>, Refusal> {
        acted.call(rt, server, self.reader.seat(), act)
    }

    /// As `Server::meet`, of its own seat and another.
    pub fn meet<R: Wait>(&mut self, rt: &R, server: &Server<N>, seat: &mut Seat) -> u64
        requires { seat.old.board ≡ N.board }
        ensures board { seat.new.board ≡ seat.old.board }
        ensures author { seat.new.author ≡ seat.old.author }
    {
        server.meet(rt, self.reader.seat(), seat)
    }

    /// Asks what an act asks of a reader that stays.
    pub fn ask<R: Wait>(&mut self, rt: &R, server: &Server<N>, act: &Act) -> Answer {
        Ok(match act {
            Act::Keep => {
                self.log.begun = Some(text(self.log.alloc, &Some(self.reader.result()))?);
                Expected::Done
            }
            Act::ReaderLatest => Expected::Number(self.reader.latest(server)),
            Act::Pump => {
                server.pump(rt, &mut self.reader);
                Expected::Done
            }
            Act::Sync => self.sync(rt, server),
            Act::HangUp => {
                self.reader.hang_up(server);
                Expected::Done
            }
            Act::Close => Expected::Number(server.close(rt, &mut self.reader)?),
            Act::Read => self.log.hear(self.reader.read(rt)?)?,
            Act::ReadWaiting => self.log.hear(self.reader.read_waiting(rt, server)?)?,
            _ => return self.look(act),
        })
    }

    fn sync<R: Wait>(&mut self, rt: &R, server: &Server<N>) -> Expected {
        let synced = server.sync(rt, &mut self.reader);
        let (change, waiting, held) = (synced.change, synced.waiting, synced.held);
        match synced.mark {
            None => Expected::Live(change, waiting, held),
            Some(mark) => {
                Expected::Marked(change, waiting, held, mark.seq, mark.change, mark.cause)
            }
        }
    }

    // What the reader answers without its server.
    fn look(&self, act: &Act) -> Answer {
        match act {
            Act::Slot => Ok(Expected::Number(self.reader.slot())),
            Act::Opened => Ok(Expected::Number(self.reader.opened())),
            Act::Result(rows) => Ok(Expected::Is(are_entries(self.reader.result(), rows))),
            Act::Settled => Ok(Expected::Is(self.reader.is_settled())),
            Act::LastChange => Ok(Expected::Number(self.reader.last_change())),
            _ => Err(Refusal::OutOfStep),
        }
    }

    /// As `Server::finish`; the answer is what it has read, if it could be finished.
    pub fn finish<R: Wait>(
        self,
        rt: &R,
        server: &Server<N>,
    ) -> Result<Log, (ReaderLog<N>, Refusal)> {
        let ReaderLog {
            reader,
            mut log,
            of,
        } = self;
        if log.begun.is_some() {
            log.ended = text(log.alloc, &Some(reader.result())).ok();
        }
        match server.finish(rt, reader) {
            Ok(()) => Ok(log),
            Err((reader, refusal)) => Err((ReaderLog { reader, log, of }, refusal)),
        }
    }
}
