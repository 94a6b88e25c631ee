//! One thread of a scenario: its tokens, and the calls that it makes beside other threads.
ghost use Rattle.std.specs.Prelude.{◌≡◌, true};

use crate::acted::Acted;
use crate::acts::{Act, Answer, Expected, Table, opening};
use crate::random_changes::DrawnOpening;
use crate::reader_log::ReaderLog;
use lq_server::{Named, Seat, Server};
use lq_value::Refusal;
use std::alloc::Global;
use std::marker::Model;
use std::sync::Wait;

/// A seat of N's server that may make changes, the seat that was taken last, the reader that was
/// opened last, and whether its seat makes the calls; a table for each turn to come, how often a
/// call that is answered `NoMemory` is made, and what was done.
#[derive(Drop)]
pub struct Party<N: Named> {
    seat: Seat,
    other: Option<Seat>,
    reader: Option<ReaderLog<N>>,
    is_by_reader: bool,
    tables: &'static [Table],
    tries: usize,
    acted: Acted,
}

impl<N: Named> Model for Party<N> {
    ghost use Rattle.std.specs.Prelude.{◌≡◌, IfSome, true};
    ghost use Rattle.lq_board.specs.Token.{BoardName};

    ghost Value = { BoardName };

    ghost view = { λ p. p.seat.board };

    ghost invariant = { λ p. (p.seat.board ≡ N.board) × (p.seat.author.signs ≡ true)
        × IfSome p.other (λ s. (s.board ≡ N.board) × (s.slot ≡ 0)) × (N.board.free ≡ true) };
}

impl<N: Named> Party<N> {
    /// A thread at a server each seat of which may make changes. It draws from this state.
    pub fn new<R: Wait>(
        rt: &R,
        alloc: Global,
        server: &Server<N>,
        tables: &'static [Table],
        tries: usize,
        state: u64,
    ) -> Result<Party<N>, Refusal>
        requires { N.board.free ≡ true }
    {
        let seat = server.seat(rt)?;
        Ok(Party {
            seat,
            other: None,
            reader: None,
            is_by_reader: false,
            tables,
            tries,
            acted: Acted::new(alloc, state),
        })
    }

    /// Makes the calls of its next table, up to one whose answer isn't the expected one.
    pub fn play<R: Wait>(&mut self, rt: &R, server: &Server<N>) {
        let Some((table, rest)) = self.tables.split_first() else {
            return;
        };
        self.tables = rest;
        let (times, calls) = match table {
            Table::Once(calls) => (1, *calls),
            Table::Times(times, calls) => (*times, *calls),
        };
        for _ in 0..times {
            for (row, (act, expected)) in calls.iter().enumerate() {
                if !self.is_answered(rt, server, act, expected) {
                    self.acted.stop = Some(row);
                    return;
                }
            }
        }
    }

    /// Whether a call has the expected answer.
    fn is_answered<R: Wait>(
        &mut self,
        rt: &R,
        server: &Server<N>,
        act: &Act,
        expected: &Expected,
    ) -> bool {
        for _ in 0..self.tries {
            let answer = match self.answer(rt, server, act) {
                Ok(answer) => answer,
                Err(Refusal::NoMemory) => continue,
                Err(refusal) => Expected::Refused(refusal),
            };
            return answer == *expected || *expected == Expected::Any;
        }
        false
    }

    fn answer<R: Wait>(&mut self, rt: &R, server: &Server<N>, act: &Act) -> Answer {
        if let Some(answer) = self.call(rt, server, act)? {
            return Ok(answer);
        }
        if let Some(opening) = opening(&mut self.acted.draws, act) {
            return self.open(rt, server, opening);
        }
        match act {
            Act::ByReader => {
                self.is_by_reader = true;
                Ok(Expected::Done)
            }
            Act::Linger => self.linger(rt, server),
            Act::Seat => self.take_seat(rt, server),
            Act::GiveBack => self.give_back(rt, server),
            Act::Finish => self.finish(rt, server),
            Act::ReadDrawn => self.read_drawn(rt, server),
            Act::ReadOut => self.read_out(rt, server),
            _ => self.ask(rt, server, act),
        }
    }

    fn call<R: Wait>(
        &mut self,
        rt: &R,
        server: &Server<N>,
        act: &Act,
    ) -> Result<Option<Expected>, Refusal> {
        match &mut self.reader {
            Some(reader) if self.is_by_reader => reader.call(rt, server, &mut self.acted, act),
            _ => self.acted.call(rt, server, &mut self.seat, act),
        }
    }

    /// Fetches so often that another thread waits by then.
    fn linger<R: Wait>(&mut self, rt: &R, server: &Server<N>) -> Answer {
        for _ in 0..20_000 {
            self.call(rt, server, &Act::Fetch("name=*", &[]))?;
        }
        Ok(Expected::Done)
    }

    fn take_seat<R: Wait>(&mut self, rt: &R, server: &Server<N>) -> Answer {
        let _ = &self.seat; // For the invariant: no seat leads at this server.
        let mut other = server.seat(rt)?;
        let number = server.meet(rt, &mut self.seat, &mut other);
        self.other = Some(other);
        Ok(Expected::Number(number))
    }

    fn give_back<R: Wait>(&mut self, rt: &R, server: &Server<N>) -> Answer {
        let Some(other) = self.other.take() else {
            return Err(Refusal::OutOfStep);
        };
        server.give_back(rt, other);
        Ok(Expected::Done)
    }

    fn open<R: Wait>(&mut self, rt: &R, server: &Server<N>, opening: DrawnOpening) -> Answer {
        let alloc = self.acted.alloc;
        let mut reader = match &mut self.reader {
            Some(reader) if self.is_by_reader => reader.open_another(rt, server, opening)?,
            _ => ReaderLog::open(rt, alloc, server, &mut self.seat, opening)?,
        };
        let slot = reader.ask(rt, server, &Act::Slot);
        self.reader = Some(reader);
        slot
    }

    fn finish<R: Wait>(&mut self, rt: &R, server: &Server<N>) -> Answer {
        let Some(reader) = self.reader.take() else {
            return Err(Refusal::OutOfStep);
        };
        match reader.finish(rt, server) {
            Ok(log) => {
                if log.begun.is_some() {
                    self.acted.logs.push(log)?;
                }
                Ok(Expected::Done)
            }
            Err((reader, refusal)) => {
                self.reader = Some(reader);
                Err(refusal)
            }
        }
    }

    /// A drawn number of reads, some of them after a pump.
    fn read_drawn<R: Wait>(&mut self, rt: &R, server: &Server<N>) -> Answer {
        for _ in 0..self.acted.draws.below(200) {
            if self.acted.draws.below(4) == 0 {
                self.ask(rt, server, &Act::Pump)?;
            }
            self.ask(rt, server, &Act::Read)?;
        }
        Ok(Expected::Done)
    }

    /// Reads up to the mark, or to the end where the mark was read before.
    fn read_out<R: Wait>(&mut self, rt: &R, server: &Server<N>) -> Answer {
        for _ in 0..100_000 {
            match self.ask(rt, server, &Act::ReadWaiting)? {
                Expected::Update(_, _, _) => {}
                Expected::End(_, _, cause) => return Ok(Expected::Over(cause)),
                answer => return Ok(answer),
            }
        }
        Ok(Expected::Done)
    }

    /// Asks what an act asks of the reader.
    fn ask<R: Wait>(&mut self, rt: &R, server: &Server<N>, act: &Act) -> Answer {
        match &mut self.reader {
            Some(reader) => match act {
                Act::Meet => Ok(Expected::Number(reader.meet(rt, server, &mut self.seat))),
                _ => reader.ask(rt, server, act),
            },
            None => Err(Refusal::OutOfStep),
        }
    }

    /// What this one and others did.
    pub fn end(self, others: &mut [Party<N>]) -> Result<Acted, Refusal> {
        let mut acted = self.acted;
        for other in others {
            acted.taken.append(&mut other.acted.taken)?;
            acted.logs.append(&mut other.acted.logs)?;
            acted.stop = acted.stop.or(other.acted.stop);
        }
        Ok(acted)
    }
}
