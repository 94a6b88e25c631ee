//! The names of boards, and what a server begins with.
ghost use Rattle.std.specs.Prelude.{◌≡◌, IfOk, true};
ghost use Rattle.lq_value.specs.Refusal.{FailsOnlyForMemory};
ghost use Rattle.lq_board.specs.Token.{counted_board};
ghost use Rattle.lq_server_slots.specs.Leading.{leading_seat};

use crate::identity::Identity;
use crate::server_state::ServerState;
use crate::slots::ServerSlots;
use lq_board::Board;
use lq_value::Refusal;
use lq_volume::Volume;
use std::alloc::Global;
use std::marker::{Brand, Model};

/// A seat at a server: what one caller knows of the changes. 16 may be out at the same time.
pub type Seat = lq_board::Seat<Identity>;

/// Names one board, and the volume that a server over it began with, for contracts alone.
///
/// The board's name also says whether each seat of the server may make changes (`board.free`), or
/// just those that its leading seat enlists.
pub trait Named {
    ghost use Rattle.lq_board.specs.Token.{BoardName};
    ghost use Rattle.lq_volume.specs.State.{State};

    ghost board: { BoardName };

    ghost start: { State };
}

impl Named for Brand {
    ghost use Rattle.lq_board.specs.Token.{no_board};
    ghost use Rattle.lq_volume.specs.State.{empty_state};

    ghost board = { no_board };

    ghost start = { empty_state 0 };
}

/// A volume with a new board and its keeper, and no subscriptions.
///
/// A contract sees which board it is, and the volume. `Base::new` alone makes one, and no call
/// changes it: the board's book begins with the volume and has no changes.
pub struct Base {
    board: Board<Identity>,
    slots: ServerSlots,
    volume: Volume,
    alloc: Global,
}

impl Drop for Base {
    fn drop(self) {
        let Base {
            board: _,
            slots: _,
            volume: _,
            alloc: _,
        } = self;
    }
}

impl Model for Base {
    ghost use Rattle.std.specs.Prelude.{◌≡◌, true};
    ghost use Rattle.lq_volume.specs.Book.{state_of};
    ghost use Rattle.lq_board.specs.Author.{no_register};
    ghost use Rattle.lq_board.specs.Book.{IsFullBook};
    ghost use Rattle.lq_server_slots.specs.Slots.{AreConsistent};
    ghost use Rattle.lq_server_slots.specs.Hold.{BaseHold};

    ghost Value = { BaseHold };

    ghost view = { λ b. record { board = b.board; volume = b.volume } };

    ghost invariant = { λ b. (b.slots.keeper.board ≡ b.board)
        × (b.board.free ≡ true)
        × (b.slots.keeper.register ≡ no_register)
        × (b.volume ≡ state_of b.slots.keeper.book)
        × IsFullBook b.slots.keeper.book
        × (b.slots.keeper.book.start ≡ b.volume)
        × (b.slots.openings ≡ 0)
        × AreConsistent b.slots b.slots.keeper.book };
}

impl Base {
    /// A base over this volume, which has no changes.
    ///
    /// Refused: `NoMemory`. The invariant of a base says that its 64 slots are free.
    pub fn new(alloc: Global, volume: Volume) -> Result<Base, Refusal>
        requires first { volume.number ≡ 0 }
        ensures volume { IfOk result (λ base. base.volume ≡ volume) }
        ensures refused { FailsOnlyForMemory result }
    {
        let (board, keeper) = Board::new(alloc, &volume)?;
        let slots = ServerSlots::new(alloc, keeper)?;
        Ok(Base {
            board,
            slots,
            volume,
            alloc,
        })
    }

    /// The board and the state under the lock. N names the board and the volume.
    pub fn into_parts<N: Named>(self) -> (Board<Identity>, ServerState<N>)
        requires { (self.board ≡ N.board) × (self.volume ≡ N.start) }
        ensures board { result.0 ≡ N.board }
        ensures free { N.board.free ≡ true }
    {
        let Base {
            board,
            slots,
            volume,
            alloc,
        } = self;
        (board, ServerState::new(alloc, slots, volume, 0))
    }

    /// As `into_parts`, with the leading seat of the board, which is then counted. It is out.
    pub fn into_counted<N: Named>(self) -> (Board<Identity>, ServerState<N>, Seat)
        requires { (N.board ≡ counted_board self.board) × (self.volume ≡ N.start) }
        ensures board { result.0 ≡ N.board }
        ensures seats { result.1.seats ≡ 1 }
        ensures openings { result.1.slots.openings ≡ 0 }
        ensures head { result.2 ≡ leading_seat N.board N.start }
        ensures book { result.2.book ≡ result.1.slots.keeper.book }
    {
        let Base {
            mut board,
            mut slots,
            volume,
            alloc,
        } = self;
        let head = board.lead(&mut slots.keeper);
        (board, ServerState::new(alloc, slots, volume, 1), head)
    }
}
