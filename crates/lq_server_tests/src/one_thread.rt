//! The scenarios of one thread, by their tables.
use crate::acts::Act::*;
use crate::acts::Expected::*;
use crate::acts::Table::*;
use crate::acts::{Call, Table};
use crate::more_threads::WINDOW_ENDED;
use crate::scenario::{Scenario, alone};
use lq_update::Cause;
use lq_value::Refusal;

/// Each call with memory; each of the six changes; a query with moved messages and one without; and
/// what a volume refuses.
pub static EACH: Scenario = alone!(
    "each call answers",
    (Latest, Number(0)),
    (Find("a"), Refused(Refusal::NoEntry)),
    (Listing(2, "a"), Refused(Refusal::NoNode)),
    (Create("a"), Changed(1, 2)),
    (Create("a"), Refused(Refusal::Exists)),
    (Open("name=*", 4, 16), Number(1)),
    (Slot, Number(1)),
    (Opened, Number(1)),
    (Result(&[("a", 2)]), Is(true)),
    (LastChange, Number(1)),
    (SetAttr(2, 7), Changed(2, 2)),
    (Fetch("x=7", &[("a", 2)]), Number(2)),
    (RemoveAttr(2), Changed(3, 2)),
    (Write(2, 9), Changed(4, 2)),
    (Fetch("size=9", &[("a", 2)]), Number(4)),
    (Find("a"), Number(2)),
    (Listing(2, "a"), Is(true)),
    (Read, Empty),
    (Move(2, "b"), Changed(5, 2)),
    (Read, Update(1, 5, 2)),
    (Settled, Is(false)),
    (Read, Update(2, 5, 2)),
    (Settled, Is(true)),
    (LastChange, Number(5)),
    (Result(&[("b", 2)]), Is(true)),
    (Remove(2), Changed(6, 2)),
    (Pump, Done),
    (ReadWaiting, Update(3, 6, 2)),
    (Sync, Live(6, 0, 0)),
    (Latest, Number(6)),
    (ReaderLatest, Number(6)),
    (Meet, Number(6)),
    (Seat, Number(6)),
    (GiveBack, Done),
    (Close, Number(6)),
    (Read, End(4, 6, Cause::Closed)),
    (ReadWaiting, Ended),
    (Finish, Done),
    (OpenMoved("name=*", 4, 16), Number(1)),
    (Create("c"), Changed(7, 3)),
    (Move(3, "d"), Changed(8, 3)),
    (Read, Update(1, 7, 3)),
    (Read, Update(2, 8, 3)),
    (HangUp, Done),
    (HangUp, Done),
    (ReadWaiting, End(3, 8, Cause::HungUp)),
    (Result(&[("d", 3)]), Is(true)),
    (Finish, Done),
);

/// The changes and the reads of `more_threads::WINDOW` in turn.
const WINDOW_READ: Table = Once(&[
    (Open("name=*", 2, 10), Number(1)),
    (Create("a"), Changed(1, 2)),
    (ReadWaiting, Update(1, 1, 2)),
    (Create("b"), Changed(2, 3)),
    (ReadWaiting, Update(2, 2, 3)),
    (Create("c"), Changed(3, 4)),
    (ReadWaiting, Update(3, 3, 4)),
    (Create("d"), Changed(4, 5)),
    (ReadWaiting, Update(4, 4, 5)),
    (Create("e"), Changed(5, 6)),
    (ReadWaiting, Update(5, 5, 6)),
]);

pub static WINDOW_ALONE: Scenario = Scenario {
    name: "a window is read after each change",
    threads: &[&[WINDOW_READ, WINDOW_ENDED]],
};

/// A volume that takes two changes takes two openings.
pub static TWO_OPENINGS: Scenario = alone!(
    "openings have the limit of changes",
    (Open("name=*", 1, 1), Number(1)),
    (Open("name=*", 1, 1), Number(2)),
    (Open("name=*", 1, 1), Refused(Refusal::Exhausted),),
);

/// The first slot is used again after a reader that hung up.
pub static SLOT_AFTER_HANG_UP: Scenario = alone!(
    "a slot is used after a hang-up",
    (Open("name=*", 4, 8), Number(1)),
    (HangUp, Done),
    (Create("a"), Changed(1, 2)),
    (Read, End(1, 0, Cause::HungUp)),
    (Finish, Done),
    (Open("name=*", 4, 8), Number(1)),
    (Opened, Number(1)),
    (Create("b"), Changed(2, 3)),
    (Read, Update(1, 2, 3)),
    (Sync, Live(2, 0, 0)),
    (Read, Empty),
);

/// The first slot is used again after a reader that was closed and then hung up.
pub static SLOT_AFTER_CLOSE: Scenario = alone!(
    "a slot is used after a close",
    (Open("name=*", 4, 8), Number(1)),
    (Close, Number(0)),
    (HangUp, Done),
    (Read, End(1, 0, Cause::Closed)),
    (Finish, Done),
    (Open("name=*", 4, 8), Number(1)),
    (Opened, Number(0)),
    (Create("a"), Changed(1, 2)),
    (Read, Update(1, 1, 2)),
    (Sync, Live(1, 0, 0)),
    (Read, Empty),
);

/// A dropped reader leaves its slot taken, another is closed once, a live one isn't finished.
pub static READERS_DROPPED: Scenario = alone!(
    "readers are dropped",
    (Open("name=*", 1, 1), Number(1)),
    (Create("a"), Changed(1, 2)),
    (Create("b"), Changed(2, 3)),
    (Create("c"), Changed(3, 4)),
    (Open("name=*", 1, 1), Number(2)),
    (Opened, Number(3)),
    (Close, Number(3)),
    (Close, Refused(Refusal::NotOpen)),
    (Read, End(1, 3, Cause::Closed)),
    (Finish, Done),
    (Open("name=*", 1, 1), Number(2)),
    (Finish, Refused(Refusal::StillOpen)),
    (Sync, Live(3, 0, 0)),
    (Read, Empty),
);

/// The reader's seat makes each call on the volume, and opens a second reader.
pub static CALLS_BY_READER: Scenario = alone!(
    "a reader's seat serves each call",
    (Open("name=*", 4, 8), Number(1)),
    (ByReader, Done),
    (Create("a"), Changed(1, 2)),
    (Fetch("name=*", &[("a", 2)]), Number(1)),
    (Find("a"), Number(2)),
    (Listing(2, "a"), Is(true)),
    (Open("name=*", 4, 8), Number(2)),
    (Slot, Number(2)),
    (Opened, Number(1)),
);

/// A reader reads the change that its own seat made, and then its mark: it hung up, its seat's next
/// change is refused, and its close comes too late.
pub static CHANGE_BY_READER: Scenario = alone!(
    "a reader's seat changes what it reads",
    (Open("name=*", 1, 8), Number(1)),
    (ByReader, Done),
    (Create("a"), Changed(1, 2)),
    (Read, Update(1, 1, 2)),
    (HangUp, Done),
    (Create("a"), Refused(Refusal::Exists)),
    (Read, End(2, 1, Cause::HungUp)),
    (Close, Refused(Refusal::NotOpen)),
    (Finish, Done),
);

/// Openings with a bad port, a bad backlog or both: the port is refused first.
const NUMBERS: Table = Once(&[
    (Open("size>0", 0, 1), Refused(Refusal::BadPort)),
    (Open("size>0", 1025, 65537), Refused(Refusal::BadPort)),
    (Open("size>0", 1, 65537), Refused(Refusal::BadBacklog)),
    (Open("size>0", 0, 65537), Refused(Refusal::BadPort)),
]);

/// Openings that end. With the 64 that stay they are as many as the volume takes changes.
const ENDED: &[Call] = &[
    (Open("size>0", 1, 1), Number(1)),
    (Close, Number(0)),
    (Read, End(1, 0, Cause::Closed)),
    (Finish, Done),
];

const STAYING: Table = Times(64, &[(Open("size>0", 1024, 65536), Any)]);

const FULL: Table = Once(&[
    (Slot, Number(64)),
    (Open("size>0", 1, 1), Refused(Refusal::NoSlot)),
]);

/// One slot is free again.
const FREED: Table = Once(&[
    (Close, Number(0)),
    (Read, End(1, 0, Cause::Closed)),
    (Finish, Done),
    (Open("size>0", 1, 1), Refused(Refusal::Exhausted)),
]);

pub static SLOTS: Scenario = Scenario {
    name: "slots and openings run out",
    threads: &[&[NUMBERS, Times(1936, ENDED), STAYING, FULL, NUMBERS, FREED]],
};

/// Calls that hold the lock, after which no more seats are out than before.
const SEATS_USED: Table = Once(&[
    (Open("size>0", 1, 1), Number(1)),
    (Sync, Live(0, 0, 0)),
    (Meet, Number(0)),
]);

/// Seats that stay out. With the thread's own, and one that retires the server, they are 15.
const SEATS_DROPPED: Table = Times(13, &[(Seat, Number(0))]);

/// One more is given, and each time that one comes back.
const SEATS_RUN_OUT: Table = Once(&[
    (Seat, Number(0)),
    (Seat, Refused(Refusal::NoSeat)),
    (GiveBack, Done),
    (Seat, Number(0)),
    (GiveBack, Done),
    (Seat, Number(0)),
    (Seat, Refused(Refusal::NoSeat)),
]);

pub static SEATS: Scenario = Scenario {
    name: "seats run out",
    threads: &[&[SEATS_USED, SEATS_DROPPED, SEATS_RUN_OUT]],
};
