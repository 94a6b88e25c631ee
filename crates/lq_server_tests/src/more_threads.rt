//! The scenarios of two threads and four, by their tables.
use crate::acts::Act::*;
use crate::acts::Expected::*;
use crate::acts::Table::*;
use crate::acts::{Call, Row, Table};
use crate::scenario::Scenario;
use lq_update::Cause;

const FIVE: [Row; 5] = [("a", 2), ("b", 3), ("c", 4), ("d", 5), ("e", 6)];

/// The turn of a thread that waits for the others.
const IDLE: Table = Once(&[]);

const OPENED: Table = Once(&[(Open("name=*", 2, 10), Number(1)), (Keep, Done)]);

const FILES: Table = Once(&[
    (Create("a"), Changed(1, 2)),
    (Create("b"), Changed(2, 3)),
    (Create("c"), Changed(3, 4)),
    (Create("d"), Changed(4, 5)),
    (Create("e"), Changed(5, 6)),
]);

const FILES_READ: Table = Once(&[
    (ReadWaiting, Update(1, 1, 2)),
    (ReadWaiting, Update(2, 2, 3)),
    (ReadWaiting, Update(3, 3, 4)),
    (ReadWaiting, Update(4, 4, 5)),
    (ReadWaiting, Update(5, 5, 6)),
]);

pub const WINDOW_ENDED: Table = Once(&[
    (Sync, Live(5, 0, 0)),
    (Result(&FIVE), Is(true)),
    (Opened, Number(0)),
    (Fetch("name=*", &FIVE), Number(5)),
    (Find("a"), Number(2)),
    (Listing(2, "a"), Is(true)),
    (HangUp, Done),
    (Create("f"), Changed(6, 7)),
    (Read, End(6, 5, Cause::HungUp)),
    (Finish, Done),
]);

pub static WINDOW: Scenario = Scenario {
    name: "a window is read by waiting",
    threads: &[&[OPENED, FILES_READ, WINDOW_ENDED], &[IDLE, FILES]],
};

const OPENED_NARROW: Table = Once(&[(Open("name=*", 1, 8), Number(1))]);

const FILES_LATE: Table = Once(&[
    (Linger, Done),
    (Create("a"), Changed(1, 2)),
    (Create("b"), Changed(2, 3)),
    (Create("c"), Changed(3, 4)),
    (Create("d"), Changed(4, 5)),
    (Create("e"), Changed(5, 6)),
]);

pub static WAITED: Scenario = Scenario {
    name: "a read waits for the next change",
    threads: &[&[OPENED_NARROW, FILES_READ], &[IDLE, FILES_LATE]],
};

const FIRST_CREATES: Table = Times(100, &[(CreateNext("a"), Any)]);

const SECOND_CREATES: Table = Times(100, &[(CreateNext("b"), Any)]);

const CREATED: Table = Once(&[(Latest, Number(200)), (Seat, Number(200))]);

pub static WRITERS_CREATE: Scenario = Scenario {
    name: "two writers create",
    threads: &[&[FIRST_CREATES, CREATED], &[SECOND_CREATES, CREATED]],
};

const FILE: Table = Once(&[(Create("a"), Changed(1, 2))]);

const WRITES: Table = Times(100, &[(Write(2, 5), Any)]);

const WRITTEN: Table = Once(&[(Latest, Number(201)), (Seat, Number(201))]);

pub static WRITERS_WRITE: Scenario = Scenario {
    name: "two writers make the same write",
    threads: &[&[FILE, WRITES, WRITTEN], &[IDLE, WRITES, WRITTEN]],
};

const OPENED_WIDE: Table = Once(&[(Open("name=*", 1024, 1024), Number(1)), (Keep, Done)]);

const HANGS_UP: Table = Once(&[(HangUp, Done)]);

const HUNG_UP: Table = Once(&[
    (Latest, Number(100)),
    (Pump, Done),
    (ReadOut, Over(Cause::HungUp)),
    (Finish, Done),
]);

pub static HANG_UP_BESIDE_CHANGES: Scenario = Scenario {
    name: "a hang-up beside changes",
    threads: &[&[OPENED_WIDE, HANGS_UP, HUNG_UP], &[IDLE, FIRST_CREATES]],
};

const CHANGES_DRAWN: Table = Times(1300, &[(ChangeDrawn, Any)]);

/// A `close` is refused where an overrun ended the subscription before.
const CLOSED_DRAWN: &[Call] = &[
    (OpenDrawn, Any),
    (Keep, Done),
    (ReadDrawn, Done),
    (Close, Any),
    (ReadOut, Any),
    (Finish, Done),
];

const HUNG_UP_DRAWN: &[Call] = &[
    (OpenDrawn, Any),
    (Keep, Done),
    (ReadDrawn, Done),
    (HangUp, Done),
    (ReadOut, Any),
    (Finish, Done),
];

pub static DRAWN: Scenario = Scenario {
    name: "drawn schedules",
    threads: &[
        &[Times(80, HUNG_UP_DRAWN)],
        &[Times(80, CLOSED_DRAWN)],
        &[CHANGES_DRAWN],
        &[CHANGES_DRAWN],
    ],
};
