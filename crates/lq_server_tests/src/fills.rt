//! What each call does for every slot, by its tables: it notices who hung up, and fills the ports.
use crate::acts::Act::*;
use crate::acts::Expected::*;
use crate::acts::Table;
use crate::scenario::{Scenario, alone};
use lq_update::Cause;
use lq_value::Refusal;

/// A refused change fills the port, and ends the subscription whose reader hung up; so does a
/// close, which comes too late for it.
pub static REFUSED: Scenario = alone!(
    "a refused change notices and fills",
    (Open("name=*", 1, 8), Number(1)),
    (Create("a"), Changed(1, 2)),
    (Create("b"), Changed(2, 3)),
    (Read, Update(1, 1, 2)),
    (Create("a"), Refused(Refusal::Exists)),
    (Read, Update(2, 2, 3)),
    (HangUp, Done),
    (Create("a"), Refused(Refusal::Exists)),
    (Read, End(3, 2, Cause::HungUp)),
    (Finish, Done),
    (Open("name=*", 4, 8), Number(1)),
    (HangUp, Done),
    (Close, Refused(Refusal::NotOpen)),
    (Read, End(1, 2, Cause::HungUp)),
    (Finish, Done),
);

/// A refused change makes room before the port, so that the next is held and not an overrun.
pub static ROOM: Scenario = alone!(
    "a refused change makes room",
    (Open("name=*", 1, 1), Number(1)),
    (Create("a"), Changed(1, 2)),
    (Create("b"), Changed(2, 3)),
    (Read, Update(1, 1, 2)),
    (Create("a"), Refused(Refusal::Exists)),
    (Create("c"), Changed(3, 4)),
    (Read, Update(2, 2, 3)),
    (Sync, Live(3, 1, 0)),
    (Read, Update(3, 3, 4)),
    (Sync, Live(3, 0, 0)),
    (Read, Empty),
);

/// What a sync and a close put is what the next reads give, and after the mark there is nothing.
pub static ENDS: Scenario = alone!(
    "nothing comes after a mark",
    (Open("name=*", 2, 8), Number(1)),
    (Create("a"), Changed(1, 2)),
    (Create("b"), Changed(2, 3)),
    (Create("c"), Changed(3, 4)),
    (Sync, Live(3, 2, 1)),
    (Read, Update(1, 1, 2)),
    (Read, Update(2, 2, 3)),
    (Read, Empty),
    (Close, Number(3)),
    (Read, Update(3, 3, 4)),
    (Read, End(4, 3, Cause::Closed)),
    (Read, Ended),
    (ReadWaiting, Ended),
    (Read, Ended),
    (Sync, Marked(3, 0, 0, 4, 3, Cause::Closed)),
    (Create("d"), Changed(4, 5)),
    (Read, Ended),
    (ReadWaiting, Ended),
    (Sync, Marked(4, 0, 0, 4, 3, Cause::Closed)),
    (Finish, Done),
);

/// A sync counts the messages that wait in the port and those that are held, and then has the mark.
pub static COUNTED: Scenario = alone!(
    "a sync answers each number",
    (Open("name=*", 2, 8), Number(1)),
    (Create("a"), Changed(1, 2)),
    (Create("b"), Changed(2, 3)),
    (Create("c"), Changed(3, 4)),
    (Create("d"), Changed(4, 5)),
    (Create("e"), Changed(5, 6)),
    (Sync, Live(5, 2, 3)),
    (HangUp, Done),
    (Sync, Marked(5, 2, 3, 6, 5, Cause::HungUp)),
);
