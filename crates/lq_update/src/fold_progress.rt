//! How far a fold of messages has come, which decides whether a message may be next.
ghost use Rattle.std.specs.Prelude.{◌≡◌, true};
ghost use Rattle.lq_update.specs.FoldProgress.{may_come_next};

use crate::message::Message;

/// The latest message that was folded; before the first message, what stands for the opening.
///
/// `seq` is the message's number, 0 before the first. `change` is the number of its change, and
/// `last` says whether it was the last message of that change.
#[derive(Clone, Copy)]
pub struct FoldProgress {
    pub seq: u64,
    pub change: u64,
    pub last: bool,
}

impl FoldProgress {
    /// The value for an opening after `at` changes.
    pub fn opening(at: u64) -> FoldProgress
        ensures { result ≡ record { seq = 0; change = at; last = true } }
    {
        FoldProgress {
            seq: 0,
            change: at,
            last: true,
        }
    }

    /// The value for a message.
    pub fn of(message: &Message) -> FoldProgress
        ensures { result ≡ record {
          seq = message.now.seq;
          change = message.now.change;
          last = message.now.last;
        } }
    {
        FoldProgress {
            seq: message.seq,
            change: message.change,
            last: message.last,
        }
    }

    /// Whether this message may come next. Its `seq` has to be one more. Its change has to be later
    /// if the latest message was the last of its change, else the same.
    pub fn is_followed_by(self, message: &Message) -> bool
        ensures { result ≡ may_come_next self.seq self.change self.last message.now }
    {
        if message.seq == 0 || message.seq - 1 != self.seq {
            return false;
        }
        if self.last {
            message.change > self.change
        } else {
            message.change == self.change
        }
    }
}
