//! Gates that show which reads are of one batch, and that these go side by side.
ghost use Rattle.std.specs.Prelude.{◌≡◌, ◌<◌};

use crate::batches::{line, open};
use lq_script::{Gate, Host, run_threads};
use std::alloc::{AllocError, Global};
use std::sync::Wait;
use std::sync::atomic::{AtomicBool, AtomicU64, Ordering};
use std::test::Fail;
use std::thread;
use std::time::{Clock, Duration};

const THREE_READERS: &str = r#"{"do":"open","query":"name=*","port":4,"backlog":16}
{"do":"open","query":"size>0","port":4,"backlog":16}
{"do":"open","query":"size>1","port":4,"backlog":16}
"#;

const THREE_READS: &str = r#"{"do":"read","slot":1}
{"do":"read","slot":2}
{"do":"read","slot":3}
{"do":"find","name":"a"}
"#;

const ROUNDS: u64 = 5;

// The tries to see others, a millisecond apart.
const TRIES: u32 = 5_000;

/// A gate where the reads of a batch of three slots, each read once, wait for one another.
#[derive(Drop)]
struct Together<'c, C> {
    clock: &'c C,
    came: AtomicU64,
    was_alone: AtomicBool,
}

impl<'c, C: Clock> Gate for Together<'c, C> {
    // Once a read was alone no other one waits.
    fn pass<R: Wait>(&self, rt: &R, slot: u64) {
        let _ = rt;
        let _ = slot;
        let before = self.came.fetch_add(1, Ordering::SeqCst);
        let all = (before / 3).saturating_add(1).saturating_mul(3);
        if self.was_alone.load(Ordering::SeqCst) || !comes(self.clock, TRIES, &self.came, all) {
            self.was_alone.store(true, Ordering::SeqCst);
        }
    }
}

// Whether a count comes to a number.
fn comes<C: Clock>(clock: &C, tries: u32, count: &AtomicU64, number: u64) -> bool {
    for _ in 0..tries {
        if count.load(Ordering::SeqCst) >= number {
            return true;
        }
        thread::sleep(clock, Duration::from_millis(1));
    }
    false
}

#[test]
fn the_slots_of_each_batch_are_read_side_by_side(rt: HostRuntime) -> Result<(), Fail> {
    let alloc = rt.alloc();
    let mut text = String::from_str(alloc, THREE_READERS)?;
    for _ in 0..ROUNDS {
        text.push_str(THREE_READS)?;
    }
    let gate = Together {
        clock: &rt,
        came: AtomicU64::new(0),
        was_alone: AtomicBool::new(false),
    };
    let mut writer = Host::new(Vec::new(alloc));
    let ran = run_threads(
        &rt,
        alloc,
        &mut Host::new(text.as_bytes()),
        &mut writer,
        &gate,
    );
    assert!(rt; ran == Ok(()));
    assert!(rt; gate.came.load(Ordering::SeqCst) == 3 * ROUNDS);
    assert!(rt; !gate.was_alone.load(Ordering::SeqCst));
    Ok(())
}

/// The most reads of a batch.
const MAX_READS: u64 = 1_024;

// The tries for what never comes, a millisecond apart.
const FEW_TRIES: u32 = 100;

/// A gate where the first read of slot 1 waits for one of slot 2, and read 2,047 for a second one.
#[derive(Drop)]
struct Border<'c, C> {
    clock: &'c C,
    ones: AtomicU64,
    twos: AtomicU64,
    first: AtomicBool,
    second: AtomicBool,
}

impl<'c, C: Clock> Gate for Border<'c, C> {
    fn pass<R: Wait>(&self, rt: &R, slot: u64) {
        let _ = rt;
        if slot == 2 {
            self.twos.fetch_add(1, Ordering::SeqCst);
            return;
        }
        let before = self.ones.fetch_add(1, Ordering::SeqCst);
        if before == 0 && comes(self.clock, TRIES, &self.twos, 1) {
            self.first.store(true, Ordering::SeqCst);
        }
        if before == 2 * MAX_READS - 2 && comes(self.clock, FEW_TRIES, &self.twos, 2) {
            self.second.store(true, Ordering::SeqCst);
        }
    }
}

// 1,023 reads of slot 1 and one of slot 2, another line, and 1,024 reads of slot 1 and one of
// slot 2.
fn reads_to_the_border(alloc: Global) -> Result<String, AllocError> {
    let mut text = String::new(alloc);
    open(&mut text)?;
    open(&mut text)?;
    for reads in [MAX_READS - 1, MAX_READS] {
        for _ in 0..reads {
            line(alloc, &mut text, "read", 1)?;
        }
        line(alloc, &mut text, "read", 2)?;
        line(alloc, &mut text, "result", 1)?;
    }
    Ok(text)
}

#[test]
fn a_batch_has_1024_reads_at_most(rt: HostRuntime) -> Result<(), Fail> {
    let text = reads_to_the_border(rt.alloc())?;
    let gate = Border {
        clock: &rt,
        ones: AtomicU64::new(0),
        twos: AtomicU64::new(0),
        first: AtomicBool::new(false),
        second: AtomicBool::new(false),
    };
    let mut reader = Host::new(text.as_bytes());
    let mut writer = Host::new(Vec::new(rt.alloc()));
    let ran = run_threads(&rt, rt.alloc(), &mut reader, &mut writer, &gate);
    assert!(rt; ran == Ok(()));
    assert!(rt;
        gate.first.load(Ordering::SeqCst),
        "the read 1,024 is in another batch"
    );
    assert!(rt;
        !gate.second.load(Ordering::SeqCst),
        "the read 1,025 is in the batch"
    );
    Ok(())
}
