//! The threads of the slots, which stay over batches. No clause says what these calls do.
use crate::tasks::{Task, Tasks};
use lq_desk_sub::{SLOTS, SlotIndex, SlotSet};
use std::alloc::{AllocError, Global};
use std::hint::spin_loop;
use std::sync::atomic::{AtomicU64, Ordering};
use std::sync::{Arc, Condvar, Mutex, Wait};
use std::thread::{Scope, Threads};

/// How often the caller's thread looks whether the others are done before it sleeps. That takes
/// some five microseconds, longer than most tasks.
const LOOKS: u32 = 100;

/// What all threads of a run share. A thread sleeps on the condition of its slot.
#[derive(Drop)]
struct Shared<T: Drop> {
    tasks: Mutex<Tasks<T>>,
    // The tasks that threads were asked for and have not done. It changes under the lock.
    left: AtomicU64,
    of_slots: Vec<Condvar>,
    of_caller: Condvar,
}

impl<T: Task + Drop> Shared<T> {
    // No tasks. Refused: no memory.
    fn new(alloc: Global) -> Result<Shared<T>, AllocError> {
        let mut of_slots = Vec::with_capacity(alloc, SLOTS)?;
        for _ in 0..SLOTS {
            of_slots.push(Condvar::new())?;
        }
        let ending = Vec::with_capacity(alloc, SLOTS)?;
        Ok(Shared {
            tasks: Mutex::new(Tasks::new(Vec::new(alloc), Vec::new(alloc), ending)),
            left: AtomicU64::new(0),
            of_slots,
            of_caller: Condvar::new(),
        })
    }

    // Asks for these tasks, and wakes the thread of each. `done` is empty and has room for them.
    fn ask<R: Wait>(&self, rt: &R, waiting: Vec<T>, done: Vec<T>) {
        let mut slots = slots_of(&waiting);
        let mut tasks = self.tasks.lock(rt);
        self.left.store(waiting.len() as u64, Ordering::SeqCst);
        tasks.ask(waiting, done);
        drop(tasks);
        // Out of the lock, since a thread that wakes takes it at once.
        for _ in 0..SLOTS {
            if let Some(slot) = slots.pop_lowest() {
                self.wake(slot);
            }
        }
    }

    // Waits until the threads have done all tasks, and appends these.
    fn wait_for_all<R: Wait>(&self, rt: &R, done: &mut Vec<T>) {
        for _ in 0..LOOKS {
            if self.is_done() {
                break;
            }
            spin_loop();
        }
        let mut tasks = self.tasks.lock(rt);
        for _ in rt.forever() {
            if self.is_done() {
                tasks.give_back(done);
                return;
            }
            tasks = self.of_caller.wait(rt, tasks);
        }
        unreachable!()
    }

    fn is_done(&self) -> bool {
        self.left.load(Ordering::SeqCst) == 0
    }

    // The next task of a slot, for its thread, which waits for it; `None` where it is to end.
    fn next<R: Wait>(&self, rt: &R, slot: SlotIndex) -> Option<T> {
        let condition = self.of_slots.get(slot.index())?;
        let mut tasks = self.tasks.lock(rt);
        for _ in rt.forever() {
            if tasks.ends(slot) {
                return None;
            }
            let task = tasks.begin(slot);
            if task.is_some() {
                return task;
            }
            tasks = condition.wait(rt, tasks);
        }
        unreachable!()
    }

    // Takes a task that a thread has done.
    fn finish<R: Wait>(&self, rt: &R, task: T) {
        let mut tasks = self.tasks.lock(rt);
        tasks.finish(task);
        let left = self.left.fetch_sub(1, Ordering::SeqCst);
        drop(tasks);
        if left == 1 {
            self.of_caller.notify_one();
        }
    }

    // Ends a thread of a slot. Refused: no memory.
    fn end<R: Wait>(&self, rt: &R, slot: SlotIndex) -> Result<(), AllocError> {
        let mut tasks = self.tasks.lock(rt);
        tasks.end(slot)?;
        drop(tasks);
        self.wake(slot);
        Ok(())
    }

    // Ends all threads.
    fn end_all<R: Wait>(&self, rt: &R) {
        let mut tasks = self.tasks.lock(rt);
        tasks.end_all();
        drop(tasks);
        for condition in &self.of_slots {
            condition.notify_all();
        }
    }

    // Wakes the thread of a slot.
    fn wake(&self, slot: SlotIndex) {
        if let Some(condition) = self.of_slots.get(slot.index()) {
            condition.notify_one();
        }
    }
}

// The slots of these tasks.
fn slots_of<T: Task>(tasks: &[T]) -> SlotSet {
    let mut slots = SlotSet::new();
    for task in tasks {
        slots.insert(task.slot());
    }
    slots
}

/// The threads of a run, at most one for each slot beside those that are to end.
#[derive(Drop)]
pub struct Workers<'s, E: 's, R, T: Drop> {
    rt: &'s R,
    alloc: Global,
    scope: &'s Scope<'s, E>,
    shared: Arc<Shared<T>, Global>,
    // The slots that have a thread.
    slots: SlotSet,
}

impl<'s, E: 's, R: Wait, T: Task + Drop> Workers<'s, E, R, T> {
    /// No threads. Refused: no memory.
    pub fn new(
        rt: &'s R,
        alloc: Global,
        scope: &'s Scope<'s, E>,
    ) -> Result<Workers<'s, E, R, T>, AllocError> {
        let shared = Arc::new(alloc, Shared::new(alloc)?)?;
        Ok(Workers {
            rt,
            alloc,
            scope,
            shared,
            slots: SlotSet::new(),
        })
    }

    /// Ends the thread of a slot, where it has one. Refused: no memory.
    pub fn end(&mut self, slot: SlotIndex) -> Result<(), AllocError> {
        if !self.slots.contains(slot) {
            return Ok(());
        }
        self.slots.remove(slot);
        self.shared.end(self.rt, slot)
    }

    /// Ends all threads. The scope waits for them.
    pub fn end_all(&mut self) {
        self.shared.end_all(self.rt);
    }
}

impl<'s, E: 's, R: Threads + Wait + Sync, T: Task + Send + Drop + 's> Workers<'s, E, R, T> {
    /// Does the tasks of a batch, one of each slot, side by side, and gives them back in any order.
    ///
    /// The caller's thread does the first task, and those whose thread can't be made; each other is
    /// done by its slot's thread. Refused: no memory, and then tasks may be lost.
    pub fn do_all(&mut self, batch: Vec<T>) -> Result<Vec<T>, AllocError> {
        let count = batch.len();
        let mut own = Vec::with_capacity(self.alloc, count)?;
        let mut waiting = Vec::with_capacity(self.alloc, count)?;
        for task in batch {
            if own.is_empty() || !self.has_thread(task.slot())? {
                own.push(task)?;
            } else {
                waiting.push(task)?;
            }
        }
        if waiting.is_empty() {
            run_each(self.rt, &mut own);
            return Ok(own);
        }
        let done = Vec::with_capacity(self.alloc, count)?;
        self.shared.ask(self.rt, waiting, done);
        run_each(self.rt, &mut own);
        self.shared.wait_for_all(self.rt, &mut own);
        if own.len() < count {
            return Err(AllocError);
        }
        Ok(own)
    }

    // Whether a slot has a thread, which is made where there is none. Refused: no memory.
    fn has_thread(&mut self, slot: SlotIndex) -> Result<bool, AllocError> {
        if self.slots.contains(slot) {
            return Ok(true);
        }
        let rt = self.rt;
        let shared = Arc::try_clone(&self.shared)?;
        if self
            .scope
            .spawn(move || serve_slot(rt, &*shared, slot))
            .is_err()
        {
            return Ok(false);
        }
        self.slots.insert(slot);
        Ok(true)
    }
}

fn run_each<T: Task, R: Wait>(rt: &R, tasks: &mut [T]) {
    for task in tasks {
        task.run(rt);
    }
}

// Does each task of a slot, in its thread, until that is to end.
fn serve_slot<T: Task + Drop, R: Wait>(rt: &R, shared: &Shared<T>, slot: SlotIndex) {
    for _ in rt.forever() {
        let Some(mut task) = shared.next(rt, slot) else {
            return;
        };
        task.run(rt);
        shared.finish(rt, task);
    }
    unreachable!()
}
