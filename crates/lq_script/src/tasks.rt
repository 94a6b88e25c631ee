//! The tasks of a batch, from asked for to done. No clause says what these calls do.
use lq_desk_sub::SlotIndex;
use std::alloc::AllocError;
use std::sync::Wait;

/// A task, which the thread of its slot is given, carries out and gives back.
pub trait Task {
    /// The slot whose thread it is for.
    fn slot(&self) -> SlotIndex;

    /// Carries the task out.
    fn run<R: Wait>(&mut self, rt: &R);
}

/// The tasks of a batch that no thread has begun, and those that threads have done.
#[derive(Drop)]
pub struct Tasks<T: Drop> {
    waiting: Vec<T>,
    done: Vec<T>,
    // The numbers of the slots whose threads are to end, each once for each thread.
    ending: Vec<u64>,
    is_over: bool,
}

impl<T: Task + Drop> Tasks<T> {
    /// No tasks. The lists are empty.
    pub fn new(waiting: Vec<T>, done: Vec<T>, ending: Vec<u64>) -> Tasks<T> {
        Tasks {
            waiting,
            done,
            ending,
            is_over: false,
        }
    }

    /// Takes the tasks of a batch, and an empty list with room for those that threads do.
    pub fn ask(&mut self, waiting: Vec<T>, done: Vec<T>) {
        self.waiting = waiting;
        self.done = done;
    }

    /// The task of a slot, for its thread; `None` where none waits.
    pub fn begin(&mut self, slot: SlotIndex) -> Option<T> {
        let at = slot.index();
        let index = self.waiting.iter().position(|t| t.slot().index() == at)?;
        if index >= self.waiting.len() {
            return None;
        }
        Some(self.waiting.swap_remove(index))
    }

    /// Takes a task that a thread has done. It is lost where there is no room for it.
    pub fn finish(&mut self, task: T) {
        let _ = self.done.push(task);
    }

    /// Appends the tasks that threads have done to these. One is lost where there is no room.
    pub fn give_back(&mut self, tasks: &mut Vec<T>) {
        for _ in 0..self.done.len() {
            if let Some(task) = self.done.pop() {
                let _ = tasks.push(task);
            }
        }
    }

    /// Asks one thread of this slot to end. Refused: no memory.
    pub fn end(&mut self, slot: SlotIndex) -> Result<(), AllocError> {
        self.ending.push(slot.number())?;
        Ok(())
    }

    /// All threads are to end.
    pub fn end_all(&mut self) {
        self.is_over = true;
    }

    /// Whether the calling thread, which serves this slot, is to end. If so, it has to.
    pub fn ends(&mut self, slot: SlotIndex) -> bool {
        if self.is_over {
            return true;
        }
        let number = slot.number();
        match self.ending.iter().position(|other| *other == number) {
            Some(index) if index < self.ending.len() => {
                self.ending.swap_remove(index);
                true
            }
            _ => false,
        }
    }
}
