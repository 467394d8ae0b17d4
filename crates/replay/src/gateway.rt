// The gateway: a plan's text and the state of its threads, which steps are permitted, and the run that a schedule is.
use super::lines::{Line, body, find, number};
use super::steps::{sequence, step};
use super::thread::Thread;
use limits::{LOCK_COUNT, MAX_THREADS};
use std::array;

// An entry of a schedule is the thread and this times the choice.
pub const CHOICE: u16 = 8;

// A plan's text, and its threads.
#[derive(Clone, Copy)]
pub struct Gateway<'a> {
    pub(crate) text: &'a [u8],
    pub(crate) threads: [Thread; MAX_THREADS],
}

// A thread that is there at its procedure's block. An absent one stays at the text's first line, where no step is.
fn started(text: &[u8], t: usize) -> Thread {
    let mut thread = Thread::new();
    if let Some(line) = find(text, Line::Thread, t) {
        thread.enter(body(text, number(text, line)));
    }
    thread
}

impl<'a> Gateway<'a> {
    // The start of a plan.
    pub fn start(text: &'a [u8]) -> Gateway<'a> {
        Gateway {
            text,
            threads: array::from_fn(|t| started(text, t)),
        }
    }

    // Whether no thread holds a lock that another has.
    fn apart_at(&self, lock: usize) -> bool {
        let had = self
            .threads
            .iter()
            .filter(|thread| thread.has(lock))
            .count();
        had < 2 || !self.threads.iter().any(|thread| thread.holds(lock))
    }

    // Whether no lock is held by one thread while another has it in any way.
    fn apart(&self) -> bool {
        (0..LOCK_COUNT).all(|lock| self.apart_at(lock))
    }

    // Takes an entry of a schedule: whether it is a step that its thread's remainder offers and that is permitted.
    pub fn take(&mut self, entry: u16) -> bool {
        let Some(thread) = self.threads.get_mut(usize::from(entry % CHOICE)) else {
            return false;
        };
        if !step(self.text, thread, entry / CHOICE) {
            return false;
        }
        sequence(self.text, thread);
        self.apart()
    }

    // Takes a schedule's entries up to the first that cannot be taken: how many.
    pub fn run(&mut self, schedule: &[u16]) -> usize {
        for (i, entry) in schedule.iter().enumerate() {
            if !self.take(*entry) {
                return i;
            }
        }
        schedule.len()
    }
}
