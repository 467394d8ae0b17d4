// One thread of the gateway: how deep it is in the plan and where, and its counts of locks.
ghost use Rattle.std.specs.Prelude.{◌<◌};
ghost use Rattle.replay.specs.declared.thread.TheConstants.{LEVELS};

use super::lines::Way;
use limits::{LOCK_COUNT, SIZE_ROOM};

// A thread is in at most as many holds, shares, loops, eithers and calls as its size says.
pub const LEVELS: usize = SIZE_ROOM + 1;

// A place for each depth: the last is where the thread's remainder starts, those before it are of the holds, shares, loops, eithers and calls that it is in, and the first is the
// text's first line.
#[derive(Clone, Copy)]
pub struct Thread {
    depth: usize,
    held: [usize; LOCK_COUNT],
    shared: [usize; LOCK_COUNT],
    places: [usize; LEVELS],
    ghost within: { depth < LEVELS },
}

impl Thread {
    // At the text's first line, with no lock.
    pub fn new() -> Thread {
        Thread {
            depth: 0,
            held: [0; LOCK_COUNT],
            shared: [0; LOCK_COUNT],
            places: [0; LEVELS],
        }
    }

    // The place of its remainder.
    pub fn place(&self) -> usize {
        self.places[self.depth]
    }

    // The line of the innermost hold, share, loop, either or call that it is in.
    pub fn innermost(&self) -> usize {
        if self.depth == 0 {
            0
        } else {
            self.places[self.depth - 1]
        }
    }

    // Puts it at a place, at a depth below the limit.
    fn put(&mut self, depth: usize, at: usize) -> bool {
        if LEVELS <= depth {
            return false;
        }
        self.places[depth] = at;
        self.depth = depth;
        true
    }

    // Goes to a place behind the line at hand.
    pub fn go(&mut self, at: usize) -> bool {
        self.put(self.depth, at)
    }

    // Goes to a place inside the line at hand.
    pub fn enter(&mut self, at: usize) -> bool {
        self.put(self.depth + 1, at)
    }

    // Goes to a place behind the innermost line, or back to it.
    pub fn leave(&mut self, at: usize) -> bool {
        if self.depth == 0 {
            return false;
        }
        self.put(self.depth - 1, at)
    }

    // The count of a lock, 0 where there is no such lock.
    fn count(&self, lock: usize, way: Way) -> usize {
        let counts = match way {
            Way::Hold => &self.held,
            Way::Share => &self.shared,
        };
        counts.get(lock).copied().unwrap_or(0)
    }

    // Whether it holds a lock.
    pub fn holds(&self, lock: usize) -> bool {
        0 < self.count(lock, Way::Hold)
    }

    // Whether it has a lock in any way.
    pub fn has(&self, lock: usize) -> bool {
        self.holds(lock) || 0 < self.count(lock, Way::Share)
    }

    // Changes the count of a lock: whether there is such a lock.
    pub fn recount<F: FnOnce(usize) -> usize>(&mut self, lock: usize, way: Way, change: F) -> bool
        requires { F.IsAlwaysCallable change }
    {
        if LOCK_COUNT <= lock {
            return false;
        }
        match way {
            Way::Hold => self.held[lock] = change(self.held[lock]),
            Way::Share => self.shared[lock] = change(self.shared[lock]),
        }
        true
    }
}
