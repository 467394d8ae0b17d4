// The verdict that a report prints, taken from its lines as they stand: `(free)`, or `(deadlock` with the threads of `(stuck T ..)` and a step for each `(step T C)`.
use super::gateway::{CHOICE, Gateway};

// What was read so far: how many lines `(free)` and `(deadlock` there are, the threads that are named stuck, as a mask, how many steps were taken, and whether all lines of a
// deadlock were right: the stuck threads once and ascending, each step permitted.
#[derive(Clone, Copy)]
pub struct Told {
    pub free: usize,
    pub deadlocks: usize,
    pub named: u64,
    pub steps: usize,
    pub right: bool,
}

// The set of the thread that a blank and a digit are.
fn thread_set(blank: u8, digit: u8) -> Option<u64> {
    match (blank, digit) {
        (b' ', b'0'..=b'5') => Some(1 << (digit - b'0')),
        _ => None,
    }
}

// The threads in a part of a line, each a blank and a digit, ascending.
fn threads_in(part: &[u8]) -> Option<u64> {
    let (pairs, rest) = part.as_chunks::<2>();
    if !rest.is_empty() {
        return None;
    }
    let mut set = 0;
    for [blank, digit] in pairs {
        let next = thread_set(*blank, *digit)?;
        if next <= set {
            return None;
        }
        set |= next;
    }
    Some(set)
}

// The threads that a line `(stuck T ..)` names.
fn named_in(line: &[u8]) -> Option<u64> {
    threads_in(line.strip_prefix(b"(stuck")?.strip_suffix(b")\n")?)
}

// The entry of a line `(step T C)`, each number a digit.
fn entry_in(line: &[u8]) -> Option<u16> {
    match line.strip_prefix(b"(step ")?.strip_suffix(b")\n")? {
        [thread @ b'0'..=b'5', b' ', choice @ b'0'..=b'2'] => {
            Some(u16::from(thread - b'0') + CHOICE * u16::from(choice - b'0'))
        }
        _ => None,
    }
}

impl Told {
    // Before the first line.
    pub fn nothing() -> Told {
        Told {
            free: 0,
            deadlocks: 0,
            named: 0,
            steps: 0,
            right: true,
        }
    }

    // The threads of a line `(stuck T ..)`, which stands once and before the steps.
    fn read_stuck(&mut self, line: &[u8]) {
        let first = self.named == 0 && self.steps == 0;
        self.named = named_in(line).unwrap_or(0);
        self.right = self.right && first && self.named != 0;
    }

    // A step of a line `(step T C)`. Behind one that is not right none is taken.
    fn read_step(&mut self, line: &[u8], gateway: &mut Gateway) {
        if self.right {
            self.right = entry_in(line).is_some_and(|entry| gateway.take(entry));
            self.steps = self.steps.wrapping_add(1);
        }
    }

    // Reads a line; others than these are passed over.
    fn read_line(&mut self, line: &[u8], gateway: &mut Gateway) {
        if line.starts_with(b"(free") {
            self.free = self.free.wrapping_add(1);
        } else if line.starts_with(b"(deadlock") {
            self.deadlocks = self.deadlocks.wrapping_add(1);
        } else if line.starts_with(b"(stuck") {
            self.read_stuck(line);
        } else if line.starts_with(b"(step") {
            self.read_step(line, gateway);
        }
    }

    // Reads the lines of a part of a report, in the state that those before it left.
    pub fn read_lines(&mut self, part: &[u8], gateway: &mut Gateway) {
        for line in part.split_inclusive(|b| *b == b'\n') {
            self.read_line(line, gateway);
        }
    }
}
