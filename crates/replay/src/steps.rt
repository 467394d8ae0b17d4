// The steps of one thread by itself, written a second time from 01 over the plan's text.
use super::lines::{Line, Way, behind, body, closing, line_at, number};
use super::thread::{LEVELS, Thread};

// Begins a hold or a share: its count up by 1.
fn begin(text: &[u8], thread: &mut Thread, at: usize, way: Way) -> bool {
    thread.recount(number(text, at), way, |n| n.wrapping_add(1)) && thread.enter(behind(text, at))
}

// At a bracket that closes, only the end of a hold or of a share is a step: its count down by 1.
fn at_end(text: &[u8], thread: &mut Thread, at: usize) -> bool {
    let line = thread.innermost();
    let Line::Take(way) = line_at(text, line) else {
        return false;
    };
    thread.recount(number(text, line), way, |n| n.wrapping_sub(1)) && thread.leave(behind(text, at))
}

// A loop's head: 1 enters, 2 leaves.
fn at_loop(text: &[u8], thread: &mut Thread, at: usize, choice: u16) -> bool {
    match choice {
        1 => thread.enter(behind(text, at)),
        2 => thread.go(behind(text, closing(text, at))),
        _ => false,
    }
}

// An either, whose `(one` is the next form: 1 chooses one, 2 chooses two.
fn at_either(text: &[u8], thread: &mut Thread, at: usize, choice: u16) -> bool {
    let one = behind(text, at);
    match choice {
        1 => thread.enter(behind(text, one)),
        2 => thread.enter(behind(text, behind(text, closing(text, one)))),
        _ => false,
    }
}

// The steps that have no choice.
fn at_other(text: &[u8], thread: &mut Thread, at: usize, line: Line) -> bool {
    match line {
        Line::Skip => thread.go(behind(text, at)),
        Line::Call => thread.enter(body(text, number(text, at))),
        Line::Take(way) => begin(text, thread, at, way),
        Line::Close => at_end(text, thread, at),
        _ => false,
    }
}

// One step of a thread by itself: whether its remainder offers the choice.
pub fn step(text: &[u8], thread: &mut Thread, choice: u16) -> bool {
    let at = thread.place();
    match line_at(text, at) {
        Line::Loop => at_loop(text, thread, at, choice),
        Line::Either => at_either(text, thread, at, choice),
        line => choice == 0 && at_other(text, thread, at, line),
    }
}

// From the end of a block back to a loop's head, or behind an either or a call: whether there is a way that is no step.
fn go_on(text: &[u8], thread: &mut Thread) -> bool {
    let at = thread.innermost();
    match line_at(text, at) {
        Line::Loop => thread.leave(at),
        Line::Either => thread.leave(behind(text, closing(text, at))),
        Line::Call => thread.leave(behind(text, at)),
        _ => false,
    }
}

// Sequencing costs no step.
pub fn sequence(text: &[u8], thread: &mut Thread) {
    for _ in 0..LEVELS {
        if line_at(text, thread.place()) != Line::Close || !go_on(text, thread) {
            return;
        }
    }
}
