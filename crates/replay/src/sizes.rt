// The sum of the threads' sizes, from the plan's text.
// A pass over the text settles the sizes of the procedures whose callees have theirs settled. No procedure reaches itself, so as many passes as procedures settle all, in whatever order they stand.
use super::lines::{Line, Places, line_at, number};
use limits::MAX_PROCS;

// The sizes, as far as they are settled: that of procedure p has place p + 1, behind what stands before the first.
#[derive(Clone, Copy)]
struct Sizes([usize; MAX_PROCS + 1]);

impl Sizes {
    // The size of a procedure.
    fn size(&self, proc: usize) -> usize {
        self.0.get(proc.saturating_add(1)).copied().unwrap_or(0)
    }

    // What a line adds to the size of its procedure.
    fn cost(&self, text: &[u8], at: usize) -> usize {
        match line_at(text, at) {
            Line::Skip | Line::Either => 1,
            Line::Take(_) | Line::Loop => 2,
            Line::Call => self.size(number(text, at)).wrapping_add(1),
            _ => 0,
        }
    }

    // A pass over the text. No procedure calls itself, so none reads a size that is being added up.
    fn pass(&mut self, text: &[u8]) {
        let mut begun: usize = 0;
        for at in Places::of(text) {
            let cost = self.cost(text, at);
            let first = line_at(text, at) == Line::Proc;
            if first {
                begun = begun.saturating_add(1);
            }
            if let Some(size) = self.0.get_mut(begun) {
                *size = if first { 0 } else { size.wrapping_add(cost) };
            }
        }
    }
}

// The sum.
pub fn sum(text: &[u8]) -> usize {
    let mut sizes = Sizes([0; MAX_PROCS + 1]);
    for _ in 0..MAX_PROCS {
        sizes.pass(text);
    }
    Places::of(text)
        .filter(|at| line_at(text, *at) == Line::Thread)
        .fold(
            0,
            |sum: usize, at| sum.wrapping_add(sizes.size(number(text, at))),
        )
}
