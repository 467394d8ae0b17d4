// The lines of an accepted plan text. A place is the byte at which a line starts, before its spaces; the text's length is the place behind the last line.
ghost use Rattle.std.specs.Prelude.{◌+◌, ◌-◌, ◌<◌, ◌≤◌, length};
ghost use Rattle.std.specs.Iterator.{at_most};

// How a lock is taken.
#[derive(Clone, Copy, PartialEq, Eq)]
pub enum Way {
    Hold,
    Share,
}

// What a line is: a form; passed over, as it is empty, all spaces or a remark; or another text, or none.
#[derive(Clone, Copy, PartialEq, Eq)]
pub enum Line {
    Plan,
    Proc,
    Thread,
    Close,
    Skip,
    Call,
    Take(Way),
    Loop,
    Either,
    One,
    Two,
    PassedOver,
    Other,
}

impl Line {
    // What a line is by its bytes behind the spaces. A form that starts with a bracket is told by its second byte, and by the third where two have the same.
    fn of(bytes: &[u8]) -> Line {
        match bytes {
            [] | [b'\n' | b';', ..] => Line::PassedOver,
            [b')', ..] => Line::Close,
            [_, b'p', b'r', ..] => Line::Proc,
            [_, b'p', ..] => Line::Plan,
            [_, b's', b'h', ..] => Line::Take(Way::Share),
            [_, b's', ..] => Line::Skip,
            [_, b't', b'h', ..] => Line::Thread,
            [_, b't', ..] => Line::Two,
            [_, b'c', ..] => Line::Call,
            [_, b'h', ..] => Line::Take(Way::Hold),
            [_, b'l', ..] => Line::Loop,
            [_, b'e', ..] => Line::Either,
            [_, b'o', ..] => Line::One,
            _ => Line::Other,
        }
    }
}

// The line at a place.
pub fn line_at(text: &[u8], at: usize) -> Line {
    match text.get(at..) {
        None | Some([]) => Line::Other,
        Some(rest) => {
            let spaces = rest.iter().take_while(|b| **b == b' ').count();
            Line::of(&rest[spaces..])
        }
    }
}

// The place behind the next such byte, or the text's end.
pub fn after(text: &[u8], at: usize, byte: u8) -> usize
    requires { at < length text.now }
    ensures { (at < result) × (result ≤ length text.now) }
{
    match text[at..].iter().position(|b| *b == byte) {
        Some(n) => at + n + 1,
        None => text.len(),
    }
}

// The place behind a line.
pub fn next_line(text: &[u8], at: usize) -> usize
    requires { at < length text.now }
    ensures { (at < result) × (result ≤ length text.now) }
{
    after(text, at, b'\n')
}

// The places of the lines from a place on.
#[derive(Clone, Copy)]
pub struct Places<'a> {
    text: &'a [u8],
    at: usize,
}

impl Iterator for Places<'_> {
    type Item = usize;

    ghost remaining = { λ s. at_most (length s.text.now - s.at) };

    fn next(&mut self) -> Option<usize> {
        let at = self.at;
        if self.text.len() <= at {
            return None;
        }
        self.at = next_line(self.text, at);
        Some(at)
    }
}

impl<'a> Places<'a> {
    // The places of all lines.
    pub fn of(text: &'a [u8]) -> Places<'a> {
        Places { text, at: 0 }
    }
}

// The place of the next line that is not passed over, or the text's end.
pub fn behind(text: &[u8], at: usize) -> usize {
    let mut others = Places { text, at };
    others.next();
    others
        .find(|i| line_at(text, *i) != Line::PassedOver)
        .unwrap_or(text.len())
}

// One digit more behind a number of three at most; another byte changes nothing.
fn append(n: usize, b: u8) -> usize {
    match b {
        b'0'..=b'9' => n % 100 * 10 + usize::from(b - b'0'),
        _ => n,
    }
}

// The number in a line.
pub fn number(text: &[u8], at: usize) -> usize {
    match text.get(at..) {
        None => 0,
        Some(rest) => rest
            .iter()
            .take_while(|b| **b != b'\n')
            .fold(0, |n, b| append(n, *b)),
    }
}

// The place of such a line before which k others are.
pub fn find(text: &[u8], wanted: Line, k: usize) -> Option<usize> {
    Places::of(text)
        .filter(|at| line_at(text, *at) == wanted)
        .nth(k)
}

// The place at which the block of a procedure starts, or the text's end where there is no such procedure.
pub fn body(text: &[u8], proc: usize) -> usize {
    find(text, Line::Proc, proc).map_or(text.len(), |at| behind(text, at))
}

// How many brackets are open behind a line.
fn nested(depth: usize, line: Line) -> usize
    ensures { result ≤ depth + 1 }
{
    match line {
        Line::Close => depth.saturating_sub(1),
        Line::PassedOver | Line::Skip | Line::Call | Line::Thread => depth,
        _ => depth.saturating_add(1),
    }
}

// The place of the line that closes the bracket opened at `at`.
pub fn closing(text: &[u8], at: usize) -> usize {
    let mut depth = 0;
    for i in (Places { text, at }) {
        depth = nested(depth, line_at(text, i));
        if depth == 0 {
            return i;
        }
    }
    text.len()
}
