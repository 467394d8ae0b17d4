// What the program `crossings` prints of a text when it is asked for no two threads, which of them cross; and what its arguments ask for.
#![tactic(auto)]

ghost use Rattle.std.specs.Prelude.{◌≡◌, ◌+◌, ◌*◌, ◌≤◌, ◌<◌, length};
ghost use Rattle.std.proofs.Math.Option.{none};
ghost use Rattle.laws.specs.Wrote.{Wrote};
ghost use Rattle.plan.specs.Rules.{plan_of, crossings_refusal};
ghost use Rattle.couples.specs.Couples.{couples};
ghost use Rattle.couple_lines.specs.CoupleLines.{cross_line_room};
ghost use Rattle.crossings_text.specs.AllCrossings.{cross_entry, cross_row, cross_rows, cross_number, crossings_of, printed_crossings, AcceptedThreads};
ghost use Rattle.crossings_text.specs.AllCrossings.{cross_row_room, crossings_room};
ghost use Rattle.crossings_text.specs.Request.{most_asked, next_digit, thread_number, request_of};

use couple_lines::CROSS_LINE_ROOM;
use limits::{MAX_FORMS, MAX_THREADS};

// Bytes that suffice for the lines of a thread of the table, and for the table.
const CROSS_ROW_ROOM: usize = MAX_THREADS * CROSS_LINE_ROOM;

pub const CROSSINGS_ROOM: usize = 11 + MAX_THREADS * CROSS_ROW_ROOM + 2;

// The most that a thread's number counts as.
const MOST_ASKED: u64 = 999;

// What the program is asked for: which threads cross, or the couples of two threads.
#[derive(Clone, Copy)]
pub enum Request {
    All,
    Two { first: u64, second: u64 },
}

// ---- which threads cross

// How many couples two threads of a text have, where nothing is refused.
fn count_crossings(text: &[u8], t: usize, u: usize) -> u64
    ensures { crossings_refusal text.now t u ≡ none → result ≡ length (couples (plan_of text.now) t u) }
{
    let mut none = [0u64; 0];
    crossing::crossings(text, t, u, &mut none).unwrap_or(0) as u64
}

// The lines of the thread t with each above it, of n threads.
fn put_row(text: &[u8], n: usize, t: usize, out: &mut [u8], at: usize) -> usize
    requires { AcceptedThreads text.now n × (t < n) × (at + cross_row_room ≤ length out.old) }
    ensures wrote { Wrote out.old out.new at result (cross_row (cross_number (plan_of text.now)) t n) }
    ensures upper_bound { result ≤ at + cross_row_room }
{
    let mut i = at;
    for u in t + 1..n {
        let number = count_crossings(text, t, u);
        i = couple_lines::put_cross(out, i, t as u64, u as u64, number);
    }
    i
}

// The lines of all threads, of which there are n.
fn put_rows(text: &[u8], n: usize, out: &mut [u8], at: usize) -> usize
    requires { AcceptedThreads text.now n × (at + n * cross_row_room ≤ length out.old) }
    ensures wrote { Wrote out.old out.new at result (cross_rows (cross_number (plan_of text.now)) n n) }
    ensures upper_bound { result ≤ at + n * cross_row_room }
{
    let mut i = at;
    for t in 0..n {
        i = put_row(text, n, t, out, i);
    }
    i
}

// The table: `(crossings`, the lines, `)`.
fn put_table(text: &[u8], n: usize, out: &mut [u8]) -> usize
    requires { AcceptedThreads text.now n × (crossings_room ≤ length out.old) }
    ensures { Wrote out.old out.new 0 result (crossings_of (plan_of text.now)) }
{
    let i = report_lines::put_text(out, 0, b"(crossings\n");
    let j = put_rows(text, n, out, i);
    report_lines::put_text(out, j, b")\n")
}

// What is printed of a text.
pub fn put_crossings(text: &[u8], out: &mut [u8]) -> usize
    requires { crossings_room ≤ length out.old }
    ensures { Wrote out.old out.new 0 result (printed_crossings text.now) }
{
    let mut table = [0u64; MAX_FORMS];
    match checked::read_text(text, &mut table) {
        Ok(plan) => put_table(text, plan.space.threads, out),
        Err(refusal) => report_lines::put_refused(out, 0, refusal.rule, refusal.line),
    }
}

// ---- what is asked for

// A digit behind those before it.
#[tactic(auto, unfolding(crate::specs::Request::next_digit))]
fn next_digit(n: u64, b: u8) -> u64
    requires { (n ≤ most_asked) × (48 ≤ b) }
    ensures { (result ≡ next_digit n b) × (result ≤ most_asked) }
{
    (10 * n + u64::from(b - b'0')).min(MOST_ASKED)
}

// The number of an argument, where every byte of it is a digit and there is one.
fn read_thread(argument: &[u8]) -> Option<u64>
    ensures { result ≡ thread_number argument.now }
{
    if argument.is_empty() {
        return None;
    }
    let mut n = 0;
    for &b in argument {
        if !b.is_ascii_digit() {
            return None;
        }
        n = next_digit(n, b);
    }
    Some(n)
}

// What the program is asked for by so many arguments, of which these are the first two.
#[tactic(auto, unfolding(crate::specs::Request::request_of))]
pub fn request_of(arguments: usize, first: &[u8], second: &[u8]) -> Option<Request>
    ensures { result ≡ request_of arguments first.now second.now }
{
    match arguments {
        0 => Some(Request::All),
        2 => Some(Request::Two {
            first: read_thread(first)?,
            second: read_thread(second)?,
        }),
        _ => None,
    }
}
