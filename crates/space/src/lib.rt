// The space that a schedule of a plan needs: the sum of its threads' sizes, as an answer, as a number for C, and as a slip with the size of each thread.
#![tactic(auto)]

ghost use Rattle.std.specs.Prelude.{◌++◌, ◌≡◌, ◌+◌, ◌*◌, ◌≤◌, length, get_or};
ghost use Rattle.limits.specs.Limits.{max_threads};
ghost use Rattle.laws.specs.Wrote.{Wrote};
ghost use Rattle.space.specs.Slip.{Needs, NeedsNumber, size_line, sum_line, size_lines, printed_slip, size_line_room, sum_line_room, slip_room};

use limits::{MAX_FORMS, MAX_THREADS};
use sizes::Space;
use text::Refusal;

// Bytes that suffice for the line of a thread.
const SIZE_LINE_ROOM: usize = 6 + 20 + 1 + 20 + 2;

// Bytes that suffice for a slip: a line for each thread, and the line of the sum.
pub const SLIP_ROOM: usize = MAX_THREADS * SIZE_LINE_ROOM + 5 + 20 + 2;

// How many entries a schedule of a text's plan needs.
pub fn needed_entries(text: &[u8]) -> Result<usize, Refusal>
    ensures { Needs text.now result }
{
    let mut table = [0u64; MAX_FORMS];
    let plan = checked::read_text(text, &mut table)?;
    Ok(plan.space.sum)
}

// The same with the answer as a number.
pub fn space_number(text: &[u8]) -> u64
    ensures { NeedsNumber text.now result }
{
    answers::counted_number(needed_entries(text))
}

// ---- the slip

// A thread and its size.
fn put_size(out: &mut [u8], at: usize, thread: u64, size: u64) -> usize
    requires { at + size_line_room ≤ length out.old }
    ensures wrote { Wrote out.old out.new at result (size_line thread size) }
    ensures upper_bound { result ≤ at + size_line_room }
{
    let i = report_lines::put_numbered(out, at, b"(size ", thread);
    let j = report_lines::put_numbered(out, i, b" ", size);
    report_lines::put_text(out, j, b")\n")
}

// The sum.
fn put_sum(out: &mut [u8], at: usize, sum: u64) -> usize
    requires { at + sum_line_room ≤ length out.old }
    ensures { Wrote out.old out.new at result (sum_line sum) }
{
    let i = report_lines::put_numbered(out, at, b"(sum ", sum);
    report_lines::put_text(out, i, b")\n")
}

// The lines of the threads that have these sizes.
fn put_sizes(out: &mut [u8], sizes: &[u64]) -> usize
    requires { length sizes.now * size_line_room ≤ length out.old }
    ensures wrote { Wrote out.old out.new 0 result (size_lines (λ t. get_or sizes.now t 0) (length sizes.now)) }
    ensures upper_bound { result ≤ length sizes.now * size_line_room }
{
    let mut i = 0;
    for (t, &size) in sizes.iter().enumerate() {
        i = put_size(out, i, t as u64, size);
    }
    i
}

// The lines of the threads, then the line of the sum.
fn put_space(out: &mut [u8], space: Space) -> usize
    requires { (space.threads ≤ max_threads) × (max_threads ≡ length space.each) × (slip_room ≤ length out.old) }
    ensures { Wrote out.old out.new 0 result (size_lines (λ t. get_or space.each t 0) space.threads ++ sum_line space.sum) }
{
    let i = put_sizes(out, &space.each[..space.threads]);
    put_sum(out, i, space.sum as u64)
}

// What the program prints of a text.
pub fn put_slip(text: &[u8], out: &mut [u8]) -> usize
    requires { slip_room ≤ length out.old }
    ensures { Wrote out.old out.new 0 result (printed_slip text.now) }
{
    let mut table = [0u64; MAX_FORMS];
    match checked::read_text(text, &mut table) {
        Ok(plan) => put_space(out, plan.space),
        Err(refusal) => report_lines::put_refused(out, 0, refusal.rule, refusal.line),
    }
}
