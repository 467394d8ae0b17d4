// Where the threads of a text cross, printed to standard output: which of them do, or the couples of two threads, part by part.
#![tactic(auto)]

ghost use Rattle.std.specs.Prelude.{◌≤◌, ◌≡◌, length};
ghost use mathlib.Core.List.{flatten};
ghost use Rattle.limits.specs.Limits.{max_pair_words};
ghost use Rattle.report_lines.specs.Lines.{refused_line};
ghost use Rattle.couples.specs.Records.{pairs_from};
ghost use Rattle.couple_lines.specs.CoupleLines.{couples_parts, couples_part_room, printed_couples};
ghost use Rattle.crossings_text.specs.AllCrossings.{printed_crossings};
ghost use Rattle.crossings_text.specs.Request.{printed_request};
ghost use Rattle.streams.specs.Printing.{AllPrinted};

use couple_lines::COUPLES_PART_ROOM;
use crossings_text::{CROSSINGS_ROOM, Request};
use limits::MAX_PAIR_WORDS;
use streams::Unwritten;
use text::Refusal;

// Which threads of a text's plan cross, or the line of its refusal.
fn print_crossings(text: &[u8]) -> Result<usize, Unwritten>
    ensures { AllPrinted result (printed_crossings text.now) }
{
    let mut out = [0u8; CROSSINGS_ROOM];
    let n = crossings_text::put_crossings(text, &mut out);
    streams::print_bytes(&out[..n])
}

// The parts of what is printed of two threads with these pairs, in order, up to the last.
fn print_couple_parts(
    first: u64,
    second: u64,
    one: &[u64],
    two: &[u64],
    out: &mut [u8],
) -> Result<usize, Unwritten>
    requires { (length one.now ≤ max_pair_words) × (length two.now ≤ max_pair_words) × (length out.old ≡ couples_part_room) }
    ensures { AllPrinted result (flatten (couples_parts first second (pairs_from one.now) (pairs_from two.now))) }
{
    let mut bytes = 0;
    for k in 0..one.len() / 3 + 2 {
        let n = couple_lines::put_part(first, second, one, two, k, out);
        bytes = streams::print_behind(bytes, &out[..n])?;
    }
    Ok(bytes)
}

// The line of a refusal.
fn print_refused(refusal: Refusal, out: &mut [u8]) -> Result<usize, Unwritten>
    requires { length out.old ≡ couples_part_room }
    ensures { AllPrinted result (refused_line refusal.rule refusal.line) }
{
    let n = report_lines::put_refused(out, 0, refusal.rule, refusal.line);
    streams::print_bytes(&out[..n])
}

// The pairs of the two threads are found once.
fn print_lists(
    text: &[u8],
    first: usize,
    second: usize,
    one: &mut [u64],
    two: &mut [u64],
    out: &mut [u8],
) -> Result<usize, Unwritten>
    requires { (max_pair_words ≤ length one.old) × (max_pair_words ≤ length two.old) × (length out.old ≡ couples_part_room) }
    ensures { AllPrinted result (printed_couples text.now first second) }
{
    match crossing::two_lists(text, first, second, one, two) {
        Ok(lists) => {
            let one = &one[..3 * lists.first];
            let two = &two[..3 * lists.second];
            print_couple_parts(first as u64, second as u64, one, two, out)
        }
        Err(refusal) => print_refused(refusal, out),
    }
}

// The couples of two threads of a text, or the line of the refusal.
fn print_couples(text: &[u8], first: usize, second: usize) -> Result<usize, Unwritten>
    ensures { AllPrinted result (printed_couples text.now first second) }
{
    let mut one = [0u64; MAX_PAIR_WORDS];
    let mut two = [0u64; MAX_PAIR_WORDS];
    let mut out = [0u8; COUPLES_PART_ROOM];
    print_lists(text, first, second, &mut one, &mut two, &mut out)
}

// What is asked for of a text, or the line of the refusal; nothing where nothing is asked for.
#[tactic(auto, unfolding(crossings_text::specs::Request::printed_request))]
pub fn print_request(text: &[u8], request: Option<Request>) -> Result<usize, Unwritten>
    ensures { AllPrinted result (printed_request request text.now) }
{
    match request {
        Some(Request::All) => print_crossings(text),
        Some(Request::Two { first, second }) => {
            print_couples(text, first as usize, second as usize)
        }
        None => Ok(0),
    }
}
