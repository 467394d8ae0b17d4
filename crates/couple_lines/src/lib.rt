// What the program `crossings` prints of two threads: their couples, line by line and part by part into a lent buffer. Each function writes at a place and answers the place behind
// what it wrote; the rest of the buffer is kept.
#![tactic(auto, using(report_lines::proofs::Widths::widths))]

ghost use Rattle.std.specs.Prelude.{◌≡◌, [], ◌++◌, ◌+◌, ◌≤◌, length, get_or};
ghost use Rattle.limits.specs.Limits.{max_pair_words};
ghost use Rattle.laws.specs.Wrote.{Wrote};
ghost use Rattle.report_lines.specs.Lines.{pair_form, pair_form_room};
ghost use Rattle.couples.specs.Couples.{couple, couples_of};
ghost use Rattle.couples.specs.Records.{pairs_from, pair_in};
ghost use Rattle.couple_lines.specs.CoupleLines.{cross_head, cross_open, cross_line, couple_line, crossing_line, couples_part, couples_parts};
ghost use Rattle.couple_lines.specs.CoupleLines.{cross_head_room, cross_line_room, couple_line_room, couples_part_room};

use couples::Pair;
use limits::MAX_PAIRS;
use report_lines::PAIR_FORM_ROOM;

// Bytes that suffice for `(cross T U N`, and with what ends it.
const CROSS_HEAD_ROOM: usize = 7 + 20 + 1 + 20 + 1 + 20;

pub const CROSS_LINE_ROOM: usize = CROSS_HEAD_ROOM + 2;

// Bytes that suffice for a couple.
const COUPLE_LINE_ROOM: usize = 8 + PAIR_FORM_ROOM + 1 + PAIR_FORM_ROOM + 2;

// Bytes that suffice for the couples of one pair.
pub const COUPLES_PART_ROOM: usize = MAX_PAIRS * COUPLE_LINE_ROOM;

// `(cross T U N`
fn put_head(out: &mut [u8], at: usize, t: u64, u: u64, n: u64) -> usize
    requires { at + cross_head_room ≤ length out.old }
    ensures wrote { Wrote out.old out.new at result (cross_head t u n) }
    ensures upper_bound { result ≤ at + cross_head_room }
{
    let i = report_lines::put_numbered(out, at, b"(cross ", t);
    let j = report_lines::put_numbered(out, i, b" ", u);
    report_lines::put_numbered(out, j, b" ", n)
}

// The same with its line end, at the start.
fn put_open(out: &mut [u8], t: u64, u: u64, n: u64) -> usize
    requires { cross_line_room ≤ length out.old }
    ensures { Wrote out.old out.new 0 result (cross_open t u n) }
{
    let i = put_head(out, 0, t, u, n);
    report_lines::put_text(out, i, b"\n")
}

// `(cross T U N)`
pub fn put_cross(out: &mut [u8], at: usize, t: u64, u: u64, n: u64) -> usize
    requires { at + cross_line_room ≤ length out.old }
    ensures wrote { Wrote out.old out.new at result (cross_line t u n) }
    ensures upper_bound { result ≤ at + cross_line_room }
{
    let i = put_head(out, at, t, u, n);
    report_lines::put_text(out, i, b")\n")
}

// A pair and what stands before it.
fn put_behind(out: &mut [u8], at: usize, before: &[u8], pair: Pair) -> usize
    requires { at + length before.now + pair_form_room ≤ length out.old }
    ensures wrote { Wrote out.old out.new at result (before.now ++ pair_form (pair_in pair)) }
    ensures upper_bound { result ≤ at + length before.now + pair_form_room }
{
    let i = report_lines::put_text(out, at, before);
    report_lines::put_pair_form(out, i, pair.mask, pair.code)
}

// `(couple (pair L ..) (pair L ..))`
fn put_couple(out: &mut [u8], at: usize, v: Pair, w: Pair) -> usize
    requires { at + couple_line_room ≤ length out.old }
    ensures wrote { Wrote out.old out.new at result (couple_line (couple (pair_in v) (pair_in w))) }
    ensures upper_bound { result ≤ at + couple_line_room }
{
    let i = put_behind(out, at, b"(couple ", v);
    let j = put_behind(out, i, b" ", w);
    report_lines::put_text(out, j, b")\n")
}

// The line of a couple where the two pairs cross, and else nothing.
fn put_crossing(out: &mut [u8], at: usize, v: Pair, w: Pair) -> usize
    requires { at + couple_line_room ≤ length out.old }
    ensures wrote { Wrote out.old out.new at result (crossing_line (pair_in v) (pair_in w)) }
    ensures upper_bound { result ≤ at + couple_line_room }
{
    if couples::cross(v, w) {
        return put_couple(out, at, v, w);
    }
    at
}

// The lines of the couples of one pair with those of a list.
fn put_couples(v: Pair, others: &[u64], out: &mut [u8]) -> usize
    requires { (length others.now ≤ max_pair_words) × (couples_part_room ≤ length out.old) }
    ensures { Wrote out.old out.new 0 result (couples_part (pairs_from others.now) (pair_in v)) }
{
    let mut i: usize = 0;
    for k in 0..others.len() / 3 {
        let w = couples::pair_at(others, k);
        i = put_crossing(out, i, v, w);
    }
    i
}

// How many couples the pairs of two lists have.
fn count_couples(one: &[u64], two: &[u64]) -> usize
    requires { (length one.now ≤ max_pair_words) × (length two.now ≤ max_pair_words) }
    ensures { result ≡ length (couples_of (pairs_from one.now) (pairs_from two.now)) }
{
    couples::find_couples(one, two, &mut [], &mut [])
}

// Part k of what is printed of two threads with these pairs: how many bytes of it stand at the start of `out`, 0 past the last part.
// Kept: 0 is no mark of the end. It is the length of an empty part, as of a pair that crosses none, and `put_part` promises the part of `couples_parts` there.
pub fn put_part(
    first: u64,
    second: u64,
    one: &[u64],
    two: &[u64],
    k: usize,
    out: &mut [u8],
) -> usize
    requires { (length one.now ≤ max_pair_words) × (length two.now ≤ max_pair_words) × (couples_part_room ≤ length out.old) }
    ensures { Wrote out.old out.new 0 result (get_or (couples_parts first second (pairs_from one.now) (pairs_from two.now)) k []) }
{
    if k == 0 {
        let n = count_couples(one, two);
        return put_open(out, first, second, n as u64);
    }
    if k <= one.len() / 3 {
        let v = couples::pair_at(one, k - 1);
        return put_couples(v, two, out);
    }
    if k == one.len() / 3 + 1 {
        return report_lines::put_text(out, 0, b")\n");
    }
    0
}
