// The lines of the report into a lent buffer, one behind another. Each function writes at a place and answers the place behind what it wrote; the rest of the buffer
// is kept.
// Kept: the buffer and the place go through all writers by hand. A struct that has both holds a `&mut`, so each of its methods would have to promise that the `ghost_name` and
// the length stay, which the check knows of a slice that is lent (tried: the goals on room then lack the length), and the crates above lend a slice.
#![tactic(auto, using(crate::proofs::Widths::widths))]

ghost use Rattle.std.specs.Prelude.{◌++◌, ◌≡◌, ◌+◌, ◌*◌, ◌<◌, ◌≤◌, length};
ghost use Rattle.std.specs.Iterator.{YieldsFirst, item_count};
ghost use Rattle.limits.specs.Limits.{lock_count, claim_count};
ghost use Rattle.laws.specs.Wrote.{Wrote};
ghost use Rattle.columns.specs.Columns.{pair_number, pair_numbers};
ghost use Rattle.report_lines.specs.Lines.{digits, members, behind_blank, proc_open, refused_line, wanted_text, claimed_text, lock_text, had_locks, had_text, pair_form, pair_line, stuck_line, step_line};
ghost use Rattle.report_lines.specs.Lines.{lines_of, proc_lines, deadlock_lines};
ghost use Rattle.report_lines.specs.Lines.{proc_open_room, refused_line_room, wanted_room, pair_form_room, pair_line_room, stuck_line_room, step_line_room, proc_lines_room, deadlock_room};

use itoa::Buffer;
use limits::LOCK_COUNT;

// Bytes that suffice for `(pair L ..)`, whatever the pair: a lock has at most 2 digits, and there is room for 32 had both ways, each with a blank, and shared ones with an `s`.
pub const PAIR_FORM_ROOM: usize = 6 + 2 + 1 + LOCK_COUNT * 7 + 1;

// A text as it is.
// Kept: byte by byte. `copy_from_slice` calls `memmove`, and the library for C is to need no more than `memcpy` and `memset` from outside.
pub fn put_text(out: &mut [u8], at: usize, text: &[u8]) -> usize
    requires { at + length text.now ≤ length out.old }
    ensures { Wrote out.old out.new at result text.now }
{
    for (i, &byte) in text.iter().enumerate() {
        out[at + i] = byte;
    }
    at + text.len()
}

// One digit.
fn put_digit(out: &mut [u8], at: usize, digit: u64) -> usize
    requires { (digit < 10) × (at < length out.old) }
    ensures { Wrote out.old out.new at result (digits digit) }
{
    out[at] = b'0' + digit as u8;
    at + 1
}

// The digits of a number, by way of a buffer.
// It is not put into its callers, so that a short number is written without one.
#[inline(never)]
fn put_long(out: &mut [u8], at: usize, n: u64) -> usize
    requires { at + length (digits n) ≤ length out.old }
    ensures { Wrote out.old out.new at result (digits n) }
{
    let mut buffer = Buffer::new();
    put_text(out, at, buffer.format(n).as_bytes())
}

// The digits of a number: one or two, as most numbers have, are written where they stand.
fn put_digits(out: &mut [u8], at: usize, n: u64) -> usize
    requires { at + length (digits n) ≤ length out.old }
    ensures { Wrote out.old out.new at result (digits n) }
{
    if n < 10 {
        return put_digit(out, at, n);
    }
    if n < 100 {
        let i = put_digit(out, at, n / 10);
        return put_digit(out, i, n % 10);
    }
    put_long(out, at, n)
}

// A keyword and a number.
pub fn put_numbered(out: &mut [u8], at: usize, keyword: &[u8], n: u64) -> usize
    requires { at + length (keyword.now ++ digits n) ≤ length out.old }
    ensures { Wrote out.old out.new at result (keyword.now ++ digits n) }
{
    let i = put_text(out, at, keyword);
    put_digits(out, i, n)
}

// The members of a mask, lowest first: the lowest is found by counting trailing zeros, then cleared.
#[derive(Drop)]
struct Members(u64);

impl Iterator for Members {
    type Item = u64;

    ghost next_gives = { YieldsFirst (λ s. members 64 s.0) };

    ghost remaining = { item_count (λ s. members 64 s.0) };

    fn next(&mut self) -> Option<u64> {
        if self.0 == 0 {
            return None;
        }
        let k = self.0.trailing_zeros();
        self.0 &= self.0 - 1;
        Some(u64::from(k))
    }
}

// A blank and the number, for each member of a mask.
fn put_members(out: &mut [u8], at: usize, mask: u64) -> usize
    requires { at + length (lines_of behind_blank (members 64 mask)) ≤ length out.old }
    ensures { Wrote out.old out.new at result (lines_of behind_blank (members 64 mask)) }
{
    let mut i = at;
    for k in Members(mask) {
        i = put_numbered(out, i, b" ", k);
    }
    i
}

// `(proc P`
fn put_proc(out: &mut [u8], at: usize, p: usize) -> usize
    requires { at + proc_open_room ≤ length out.old }
    ensures { Wrote out.old out.new at result (proc_open p) }
{
    let i = put_numbered(out, at, b"(proc ", p as u64);
    put_text(out, i, b"\n")
}

// `(refused R L)`
pub fn put_refused(out: &mut [u8], at: usize, rule: u8, line: usize) -> usize
    requires { at + refused_line_room ≤ length out.old }
    ensures { Wrote out.old out.new at result (refused_line rule line) }
{
    let i = put_numbered(out, at, b"(refused ", u64::from(rule));
    let j = put_numbered(out, i, b" ", line as u64);
    put_text(out, j, b")\n")
}

// `(pair L`, of the third word of a pair, with `s` for a share.
fn put_wanted(out: &mut [u8], at: usize, word: u64) -> usize
    requires { (word < claim_count) × (at + wanted_room ≤ length out.old) }
    ensures { Wrote out.old out.new at result (wanted_text word) }
{
    let i = put_numbered(out, at, b"(pair ", word / 2);
    if word % 2 == 0 {
        return put_text(out, i, b"s");
    }
    i
}

// The locks that are had in a mask, by hold or by share.
fn had_locks(mask: u64) -> u64
    ensures { result ≡ had_locks mask }
{
    locks::held_set(mask) | locks::shared_set(mask)
}

// Lock k behind a blank and with a mark behind it, where a claim is in a mask.
fn put_claimed(out: &mut [u8], at: usize, mask: u64, claim: u64, k: u64, mark: &[u8]) -> usize
    requires { (claim < claim_count) × (at + length (claimed_text mask claim k mark.now) ≤ length out.old) }
    ensures { Wrote out.old out.new at result (claimed_text mask claim k mark.now) }
{
    if !locks::has_claim(mask, claim) {
        return at;
    }
    let i = put_numbered(out, at, b" ", k);
    put_text(out, i, mark)
}

// Lock k as it is had in a mask: behind a blank where it is held, and then with `s` where it is shared.
#[tactic(auto, unfolding(crate::specs::Lines::held_text, crate::specs::Lines::shared_text))]
fn put_lock(out: &mut [u8], at: usize, mask: u64, k: u64) -> usize
    requires { (k < lock_count) × (at + length (lock_text mask k) ≤ length out.old) }
    ensures { Wrote out.old out.new at result (lock_text mask k) }
{
    let i = put_claimed(out, at, mask, k + 32, k, b"");
    put_claimed(out, i, mask, k, k, b"s")
}

// The locks of a mask, each as it is had, lowest number first.
fn put_had(out: &mut [u8], at: usize, mask: u64) -> usize
    requires { at + length (had_text mask) ≤ length out.old }
    ensures { Wrote out.old out.new at result (had_text mask) }
{
    let mut i = at;
    for k in Members(had_locks(mask)) {
        i = put_lock(out, i, mask, k);
    }
    i
}

// `(pair L ..)`, of a pair
pub fn put_pair_form(out: &mut [u8], at: usize, mask: u64, code: u32) -> usize
    requires { at + pair_form_room ≤ length out.old }
    ensures { Wrote out.old out.new at result (pair_form (pair_number mask code)) }
{
    let wanted = columns::word_in(code);
    let i = put_wanted(out, at, wanted);
    let j = put_had(out, i, mask);
    put_text(out, j, b")")
}

// The same with its line end.
fn put_pair(out: &mut [u8], at: usize, mask: u64, code: u32) -> usize
    requires { at + pair_line_room ≤ length out.old }
    ensures { Wrote out.old out.new at result (pair_line (pair_number mask code)) }
{
    let i = put_pair_form(out, at, mask, code);
    put_text(out, i, b"\n")
}

// `(stuck T ..)`, of a mask of threads
fn put_stuck(out: &mut [u8], at: usize, threads: u8) -> usize
    requires { at + stuck_line_room ≤ length out.old }
    ensures { Wrote out.old out.new at result (stuck_line threads) }
{
    let i = put_text(out, at, b"(stuck");
    let j = put_members(out, i, u64::from(threads));
    put_text(out, j, b")\n")
}

// `(step T C)`, of a schedule's entry
fn put_step(out: &mut [u8], at: usize, entry: u16) -> usize
    requires { at + step_line_room ≤ length out.old }
    ensures { Wrote out.old out.new at result (step_line entry) }
{
    let word = u64::from(entry);
    let choice = locks::rest_in(word);
    let thread = locks::thread_in(word);
    let i = put_numbered(out, at, b"(step ", thread);
    let j = put_numbered(out, i, b" ", choice);
    put_text(out, j, b")\n")
}

// The lines of pairs, in order.
// Kept: masks and codes are two columns, as `pair_numbers` in the clause has them and as the crates above lend them; a slice of pairs would have to be copied into memory that is not there.
fn put_pairs(out: &mut [u8], at: usize, masks: &[u64], codes: &[u32]) -> usize
    requires { (length masks.now ≤ length codes.now) × (at + length masks.now * pair_line_room ≤ length out.old) }
    ensures wrote { Wrote out.old out.new at result (lines_of pair_line (pair_numbers masks.now codes.now)) }
    ensures upper_bound { result ≤ at + length masks.now * pair_line_room }
{
    let mut i = at;
    for (mask, code) in masks.iter().zip(codes) {
        i = put_pair(out, i, *mask, *code);
    }
    i
}

// The lines of a schedule, entry by entry.
fn put_steps(out: &mut [u8], at: usize, entries: &[u16]) -> usize
    requires { at + length entries.now * step_line_room ≤ length out.old }
    ensures wrote { Wrote out.old out.new at result (lines_of step_line entries.now) }
    ensures upper_bound { result ≤ at + length entries.now * step_line_room }
{
    let mut i = at;
    for entry in entries {
        i = put_step(out, i, *entry);
    }
    i
}

// A procedure: `(proc P`, its pairs, `)`
pub fn put_proc_lines(out: &mut [u8], at: usize, p: usize, masks: &[u64], codes: &[u32]) -> usize
    requires { (length masks.now ≤ length codes.now) × (at + proc_lines_room (length masks.now) ≤ length out.old) }
    ensures { Wrote out.old out.new at result (proc_lines p (pair_numbers masks.now codes.now)) }
{
    let i = put_proc(out, at, p);
    let j = put_pairs(out, i, masks, codes);
    put_text(out, j, b")\n")
}

// A deadlock: `(deadlock`, the stuck threads, the steps of the schedule, `)`
pub fn put_deadlock(out: &mut [u8], at: usize, threads: u8, entries: &[u16]) -> usize
    requires { at + deadlock_room (length entries.now) ≤ length out.old }
    ensures { Wrote out.old out.new at result (deadlock_lines threads entries.now) }
{
    let i = put_text(out, at, b"(deadlock\n");
    let j = put_stuck(out, i, threads);
    let k = put_steps(out, j, entries);
    put_text(out, k, b")\n")
}
