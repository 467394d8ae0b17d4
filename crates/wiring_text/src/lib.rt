// The wiring table as text: a row for each lock, with its number, its bit in a mask and that bit in hexadecimal.
#![tactic(auto, using(report_lines::proofs::Widths::widths))]

ghost use Rattle.std.specs.Prelude.{◌++◌, ◌≡◌, ◌+◌, ◌≤◌, ◌<◌, length};
ghost use Rattle.limits.specs.Limits.{lock_count, mask_size};
ghost use Rattle.laws.specs.Wrote.{Wrote};
ghost use Rattle.wiring_text.specs.Wiring.{hex_digits, wiring_row, wiring_table, hex_count, row_room, wiring_room};

use limits::LOCK_COUNT;

// Bytes that suffice for a row, and for all of it: the heading and a row for each lock.
const ROW_ROOM: usize = 2 + 20 + 3 + 20 + 5 + 8 + 3;

pub const WIRING_ROOM: usize = 43 + LOCK_COUNT * ROW_ROOM;

// A keyword and the eight hexadecimal digits of a number.
fn put_hex(out: &mut [u8], at: usize, keyword: &[u8], n: u64) -> usize
    requires small { n < mask_size }
    requires room { at + length keyword.now + hex_count ≤ length out.old }
    ensures wrote { Wrote out.old out.new at result (keyword.now ++ hex_digits n) }
    ensures value { result ≡ at + length keyword.now + hex_count }
{
    let mut digits = [0u8; 16];
    let count = io::hex(n, 8, &mut digits);
    let i = report_lines::put_text(out, at, keyword);
    report_lines::put_text(out, i, &digits[..count])
}

// The row of a lock: its number, its bit and the bit in hexadecimal.
fn put_row(out: &mut [u8], at: usize, lock: u64) -> usize
    requires { (lock < lock_count) × (at + row_room ≤ length out.old) }
    ensures wrote { Wrote out.old out.new at result (wiring_row lock) }
    ensures upper_bound { result ≤ at + row_room }
{
    let bit = locks::lock_bit(lock);
    let i = report_lines::put_numbered(out, at, b"| ", lock);
    let j = report_lines::put_numbered(out, i, b" | ", bit);
    let k = put_hex(out, j, b" | 0x", bit);
    report_lines::put_text(out, k, b" |\n")
}

// The heading, then a row for each lock.
pub fn put_wiring(out: &mut [u8]) -> usize
    requires { wiring_room ≤ length out.old }
    ensures { Wrote out.old out.new 0 result wiring_table }
{
    let mut i = report_lines::put_text(out, 0, b"| lock | bit | hexadecimal |\n|---|---|---|\n");
    for lock in 0..LOCK_COUNT as u64 {
        i = put_row(out, i, lock);
    }
    i
}
