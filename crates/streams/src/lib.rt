// The standard streams of a program: a text read from standard input, and printed to standard output the report on a text, part by part, its tidy copy or
// its straightened one, or the slip of the space that it needs.
#![tactic(auto)]

ghost use Rattle.std.specs.Prelude.{◌+◌, ◌^◌, ◌<◌, ◌≤◌, ◌≡◌, length};
ghost use Rattle.limits.specs.Limits.{max_forms, max_entries};
ghost use Rattle.report_text.specs.Tables.{part_room};
ghost use Rattle.copies.specs.Copies.{printed_copy};
ghost use Rattle.space.specs.Slip.{printed_slip};
ghost use Rattle.streams.specs.Printing.{AllPrinted, AllOrNone, PrintedBehind, ReportPrinted, PrefixRead};

use limits::{MAX_BYTES, MAX_ENTRIES, MAX_FORMS};
use report_text::{MOST_PARTS, PART_ROOM};
use space::SLIP_ROOM;
use std::io::Read;

// The room for a text that is read: rule 2 needs one byte more than its limit.
pub const TEXT_ROOM: usize = MAX_BYTES + 1;

// Not all could be written: how many bytes were before that, of each write all or none.
#[derive(Clone, Copy)]
pub struct Unwritten {
    pub bytes: usize,
}

// Not all could be read: how many bytes were before that.
#[derive(Clone, Copy)]
pub struct Unread {
    pub bytes: usize,
}

// Bytes to a descriptor: how many.
pub fn print_to(descriptor: i32, bytes: &[u8]) -> Result<usize, Unwritten>
    ensures { AllOrNone result bytes.now }
{
    if io::write_all(descriptor, bytes) {
        Ok(bytes.len())
    } else {
        Err(Unwritten { bytes: 0 })
    }
}

// Bytes to standard output.
pub fn print_bytes(bytes: &[u8]) -> Result<usize, Unwritten>
    ensures { AllOrNone result bytes.now }
{
    print_to(1, bytes)
}

// One part more, behind so many bytes.
pub fn print_behind(bytes: usize, part: &[u8]) -> Result<usize, Unwritten>
    requires { bytes + length part.now < 2 ^ 64 }
    ensures { PrintedBehind bytes result part.now }
{
    match print_bytes(part) {
        Ok(n) => Ok(bytes + n),
        Err(_) => Err(Unwritten { bytes }),
    }
}

// The report on a text, which is read and judged once, part by part.
fn print_parts(
    text: &[u8],
    table: &mut [u64],
    entries: &mut [u16],
    out: &mut [u8],
) -> Result<usize, Unwritten>
    requires { (max_forms ≤ length table.old) × (max_entries ≡ length entries.old) × (length out.old ≡ part_room) }
    ensures { ReportPrinted text.now result }
{
    let findings = report_text::judge_text(text, table, entries);
    let mut bytes = 0;
    for k in 0..MOST_PARTS {
        let n = report_text::put_part(text, findings, table, entries, k, out);
        bytes = print_behind(bytes, &out[..n])?;
    }
    Ok(bytes)
}

// The report on a text.
pub fn print_report(text: &[u8]) -> Result<usize, Unwritten>
    ensures { ReportPrinted text.now result }
{
    let mut table = [0u64; MAX_FORMS];
    let mut entries = [0u16; MAX_ENTRIES];
    let mut out = [0u8; PART_ROOM];
    print_parts(text, &mut table, &mut entries, &mut out)
}

// The tidy copy of a text or the straightened one, or the line of its refusal.
pub fn print_copy(text: &[u8], straighten: bool) -> Result<usize, Unwritten>
    ensures { AllPrinted result (printed_copy straighten text.now) }
{
    let mut out = [0u8; MAX_BYTES];
    let n = copies::put_printed(text, straighten, &mut out);
    print_bytes(&out[..n])
}

// The slip of the space that a text's plan needs, or the line of its refusal.
pub fn print_slip(text: &[u8]) -> Result<usize, Unwritten>
    ensures { AllPrinted result (printed_slip text.now) }
{
    let mut out = [0u8; SLIP_ROOM];
    let n = space::put_slip(text, &mut out);
    print_bytes(&out[..n])
}

// What a reader has, into the start of a buffer, to the end or as far as the buffer goes: how many bytes.
pub fn read_from<R: Read>(reader: &mut R, text: &mut [u8]) -> Result<usize, Unread>
    ensures { PrefixRead result text.new }
{
    let mut n = 0;
    while n < text.len() {
        let more = reader
            .read(&mut text[n..])
            .map_err(|_| Unread { bytes: n })?;
        if more == 0 {
            break;
        }
        n += more;
    }
    Ok(n)
}

// Standard input into the start of a buffer.
pub fn read_input(rt: &impl std::io::Input, text: &mut [u8]) -> Result<usize, Unread>
    ensures { PrefixRead result text.new }
{
    read_from(&mut rt.reader(), text)
}

// What a program prints of the text on standard input, by `print`; a stream that fails is told on standard error, in these words.
pub fn print_input<F: Fn(&[u8]) -> Result<usize, Unwritten>>(
    rt: &impl std::io::Input,
    print: F,
    unread: &[u8],
    unwritten: &[u8],
)
    requires { F.IsAlwaysCallable print }
{
    let mut text = [0u8; TEXT_ROOM];
    let Ok(n) = read_input(rt, &mut text) else {
        io::write_all(2, unread);
        return;
    };
    if print(&text[..n]).is_err() {
        io::write_all(2, unwritten);
    }
}
