// The report on a plan, and its steps, as they are printed, replayed by the second gateway.
ghost use Rattle.std.specs.Prelude.{◌≤◌, ◌≡◌, length};
ghost use Rattle.limits.specs.Limits.{max_forms, max_entries};
ghost use Rattle.report_text.specs.Tables.{part_room, Prepared};

use super::schedules::print_stuck;
use super::{REPORTED, print_number};
use limits::{MAX_ENTRIES, MAX_FORMS};
use replay::gateway::Gateway;
use replay::printed::Told;
use report_text::{Findings, MOST_PARTS, PART_ROOM};
use text::Refusal;

// The parts of a report, each read as `put_part` writes it for the program to print.
fn read_parts(
    text: &[u8],
    findings: Result<Findings, Refusal>,
    table: &[u64],
    entries: &[u16],
    out: &mut [u8],
    gateway: &mut Gateway,
) -> Told
    requires { Prepared text.now findings table.now entries.now × (max_entries ≡ length entries.now) × (part_room ≤ length out.old) }
{
    let mut told = Told::nothing();
    for k in 0..MOST_PARTS {
        let n = report_text::put_part(text, findings, table, entries, k, out);
        told.read_lines(&out[..n], gateway);
    }
    told
}

// What the steps of a deadlock that is printed lead to.
fn print_deadlock(told: Told, gateway: &Gateway) {
    print_number(b"  as printed: deadlock, steps ", told.steps as u64);
    if !told.right {
        io::write_all(1, b", a line is not right\n");
        return;
    }
    print_stuck(replay::stuck::largest(gateway), told.named);
}

// What a report says: one verdict, or none where the text is refused.
fn print_told(told: Told, gateway: &Gateway) {
    if told.free == 0 && told.deadlocks == 1 {
        print_deadlock(told, gateway);
        return;
    }
    if told.deadlocks != 0 || told.steps != 0 || told.named != 0 || 1 < told.free {
        io::write_all(1, b"  as printed: not one verdict\n");
        return;
    }
    if told.free == 1 {
        io::write_all(1, b"  as printed: free\n");
    } else {
        io::write_all(1, b"  as printed: no verdict\n");
    }
}

// Judges a text as for its report, and replays what the report says.
fn replay_text(text: &[u8], table: &mut [u64], entries: &mut [u16], out: &mut [u8])
    requires { (max_forms ≤ length table.old) × (max_entries ≡ length entries.old) × (part_room ≤ length out.old) }
{
    let findings = report_text::judge_text(text, table, entries);
    let mut gateway = Gateway::start(text);
    let told = read_parts(text, findings, table, entries, out, &mut gateway);
    print_told(told, &gateway);
}

// The same with tables of its own.
fn replay_report(text: &[u8]) {
    let mut table = [0u64; MAX_FORMS];
    let mut entries = [0u16; MAX_ENTRIES];
    let mut out = [0u8; PART_ROOM];
    replay_text(text, &mut table, &mut entries, &mut out);
}

// The report that the program `report` prints, of texts with few bytes; its steps are replayed whatever its length.
pub fn show_report(text: &[u8]) {
    if text.len() <= REPORTED {
        let _ = streams::print_report(text);
    }
    replay_report(text);
}
