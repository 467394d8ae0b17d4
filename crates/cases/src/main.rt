// The reference plans of document 01 and some more, from the files that `index` names beside the program: for each the critical pairs of its procedures, the slip of the
// space that it needs, the verdict or the refusal, where its threads cross, the texts of its procedures, the tidy copy, the straightened one with its own pairs and verdict, and
// the report. A schedule is replayed by a second gateway, crate `replay`, which reads the plan's text by itself: the entries of each verdict, and the steps in the lines of each report.
#![tactic(auto)]

mod crossings;
mod failing;
mod plan_copies;
mod procedures;
mod reports;
mod schedules;
mod spaces;

ghost use Rattle.std.specs.Prelude.{◌≤◌, length};

use limits::{MAX_ENTRIES, MAX_PAIR_WORDS};
use lockplan::Verdict;
use procedures::Shown;
use std::rt::Files;
use std::{fs, str};
use streams::TEXT_ROOM;
use text::Refusal;

const INDEX_ROOM: usize = 16384;

// Reports and copies are printed of texts with no more bytes: one of 64 procedures, the exports of forty and one with thousands of steps are among them.
pub const REPORTED: usize = 1800;

pub fn print_number(pair: &[u8], x: u64) {
    io::write_all(1, pair);
    io::print_decimal(1, x);
}

// A refusal: the rule and the line.
pub fn print_refused(label: &[u8], refusal: Refusal) {
    print_number(label, refusal.rule as u64);
    print_number(b" ", refusal.line as u64);
    io::write_all(1, b"\n");
}

pub fn show_verdict(text: &[u8], out: &mut [u16]) {
    match lockplan::judge(text, out) {
        Ok(Verdict::Free) => {
            io::write_all(1, b"  free\n");
        }
        Ok(Verdict::Deadlock { entries, stuck }) => {
            schedules::show_schedule(text, entries, stuck as u64, out);
        }
        Err(refusal) => print_refused(b"  refused ", refusal),
    }
}

fn show_plan(text: &[u8], list: &mut [u64], out: &mut [u16]) {
    print_number(b"  bytes ", text.len() as u64);
    io::write_all(1, b"\n");
    procedures::show_procs(text, Shown::Pairs, list);
    spaces::show_space(text, out);
    crossings::show_crossings(text);
    procedures::show_procs(text, Shown::Text, list);
    plan_copies::show_tidy(text);
    plan_copies::show_straight(text, list, out);
    reports::show_report(text);
}

// The file of this name, where it can be read.
fn open_file<R: Files>(rt: &R, path: &[u8]) -> Option<R::File> {
    let name = str::from_utf8(path).ok()?;
    fs::open(rt, name).ok()
}

// A file into the start of a buffer: how many bytes.
fn read_file(rt: &impl Files, path: &[u8], buffer: &mut [u8]) -> usize
    ensures { result ≤ length buffer.new }
{
    let Some(mut file) = open_file(rt, path) else {
        io::write_all(1, b"  no such file\n");
        return 0;
    };
    match streams::read_from(&mut file, buffer) {
        Ok(n) => n,
        Err(unread) => unread.bytes,
    }
}

// A line of the index: the file's name, a blank, and what the plan is. The last byte of a line is no part of the name.
fn show_case(rt: &impl Files, line: &[u8], buffer: &mut [u8], list: &mut [u64], out: &mut [u16]) {
    let Some((_, front)) = line.split_last() else {
        return;
    };
    io::write_all(1, line);
    let name = front.split(|b| *b == b' ').next().unwrap_or(front);
    let n = read_file(rt, name, buffer);
    show_plan(&buffer[..n], list, out);
}

fn show_all(rt: &impl Files, index: &[u8], buffer: &mut [u8], list: &mut [u64], out: &mut [u16]) {
    for line in index.split_inclusive(|b| *b == b'\n') {
        show_case(rt, line, buffer, list, out);
    }
}

fn main(rt: HostRuntime) {
    let mut index = [0u8; INDEX_ROOM];
    let mut buffer = [0u8; TEXT_ROOM];
    let mut list = [0u64; MAX_PAIR_WORDS];
    let mut out = [0u16; MAX_ENTRIES];
    failing::show_failing();
    let n = read_file(&rt, b"index", &mut index);
    show_all(&rt, &index[0..n], &mut buffer, &mut list, &mut out);
}
