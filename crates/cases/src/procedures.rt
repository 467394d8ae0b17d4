// The procedures of a plan: their critical pairs, and their texts.
use super::{print_number, print_refused};
use limits::MAX_PROCS;

// A pair is a record of three words.
const RECORD: usize = 3;

// Of a list so many words are printed: eight records.
const PRINTED: usize = 8 * RECORD;

// The texts of procedures are printed of plans with no more bytes; of a longer one how many bytes each has.
const SHORT: usize = 300;

// What is shown of a procedure.
#[derive(Clone, Copy)]
pub enum Shown {
    Pairs,
    Text,
}

// A word of a list, behind a comma where a record begins.
fn print_word(i: usize, word: u64) {
    if i % RECORD == 0 {
        io::write_all(1, b",");
    }
    print_number(b" ", word);
}

// The first records of a list.
pub fn print_list(words: &[u64]) {
    for (i, word) in words.iter().take(PRINTED).enumerate() {
        print_word(i, *word);
    }
    io::write_all(1, b"\n");
}

fn print_pairs(p: usize, n: usize, list: &[u64]) {
    print_number(b"  proc ", p as u64);
    print_number(b" pairs ", n as u64);
    if n <= list.len() / RECORD {
        print_list(&list[0..n * RECORD]);
    } else {
        io::write_all(1, b" ?\n");
    }
}

// The pairs of procedure p: whether there is one.
fn show_pairs(text: &[u8], p: usize, list: &mut [u64]) -> bool {
    match lockplan::pair_list(text, p, list) {
        Ok(n) => {
            print_pairs(p, n, list);
            true
        }
        Err(refusal) => {
            if refusal.rule == 11 {
                return false;
            }
            print_refused(b"  pairs refused ", refusal);
            false
        }
    }
}

// The text of procedure p: whether there is one. Of a refused plan there is none.
fn show_text(text: &[u8], p: usize) -> bool {
    let part = lockplan::proc_text(text, p);
    if part.len() == 0 {
        return false;
    }
    print_number(b"  text of procedure ", p as u64);
    print_number(b", bytes ", part.len() as u64);
    io::write_all(1, b"\n");
    if text.len() <= SHORT {
        io::write_all(1, part);
    }
    true
}

fn show_proc(text: &[u8], p: usize, shown: Shown, list: &mut [u64]) -> bool {
    match shown {
        Shown::Pairs => show_pairs(text, p, list),
        Shown::Text => show_text(text, p),
    }
}

// The procedures from the first on, up to one that is not there: of 64 procedures the one behind them is asked for too.
pub fn show_procs(text: &[u8], shown: Shown, list: &mut [u64]) {
    for p in 0..MAX_PROCS + 1 {
        if !show_proc(text, p, shown, list) {
            return;
        }
    }
}
