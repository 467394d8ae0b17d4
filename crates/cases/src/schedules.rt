// The schedule of a deadlock: its entries, and what a second gateway comes to by it.
use super::print_number;
use replay::gateway::Gateway;

// So many entries of a schedule are printed.
const ENTRIES: usize = 16;

fn print_entries(entries: &[u16]) {
    for entry in entries.iter().take(ENTRIES) {
        print_number(b" ", u64::from(*entry));
    }
    io::write_all(1, b"\n");
}

fn print_length(n: usize, bound: usize) {
    print_number(b"  replayed ", n as u64);
    print_number(b" steps, sizes ", bound as u64);
    if bound < n {
        io::write_all(1, b", too many");
    }
}

pub fn print_stuck(found: u64, named: u64) {
    print_number(b", stuck set ", found);
    if found == named {
        io::write_all(1, b", as named\n");
    } else {
        io::write_all(1, b", not the set named\n");
    }
}

// A schedule in the second gateway, from its start: the first entry that is no permitted step, or what is seen at the end.
fn replay(text: &[u8], schedule: &[u16], named: u64) {
    let mut gateway = Gateway::start(text);
    let n = gateway.run(schedule);
    if n < schedule.len() {
        print_number(b"  not replayed: no step at entry ", n as u64);
        io::write_all(1, b"\n");
        return;
    }
    print_length(n, replay::sizes::sum(text));
    print_stuck(replay::stuck::largest(&gateway), named);
}

// A schedule of n entries, and the set of threads that the verdict names stuck at its end.
pub fn show_schedule(text: &[u8], n: usize, named: u64, out: &[u16]) {
    print_number(b"  deadlock, stuck set ", named);
    print_number(b", entries ", n as u64);
    io::write_all(1, b":");
    if n <= out.len() {
        print_entries(&out[0..n]);
        replay(text, &out[0..n], named);
    } else {
        io::write_all(1, b" ?\n");
    }
}
