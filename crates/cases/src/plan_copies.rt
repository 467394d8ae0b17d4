// The tidy copy of a plan and the straightened one.
use super::procedures::Shown;
use super::{REPORTED, print_number, print_refused, procedures, show_verdict};
use limits::MAX_BYTES;
use text::Refusal;

// The first n bytes of a buffer, none where it has fewer.
fn first(out: &[u8], n: usize) -> &[u8] {
    if out.len() < n {
        return &out[0..0];
    }
    &out[0..n]
}

// A copy: how many bytes, and whether it is the text itself. One that is not is printed.
fn print_copy(label: &[u8], text: &[u8], copy: &[u8]) {
    print_number(label, copy.len() as u64);
    if check::same(text, copy) {
        io::write_all(1, b" bytes, the text itself\n");
        return;
    }
    io::write_all(1, b" bytes\n");
    if text.len() <= REPORTED {
        io::write_all(1, copy);
    }
}

// A refusal, and what the program prints of it; what it prints of accepted texts, its own run shows.
fn print_no_copy(label: &[u8], text: &[u8], refusal: Refusal, straighten: bool) {
    print_refused(label, refusal);
    let _ = streams::print_copy(text, straighten);
}

// The tidy copy, or the refusal.
pub fn show_tidy(text: &[u8]) {
    let mut out = [0u8; MAX_BYTES];
    match lockplan::tidy(text, &mut out) {
        Ok(n) => print_copy(b"  tidy: ", text, first(&out, n)),
        Err(refusal) => print_no_copy(b"  tidy refused ", text, refusal, false),
    }
}

// A straightened copy: of one that is not the text itself also the pairs of its procedures and the verdict.
fn print_straight(text: &[u8], copy: &[u8], list: &mut [u64], schedule: &mut [u16]) {
    print_copy(b"  straight: ", text, copy);
    if !check::same(text, copy) {
        procedures::show_procs(copy, Shown::Pairs, list);
        show_verdict(copy, schedule);
    }
}

// The straightened copy, or the refusal.
pub fn show_straight(text: &[u8], list: &mut [u64], schedule: &mut [u16]) {
    let mut out = [0u8; MAX_BYTES];
    match lockplan::straight(text, &mut out) {
        Ok(n) => print_straight(text, first(&out, n), list, schedule),
        Err(refusal) => print_no_copy(b"  straight refused ", text, refusal, true),
    }
}
