// The space that a schedule of a plan needs: the slip, and the verdict with exactly so many entries lent and with one less.
use super::show_verdict;

// The verdict where n entries are lent.
fn show_lent(text: &[u8], n: usize, out: &mut [u16]) {
    if n <= out.len() {
        show_verdict(text, &mut out[0..n]);
    } else {
        io::write_all(1, b"  more entries than a schedule can have ?\n");
    }
}

// The verdict where n entries are lent, and where one less is.
fn show_lent_and_less(text: &[u8], n: usize, out: &mut [u16]) {
    show_lent(text, n, out);
    if 0 < n {
        io::write_all(1, b"  an entry less\n");
        show_lent(text, n - 1, out);
    }
}

// The slip that the program `slip` prints, and the verdict: of a text without a sum with no entries.
pub fn show_space(text: &[u8], out: &mut [u16]) {
    let _ = streams::print_slip(text);
    match lockplan::space(text) {
        Ok(n) => show_lent_and_less(text, n, out),
        Err(_) => show_lent(text, 0, out),
    }
}
