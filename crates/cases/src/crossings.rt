// Where the threads of a plan cross: what the program `crossings` prints on request, and the first couples of threads 0 and 1.
use super::{print_number, print_refused, procedures};
use crossings_text::Request;

// So many words are lent for the couples: two couples of six words, and five more, in which a third has no room: they stay 0.
const WORDS: usize = 2 * 6 + 5;

// The couples of two threads are printed where there are no more.
const COUPLES: usize = 16;

// Whether two threads have so few couples that they are printed; a refusal is printed too.
fn few_couples(text: &[u8], first: usize, second: usize) -> bool {
    let mut words = [0u64; 0];
    match lockplan::crossings(text, first, second, &mut words) {
        Ok(n) => n <= COUPLES,
        Err(_) => true,
    }
}

// What the program prints where it has these two arguments.
fn show_two(text: &[u8], first: &[u8], second: &[u8]) {
    let request = crossings_text::request_of(2, first, second);
    let Some(
        Request::Two {
            first: t,
            second: u,
        },
    ) = request
    else {
        return;
    };
    if few_couples(text, t as usize, u as usize) {
        let _ = crossing_streams::print_request(text, request);
    }
}

// The couples of threads 0 and 1 as words, or the refusal.
fn show_words(text: &[u8]) {
    let mut words = [0u64; WORDS];
    match lockplan::crossings(text, 0, 1, &mut words) {
        Ok(n) => {
            print_number(b"  couples ", n as u64);
            io::write_all(1, b" words");
            procedures::print_list(&words);
        }
        Err(refusal) => print_refused(b"  couples refused ", refusal),
    }
}

// Without arguments, the words, and with two: threads in both orders, one that few plans have, and the same twice.
pub fn show_crossings(text: &[u8]) {
    let _ = crossing_streams::print_request(text, crossings_text::request_of(0, b"", b""));
    show_words(text);
    show_two(text, b"0", b"1");
    show_two(text, b"1", b"0");
    show_two(text, b"2", b"1");
    show_two(text, b"0", b"0");
}
