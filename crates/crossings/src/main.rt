// Where the threads of the plan on standard input cross: without arguments which threads do, with the numbers of two threads their couples; or the line of the refusal. What it
// prints, and what its arguments ask for, is decided by the library `crossings_text`; arguments that ask for neither, and a stream that fails, are told on standard error.
#![tactic(auto)]

use crossings_text::Request;
use std::env::FillError;
use std::rt::Env;

// So many bytes of an argument are taken: a longer one is no number.
const ARGUMENT_ROOM: usize = 64;

// How many arguments there are, the program's own name among them: the list ends at the first that is not there.
fn argument_count(rt: &impl Env) -> usize {
    let mut argument = [0u8; ARGUMENT_ROOM];
    for i in 0..usize::MAX {
        if let Err(FillError::NotPresent) = rt.arg(i, &mut argument) {
            return i;
        }
    }
    usize::MAX
}

// What the arguments ask for: those behind the program's own name.
fn asked(rt: &impl Env) -> Option<Request> {
    let mut first = [0u8; ARGUMENT_ROOM];
    let mut second = [0u8; ARGUMENT_ROOM];
    let m = rt.arg(1, &mut first).unwrap_or(0);
    let n = rt.arg(2, &mut second).unwrap_or(0);
    let arguments = argument_count(rt).saturating_sub(1);
    crossings_text::request_of(arguments, &first[..m], &second[..n])
}

fn main(rt: HostRuntime) {
    let request = asked(&rt);
    if request.is_none() {
        io::write_all(
            2,
            b"crossings: wanted are no arguments, or the numbers of two threads\n",
        );
        return;
    }
    streams::print_input(
        &rt,
        |text| crossing_streams::print_request(text, request),
        b"crossings: standard input cannot be read\n",
        b"crossings: the crossings cannot be written\n",
    );
}
