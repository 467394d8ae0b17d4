// Streams that fail: a write that fails counts with no byte, and a read that fails is no end of the input.
use std::io::{Error, ErrorKind, Read, Result};

// No file has this descriptor.
const NONE: i32 = -1;

// A reader of which each read fails.
#[derive(Clone, Copy)]
struct Unreadable;

impl Read for Unreadable {
    fn read(&mut self, _text: &mut [u8]) -> Result<usize> {
        Err(Error::from(ErrorKind::NotConnected))
    }
}

fn print_line(told: bool, line: &[u8]) {
    io::write_all(1, line);
    if told {
        io::write_all(1, b": told\n");
    } else {
        io::write_all(1, b": not told\n");
    }
}

pub fn show_failing() {
    let mut text = [0u8; 8];
    let printed = streams::print_to(NONE, b"nothing");
    let input = streams::read_from(&mut Unreadable, &mut text);
    print_line(printed.is_err_and(|e| e.bytes == 0), b"a write that fails");
    print_line(input.is_err_and(|e| e.bytes == 0), b"a read that fails");
}
