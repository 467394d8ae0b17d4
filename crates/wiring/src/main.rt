// The wiring table: each lock with its bit. What it prints is decided by the library `wiring_text`; a stream that fails is told on standard error.
#![tactic(auto)]

use wiring_text::WIRING_ROOM;

fn main() {
    let mut out = [0u8; WIRING_ROOM];
    let n = wiring_text::put_wiring(&mut out);
    if !io::write_all(1, &out[..n]) {
        io::write_all(2, b"wiring: the table cannot be written\n");
    }
}
