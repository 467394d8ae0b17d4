// The slip of the space that the plan on standard input needs, or the line of its refusal. What it prints is decided by the library `space`; a stream that fails is told on
// standard error.
#![tactic(auto)]

fn main(rt: HostRuntime) {
    streams::print_input(
        &rt,
        streams::print_slip,
        b"slip: standard input cannot be read\n",
        b"slip: the slip cannot be written\n",
    );
}
