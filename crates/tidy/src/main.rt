// The tidy copy of the plan that standard input holds, or the line of its refusal. What it prints is decided by the library `copies`; a stream that fails is told on
// standard error.
#![tactic(auto)]

fn main(rt: HostRuntime) {
    streams::print_input(
        &rt,
        |text| streams::print_copy(text, false),
        b"tidy: standard input cannot be read\n",
        b"tidy: the copy cannot be written\n",
    );
}
