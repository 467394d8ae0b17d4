// The report on the plan that standard input holds. What it says is decided by the library `report_text`; a stream that fails is told on standard error.
#![tactic(auto)]

fn main(rt: HostRuntime) {
    streams::print_input(
        &rt,
        streams::print_report,
        b"report: standard input cannot be read\n",
        b"report: the report cannot be written\n",
    );
}
