// The log printer. Its stored input is the log of a write enable, document 01's example.
#![tactic(auto)]

fn main(rt: HostRuntime) -> std::io::Result<()> {
    log_printer::print_input(&rt)
}
