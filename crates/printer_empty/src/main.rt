// The log printer on an empty log, which prints nothing.
#![tactic(auto)]

fn main(rt: HostRuntime) -> std::io::Result<()> {
    log_printer::print_input(&rt)
}
