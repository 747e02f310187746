// The log printer on a log of 1,100 records, more than two buffers, that ends in a short record.
#![tactic(auto)]

fn main(rt: HostRuntime) -> std::io::Result<()> {
    log_printer::print_input(&rt)
}
