// Runs a call of the flash driver, or a row of them, against a simulated controller and flash: requests on
// standard input, the logs and what the flash then holds on standard output (crates/sim_console).
#![tactic(auto)]

fn main(rt: HostRuntime) {
    sim_console::simulate_input(&rt)
}
