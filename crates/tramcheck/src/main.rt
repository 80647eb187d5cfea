// Reads one packed case from standard input and prints the verdict on it.
#![tactic(auto)]

use std::io;

mod input;
mod output;
mod waiting;

fn main(rt: HostRuntime) -> io::Result<()> {
    let mut bytes = [0u8; report::INPUT];
    let size = match input::read_case(rt.stdin(), &mut bytes) {
        Ok(size) => size,
        Err(e) => return eprintln!(rt; "tramcheck: standard input: {e}"),
    };
    let text = report::report_input(&bytes, size);
    match output::print(rt.stdout(), text.as_bytes()) {
        Ok(()) => Ok(()),
        Err(e) => eprintln!(rt; "tramcheck: standard output: {e}"),
    }
}
