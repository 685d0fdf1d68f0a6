// A plate on standard input, and on standard output what is in it, for people. What is judged is proved in the library.
#![tactic(auto)]

mod meaning;
mod names;
mod plate;
mod summary;
mod terms;
mod verdicts;
mod words;

use plate::print_plate;
use standard_plate::{Failure, LONGEST};
use std::io;

// What is said of a plate that is refused begins with its length: it is taken apart only here.
fn print_input(rt: &(impl io::Input + Print)) -> Result<(), Failure> {
    let mut plate = [0u8; LONGEST + 1];
    let count = standard_input::read(rt, &mut plate)?;
    print_plate(rt, &plate[..count])?;
    Ok(())
}

fn main(rt: HostRuntime) {
    if let Err(failure) = print_input(&rt) {
        failure.tell(&rt);
    }
}
