// Standard input, read into memory that the caller lends. What a system call delivers is open; that it lies within that memory is promised.
#![tactic(auto)]

ghost use Rattle.std.specs.Prelude.{◌≤◌, ◌≡◌, length, take, MatchResult};

use std::io;
use std::io::Read;

// Reading failed before the input's end: how many bytes had been read, which lie at the front, and why.
#[derive(Drop)]
pub struct Broken {
    pub count: usize,
    pub error: io::Error,
}

// Reads until the memory is full or the input ends, and answers how many bytes were read, which lie at the front.
pub fn read(rt: &impl io::Input, bytes: &mut [u8]) -> Result<usize, Broken>
    ensures { MatchResult result
        (λ count. (count ≤ length bytes.new) × (count ≡ length (take count bytes.new)))
        (λ broken. (broken.count ≤ length bytes.new) × (broken.count ≡ length (take broken.count bytes.new))) }
{
    let mut input = rt.reader();
    let mut count = 0;
    // each read gives as many bytes as it likes, so that no `for` goes over them
    while count < bytes.len() {
        match input.read(&mut bytes[count..]) {
            Ok(0) => break,
            Ok(more) => count += more,
            Err(error) => return Err(Broken { count, error }),
        }
    }
    Ok(count)
}
