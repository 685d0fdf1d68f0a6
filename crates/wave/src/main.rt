// A plate on standard input, its sound on standard output as a WAV file. All that matters is proved in `sheets` and `outputs`.
#![tactic(auto)]

use registers::record::Registers;
use standard_plate::{Failure, Room};
use std::io;

// All blocks, up to the first that is empty: the head, and at most 64 of samples.
// It stays beside the loop of `printer`, as is said there.
fn play(rt: &impl Print, g: Registers, sound: &[u32]) -> io::Result<()> {
    for k in 0..65 {
        let mut bytes = [0; 4096];
        let n = outputs::blocks::block(g, sound, k, &mut bytes);
        if n == 0 {
            break;
        }
        rt.write_all(&bytes[..n])?;
    }
    Ok(())
}

// The register words are loaded and judged for sound before a block is written.
fn play_input(rt: &(impl io::Input + Print)) -> Result<(), Failure> {
    let mut room = Room::default();
    let sheet = room.sheet(rt)?;
    let mut g = Registers::new();
    g.load_and_check_sound(sheet.registers)?;
    play(rt, g, sheet.sound)?;
    Ok(())
}

fn main(rt: HostRuntime) {
    if let Err(failure) = play_input(&rt) {
        failure.tell(&rt);
    }
}
