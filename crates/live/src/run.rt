// The live loop: one queue in one local, lent to a call at each tick.
ghost use Rattle.std.specs.Prelude.{◌≡◌};
ghost use Rattle.live.specs.Run.{ran, start};

use crate::bench::{Bench, Row};
use queues::{Queue, Reply};

// Each tick asks the bench what comes next, and makes that call on the queue where it lies.
pub fn run(mut q: Queue, mut b: Bench, ticks: u32, words: &[u32], told: &mut [Row]) -> Bench
    ensures { (result ≡ (ran words.now (start q b told.old) ticks).bench)
        × (told.new ≡ (ran words.now (start q b told.old) ticks).told) }
{
    let mut reply = Reply {
        count: 0,
        number: 0,
        byte: 0,
        asks: 0,
    };
    for tick in 0..ticks {
        reply = b.next(reply, words, told).on(&mut q);
    }
    b
}
