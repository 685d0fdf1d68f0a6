// The camera's numbers judged: which of them is the first of more than 12 bits.
ghost use Rattle.std.specs.Prelude.{MatchOption};
ghost use Rattle.mixing.specs.inner.First.{AllFew, FirstLarge};

// The first that is too large. They are searched only where there is one: a search may end at each, so that the machine can't take many at once.
pub fn first_too_large(camera: &[u16]) -> Option<usize>
    ensures { MatchOption result (AllFew camera.now) (FirstLarge camera.now) }
{
    // by a loop: `max()` takes the first number by itself, and a raster of 1,024 takes 52 instructions more
    let mut most = 0;
    for n in camera {
        most = most.max(*n);
    }
    if most <= 4095 {
        return None;
    }
    camera.iter().position(|n| 4095 < *n)
}
