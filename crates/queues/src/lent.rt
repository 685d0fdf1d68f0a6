// The steps over a queue that is lent: each runs the step by value on the record, and stores the record that it leaves.
ghost use Rattle.std.specs.Prelude.{ℕ, ◌≡◌};
ghost use Rattle.queues.specs.Steps.{load_of, read_of, vertical_of, ask_of};

use crate::{Queue, Reply, Step};

pub fn load(q: &mut Queue, word: u32) -> Reply
    ensures { (q.new ≡ (load_of q.old word).queue) × (result ≡ (load_of q.old word).reply) }
{
    thin(q, word, Queue::load)
}

pub fn read(q: &mut Queue, control: u32) -> Reply
    ensures { (q.new ≡ (read_of q.old control).queue) × (result ≡ (read_of q.old control).reply) }
{
    thin(q, control, Queue::read)
}

pub fn vertical_sync(q: &mut Queue, raster: u32) -> Reply
    ensures { (q.new ≡ (vertical_of q.old raster).queue) × (result ≡ (vertical_of q.old raster).reply) }
{
    thin(q, raster, Queue::vertical_sync)
}

pub fn ask(q: &mut Queue, words: u32) -> Reply
    ensures { (q.new ≡ (ask_of q.old words).queue) × (result ≡ (ask_of q.old words).reply) }
{
    thin(q, words, Queue::ask)
}

// What the four have in common, of any step and whatever it means: the queue that the step leaves is stored, and its reply is answered.
fn thin<F: FnOnce(Queue, u32) -> Step>(q: &mut Queue, n: u32, step: F) -> Reply
    ghost means: { Queue → ℕ → Step }
    requires called { F.pre step q.old n }
    requires meant { (s : Step) → F.post step q.old n s → s ≡ means q.old n }
    ensures { (q.new ≡ (means q.old n).queue) × (result ≡ (means q.old n).reply) }
{
    let left = step(*q, n);
    *q = left.queue;
    left.reply
}
