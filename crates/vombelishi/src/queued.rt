// The chip's queues: a fresh one, the four calls on a queue that is lent, and what a raster's sync asks for.
ghost use Rattle.std.specs.Prelude.{◌≡◌};
ghost use Rattle.queues.specs.Queue.{fresh_of};
ghost use Rattle.queues.specs.Steps.{load_of, read_of, vertical_of, ask_of};
ghost use Rattle.vombelishi.specs.Code.{answer_code, cell_by};
ghost use Rattle.vombelishi.specs.Queued.{sync_call};

use crate::code::refused;
use crate::record::Lists;
use queues::{Queue, Reply};

// 0 video, 1 cursor, any other number sound.
pub fn vom_queue_fresh(kind: u16) -> Queue
    ensures { result ≡ fresh_of kind }
{
    Queue::fresh(kind)
}

// 16 for a full queue, or one whose count is at its largest.
pub fn vom_queue_load(queue: &mut Queue, word: u32) -> Reply
    ensures { (queue.new ≡ (load_of queue.old word).queue) × (result ≡ (load_of queue.old word).reply) }
{
    queues::lent::load(queue, word)
}

// 17 for an empty queue.
pub fn vom_queue_read(queue: &mut Queue, control: u32) -> Reply
    ensures { (queue.new ≡ (read_of queue.old control).queue) × (result ≡ (read_of queue.old control).reply) }
{
    queues::lent::read(queue, control)
}

// Vertical sync starts with raster 0.
pub fn vom_queue_vertical_sync(queue: &mut Queue, raster: u32) -> Reply
    ensures { (queue.new ≡ (vertical_of queue.old raster).queue) × (result ≡ (vertical_of queue.old raster).reply) }
{
    queues::lent::vertical_sync(queue, raster)
}

pub fn vom_queue_ask(queue: &mut Queue, words: u32) -> Reply
    ensures { (queue.new ≡ (ask_of queue.old words).queue) × (result ≡ (ask_of queue.old words).reply) }
{
    queues::lent::ask(queue, words)
}

// How many words a raster's sync asks of a queue of a kind; 13 for slices shorter than 64.
#[tactic(auto, unfolding(crate::specs::Queued::sync_call))]
pub fn vom_sync_ask(values: &[u32], written: &[u8], kind: u16, raster: u32, words: &mut u32) -> u64
    ensures { (result ≡ answer_code (sync_call values.now written.now kind raster))
        × (words.new ≡ cell_by (sync_call values.now written.now kind raster) words.old) }
{
    match Lists::of(values, written) {
        Err(why) => refused(why),
        Ok(lists) => {
            *words = queues::syncs::sync_ask(lists.registers(), kind, raster);
            0
        },
    }
}
