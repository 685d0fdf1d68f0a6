// The steps by value. Each first replaces a record that is not fit by a fresh one of its kind, then does its work on that one.
ghost use Rattle.std.specs.Prelude.{◌≡◌, ◌<◌};
ghost use Rattle.queues.specs.Queue.{first_coming, fresh_of, fitted_of, Fit, front_byte};
ghost use Rattle.queues.specs.Steps.{step_of, load_fit, read_fit, load_of, read_of, emptied_of, vertical_of, ask_of, horizontal_of, ends_of};

use crate::syncs::{cursor_ask, video_ask};
use crate::{Kind, Queue, Reply, Ring, Step};
use refusals::Refusal;
use registers::record::Registers;

// The answer of a step that leaves a queue: its count, and whether it asks.
fn answered(queue: Queue, number: u32, byte: u16) -> Step
    ensures { result ≡ step_of queue number byte }
{
    let ring = queue.ring;
    let reply = Reply {
        count: ring.count,
        number,
        byte,
        asks: ring.asks(),
    };
    Step { queue, reply }
}

// Sound asks for four words when fresh.
fn first_coming(kind: u16) -> u32
    ensures { result ≡ first_coming kind }
{
    match Kind::from(kind) {
        Kind::Sound => 4,
        Kind::Video | Kind::Cursor => 0,
    }
}

impl Queue {
    // A fresh queue counts as just emptied.
    pub fn fresh(kind: u16) -> Queue
        ensures { result ≡ fresh_of kind }
    {
        let ring = Ring {
            kind,
            taken: 0,
            place: 0,
            held: 0,
            coming: first_coming(kind),
            count: 0,
        };
        Queue {
            words: [0; 8],
            ring,
        }
    }

    #[tactic(auto, unfolding(crate::specs::Queue::fitted_of))]
    fn fitted(self) -> Queue
        ensures { result ≡ fitted_of self }
    {
        let ring = self.ring;
        if ring.is_fit() {
            return self;
        }
        Queue::fresh(ring.kind)
    }

    #[tactic(auto, unfolding(crate::specs::Steps::load_fit))]
    fn load_fit(mut self, word: u32) -> Step
        requires { Fit self.ring }
        ensures { result ≡ load_fit self word }
    {
        let ring = self.ring;
        if ring.is_full() {
            return answered(self, Refusal::Full.number(), 0);
        }
        let mut words = self.words;
        words[ring.behind() as usize] = word;
        self.words = words;
        self.ring = ring.put();
        answered(self, 0, 0)
    }

    // One word behind those held: 16 where the queue is full, or its count at its largest.
    #[tactic(auto, using(crate::proofs::Fits::fitted_fit), unfolding(crate::specs::Steps::load_of))]
    pub fn load(self, word: u32) -> Step
        ensures { result ≡ load_of self word }
    {
        self.fitted().load_fit(word)
    }

    // The next byte of the word at the place.
    fn front(self) -> u16
        requires { Fit self.ring }
        ensures { result ≡ front_byte self }
    {
        let ring = self.ring;
        // The words alone are copied: with `self.words[..]` here and in `load_fit` the bench's queue took 8,183,938 instructions, not 7,446,658.
        let words = self.words;
        let word = words[ring.place as usize];
        ((word >> (8 * u32::from(ring.taken))) % 0x100) as u16
    }

    #[tactic(auto, unfolding(crate::specs::Steps::read_fit))]
    fn read_fit(mut self, control: u32) -> Step
        requires { Fit self.ring }
        ensures { result ≡ read_fit self control }
    {
        let ring = self.ring;
        if ring.is_empty() {
            return answered(self, Refusal::Empty.number(), 0);
        }
        let byte = self.front();
        self.ring = ring.byte_taken(control);
        answered(self, 0, byte)
    }

    // The next byte out: 17 where the queue is empty. Bits 5-4 of the control register's data say where more is asked for.
    #[tactic(auto, using(crate::proofs::Fits::fitted_fit), unfolding(crate::specs::Steps::read_of))]
    pub fn read(self, control: u32) -> Step
        ensures { result ≡ read_of self control }
    {
        self.fitted().read_fit(control)
    }

    // A video or cursor queue with nothing in it and nothing to come; sound as it is.
    fn emptied(self) -> Queue
        ensures { result ≡ emptied_of self }
    {
        match Kind::from(self.ring.kind) {
            Kind::Sound => self,
            Kind::Video | Kind::Cursor => Queue::fresh(self.ring.kind),
        }
    }

    // Vertical sync starts with raster 0, and there empties all but sound; on other rasters it does nothing.
    #[tactic(auto, unfolding(crate::specs::Steps::vertical_of))]
    pub fn vertical_sync(self, raster: u32) -> Step
        ensures { result ≡ vertical_of self raster }
    {
        let queue = self.fitted();
        if raster == 0 {
            return answered(queue.emptied(), 0, 0);
        }
        answered(queue, 0, 0)
    }

    // Words asked for are still to come, up to the depth.
    #[tactic(auto, unfolding(crate::specs::Steps::ask_of))]
    pub fn ask(self, words: u32) -> Step
        ensures { result ≡ ask_of self words }
    {
        let mut queue = self.fitted();
        queue.ring = queue.ring.asked(words);
        answered(queue, 0, 0)
    }

    // Horizontal sync of a raster: what it asks of this queue.
    #[tactic(auto, unfolding(crate::specs::Steps::horizontal_of))]
    pub fn horizontal_sync(self, g: Registers, raster: u32) -> Step
        ensures { result ≡ horizontal_of self g raster }
    {
        match Kind::from(self.ring.kind) {
            Kind::Cursor => self.ask(cursor_ask(g, raster)),
            Kind::Video | Kind::Sound => self.ask(0),
        }
    }

    // The end of a raster's horizontal sync: what it asks of this queue.
    #[tactic(auto, unfolding(crate::specs::Steps::ends_of))]
    pub fn sync_ends(self, g: Registers, raster: u32) -> Step
        ensures { result ≡ ends_of self g raster }
    {
        match Kind::from(self.ring.kind) {
            Kind::Video => self.ask(video_ask(g, raster)),
            Kind::Cursor | Kind::Sound => self.ask(0),
        }
    }
}
