// What a queue counts, step by step: depth, fitness, the place behind the last word, a word put in, a byte taken out, words asked for.
ghost use Rattle.std.specs.Prelude.{◌≡◌, false, ◌<◌, ◌+◌};
ghost use Rattle.queues.specs.Queue.{queue_depth, is_fit, Fit, is_full, is_empty, asks_bit};
ghost use Rattle.queues.specs.Steps.{behind, ring_put, asked_by, ring_asked, word_done, byte_taken};

use crate::{Kind, Ring};

impl Ring {
    // How many words a queue holds.
    pub(crate) fn depth(self) -> u32
        ensures { result ≡ queue_depth self.kind }
    {
        match Kind::from(self.kind) {
            Kind::Video => 8,
            Kind::Cursor | Kind::Sound => 4,
        }
    }

    pub(crate) fn is_fit(self) -> bool
        ensures { result ≡ is_fit self }
    {
        let depth = self.depth();
        (self.place < depth)
            & (self.held <= depth)
            & (self.coming <= depth)
            & (self.taken < 4)
            & ((self.taken == 0) | (0 < self.held))
            & (u64::from(self.held) <= self.count)
    }

    pub(crate) fn is_full(self) -> bool
        ensures { result ≡ is_full self }
    {
        (self.depth() <= self.held) | (self.count == u64::MAX)
    }

    pub(crate) fn is_empty(self) -> bool
        ensures { result ≡ is_empty self }
    {
        self.held == 0
    }

    // 1 while four words or more are still to come.
    pub(crate) fn asks(self) -> u16
        ensures { result ≡ asks_bit self }
    {
        u16::from(4 <= self.coming)
    }

    // The place behind the last word held.
    pub(crate) fn behind(self) -> u32
        requires { Fit self }
        ensures { result ≡ behind self }
    {
        (self.place + self.held) % self.depth()
    }

    // One word more is held and counted, and one less is to come.
    pub(crate) fn put(mut self) -> Ring
        requires { Fit self × (is_full self ≡ false) }
        ensures { result ≡ ring_put self }
    {
        self.held += 1;
        self.count += 1;
        self.coming = self.coming.saturating_sub(1);
        self
    }

    // Words asked for are still to come, up to the depth. The sum is in 64 bits: with `saturating_add` the bench's queue takes 7,078,018 instructions,
    // and bench/counts.txt had 6,930,569.
    #[tactic(auto, using(crate::proofs::Fits::deep_most))]
    pub(crate) fn asked(mut self, words: u32) -> Ring
        ensures { result ≡ ring_asked self words }
    {
        let sum = u64::from(self.coming) + u64::from(words);
        self.coming = sum.min(u64::from(self.depth())) as u32;
        self
    }

    // How many words reading the last byte of the word at the place asks for.
    fn asked_by(self, control: u32) -> u32
        ensures { result ≡ asked_by self control }
    {
        // By the number: with a match of its `Kind` here the bench's queue took 7,446,658 instructions, and with this test 7,078,018.
        let asks = if self.kind == 0 {
            self.place % 4 == control / 0x10 % 4
        } else {
            (1 < self.kind) & (self.held == 1)
        };
        4 * u32::from(asks)
    }

    // The word at the place is wholly read: its room is free again.
    fn word_done(mut self, control: u32) -> Ring
        requires { Fit self × (is_empty self ≡ false) }
        ensures { result ≡ word_done self control }
    {
        let words = self.asked_by(control);
        self.taken = 0;
        self.place = (self.place + 1) % self.depth();
        self.held -= 1;
        self.asked(words)
    }

    // One byte more is taken of the word at the place.
    pub(crate) fn byte_taken(mut self, control: u32) -> Ring
        requires { Fit self × (is_empty self ≡ false) }
        ensures { result ≡ byte_taken self control }
    {
        if self.taken == 3 {
            return self.word_done(control);
        }
        self.taken += 1;
        self
    }
}
