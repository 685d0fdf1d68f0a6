// The bench around one video queue: which call each tick makes, and what is noted of each raster.
ghost use Rattle.std.specs.Prelude.{◌≡◌};
ghost use Rattle.live.specs.Table.{word_or, byte_or, row_at, row_since};
ghost use Rattle.live.specs.Bench.{
  one_read,
  is_own,
  called,
  with_call,
  counted_of,
  block_of,
  is_running,
  has_room,
  is_finished,
  chosen_call,
  chosen_left,
  noted,
  call_of,
  next_of,
  told_of,
};

use queues::lent::{ask, load, read, vertical_sync};
use queues::{Queue, Reply};

// A call on the queue: the raster whose sync starts, the words asked for, the word loaded, or the control register's data.
#[derive(Clone, Copy)]
pub enum Call {
    VerticalSync(u32),
    Ask(u32),
    Load(u32),
    Read(u32),
}

// What the table has of a raster.
#[derive(Clone, Copy, Default)]
pub struct Row {
    // beforehand the words that its sync asks for; afterwards all words asked for up to its end
    pub asked: u32,
    // beforehand the bytes that its display takes; afterwards all words loaded up to its end
    pub loaded: u32,
    // afterwards all bytes read up to its end
    pub read: u32,
}

// Over the frame: words asked for, words loaded, bytes read, and how many bytes were read up to the first that is not the frame's own.
#[derive(Clone, Copy)]
pub struct Totals {
    pub asked: u32,
    pub words: u32,
    pub bytes: u32,
    pub own: u32,
}

#[derive(Clone, Copy)]
pub struct Bench {
    // the last call, none before the first tick
    pub last: Option<Call>,
    // the control register's data, and how many rasters the frame has
    pub control: u32,
    pub rasters: u32,
    // the raster that runs; of a block that was asked for the words not yet loaded; of the raster's bytes those not yet read
    pub raster: u32,
    pub block: u32,
    pub left: u32,
    pub totals: Totals,
}

// A word of the frame, and behind its last one filler.
fn word_or(words: &[u32], at: u32) -> u32
    ensures { result ≡ word_or words.now at }
{
    let at = at as usize;
    if at < words.len() {
        words[at]
    } else {
        u32::MAX
    }
}

// A byte of those words, low byte first.
fn byte_or(words: &[u32], at: u32) -> u16
    ensures { result ≡ byte_or words.now at }
{
    ((word_or(words, at / 4) >> (8 * (at % 4))) % 0x100) as u16
}

// A raster's row in the table, zeros behind its end.
fn row_at(told: &[Row], raster: u32) -> Row
    ensures { result ≡ row_at told.now raster }
{
    let raster = raster as usize;
    if raster < told.len() {
        told[raster]
    } else {
        Row::default()
    }
}

impl Row {
    // The totals at a raster's end without those at the end of the raster before it.
    pub fn since(self, before: Row) -> Row
        ensures { result ≡ row_since self before }
    {
        Row {
            asked: self.asked.saturating_sub(before.asked),
            loaded: self.loaded.saturating_sub(before.loaded),
            read: self.read.saturating_sub(before.read),
        }
    }
}

impl Call {
    // The call made on a queue that is lent.
    pub fn on(self, q: &mut Queue) -> Reply
        ensures { (q.new ≡ (called self q.old).queue) × (result ≡ (called self q.old).reply) }
    {
        match self {
            Call::VerticalSync(raster) => vertical_sync(q, raster),
            Call::Ask(words) => ask(q, words),
            Call::Load(word) => load(q, word),
            Call::Read(control) => read(q, control),
        }
    }
}

impl Totals {
    // One byte more is read. The frame's own bytes end with the first that is not.
    fn one_read(mut self, own: bool) -> Totals
        ensures { result ≡ one_read self own }
    {
        if own & (self.own == self.bytes) {
            self.own = self.own.wrapping_add(1);
        }
        self.bytes = self.bytes.wrapping_add(1);
        self
    }
}

// A byte was read, and it is the frame's own.
fn is_own(reply: Reply, own: u16) -> bool
    ensures { result ≡ is_own reply own }
{
    (reply.number == 0) & (reply.byte == own)
}

impl Bench {
    // What the last call did: a load that was not refused, or a read, whose byte is held against the frame's own.
    #[tactic(auto, unfolding(crate::specs::Bench::counted_of))]
    fn counted(mut self, reply: Reply, words: &[u32]) -> Bench
        ensures { result ≡ counted_of self reply words.now }
    {
        match self.last {
            Some(Call::Load(_)) => {
                if reply.number == 0 {
                    self.block = self.block.saturating_sub(1);
                    self.totals.words = self.totals.words.wrapping_add(1);
                }
            }
            Some(Call::Read(_)) => {
                let own = is_own(reply, byte_or(words, self.totals.bytes));
                self.left = self.left.saturating_sub(1);
                self.totals = self.totals.one_read(own);
            }
            _ => {}
        }
        self
    }

    // Where the queue asks and no block is being loaded, a block of four begins.
    #[tactic(auto, unfolding(crate::specs::Bench::block_of))]
    fn with_block(mut self, asks: u16) -> Bench
        ensures { result ≡ block_of self asks }
    {
        if (self.block == 0) & (asks == 1) {
            self.block = 4;
            self.totals.asked = self.totals.asked.wrapping_add(4);
        }
        self
    }

    fn is_running(self) -> bool
        ensures { result ≡ is_running self }
    {
        self.raster < self.rasters
    }

    // A word of a block is to be loaded, and fewer than eight words are held.
    fn has_room(self) -> bool
        ensures { result ≡ has_room self }
    {
        (0 < self.block) & (self.totals.words.saturating_sub(self.totals.bytes / 4) < 8)
    }

    // Its sync is over, no word of a block can be loaded, and no byte is left to be read.
    fn is_finished(self) -> bool
        ensures { result ≡ is_finished self }
    {
        let synced = match self.last {
            None | Some(Call::VerticalSync(_)) => false,
            Some(_) => true,
        };
        self.is_running() & synced & !self.has_room() & (self.left == 0)
    }

    // The call on a raster that is not finished: its vertical sync; at the sync's end an ask for the words in its row; a load where there
    // is room, else a read. Behind the last raster nothing is asked for.
    #[tactic(auto, unfolding(crate::specs::Bench::chosen_call))]
    fn chosen_call(self, words: &[u32], told: &[Row]) -> Call
        ensures { result ≡ chosen_call self words.now told.now }
    {
        if !self.is_running() {
            return Call::Ask(0);
        }
        match self.last {
            None => Call::VerticalSync(self.raster),
            Some(Call::VerticalSync(_)) => Call::Ask(row_at(told, self.raster).asked),
            Some(_) => {
                if self.has_room() {
                    Call::Load(word_or(words, self.totals.words))
                } else {
                    Call::Read(self.control)
                }
            }
        }
    }

    // At the sync's end all bytes that the raster's display takes are left.
    #[tactic(auto, unfolding(crate::specs::Bench::chosen_left))]
    fn chosen_left(self, told: &[Row]) -> u32
        ensures { result ≡ chosen_left self told.now }
    {
        match self.last {
            Some(Call::VerticalSync(_)) if self.is_running() => row_at(told, self.raster).loaded,
            _ => self.left,
        }
    }

    // The totals, in the raster's row.
    #[tactic(auto, unfolding(crate::specs::Bench::noted))]
    fn note(self, told: &mut [Row])
        ensures { told.new ≡ noted self told.old }
    {
        let raster = self.raster as usize;
        if raster < told.len() {
            told[raster] = Row {
                asked: self.totals.asked,
                loaded: self.totals.words,
                read: self.totals.bytes,
            };
        }
    }

    fn with_call(mut self, call: Call, raster: u32, left: u32) -> Bench
        ensures { result ≡ with_call self call raster left }
    {
        self.last = Some(call);
        self.raster = raster;
        self.left = left;
        self
    }

    // What the last call did is counted; then the next call is chosen, or the raster is noted and the next one begins.
    pub fn next(&mut self, reply: Reply, words: &[u32], told: &mut [Row]) -> Call
        ensures bench { self.new ≡ next_of self.old reply words.now told.old }
        ensures call { result ≡ call_of self.old reply words.now told.old }
        ensures table { told.new ≡ told_of self.old reply words.now told.old }
    {
        let b = self.counted(reply, words).with_block(reply.asks);
        if b.is_finished() {
            b.note(told);
            let raster = b.raster.wrapping_add(1);
            let call = Call::VerticalSync(raster);
            *self = b.with_call(call, raster, b.left);
            return call;
        }
        let call = b.chosen_call(words, told);
        *self = b.with_call(call, b.raster, b.chosen_left(told));
        call
    }
}
