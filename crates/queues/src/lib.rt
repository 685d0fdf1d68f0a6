// The chip's three queues: words go in singly and leave as bytes, low byte first, in the order they came.
#![tactic(auto)]

ghost use Rattle.queues.specs.Queue.{IsOfKind};

mod counted;
pub mod lent;
mod steps;
pub mod syncs;

// What a queue counts. Any numbers may stand here: a call first replaces a record that is not fit by a fresh one.
#[repr(C)]
#[derive(Clone, Copy)]
pub struct Ring {
    // The number of a `Kind`, and no enum: C sets this field, and any number may stand in it.
    pub kind: u16,
    // bytes already read of the word being read
    pub taken: u16,
    // where the word being read stands among the words
    pub place: u32,
    // words held, the one being read among them until its last byte is read
    pub held: u32,
    // words still to come
    pub coming: u32,
    // words loaded since the last emptying
    pub count: u64,
}

// One record for the three queues. One that is four words deep uses the first four.
#[repr(C)]
#[derive(Clone, Copy)]
pub struct Queue {
    pub words: [u32; 8],
    pub ring: Ring,
}

// What every call answers, of the queue as the call leaves it. It crosses to C as it stands, so no `Result` can be here.
#[repr(C)]
#[derive(Clone, Copy)]
pub struct Reply {
    // words loaded since the last emptying
    pub count: u64,
    // the refusal's number, 0 for none
    pub number: u32,
    // the byte read, 0 where none was
    pub byte: u16,
    // 1 while four words or more are still to come, else 0
    pub asks: u16,
}

// A step by value: the queue afterwards, and the answer.
#[repr(C)]
#[derive(Clone, Copy)]
pub struct Step {
    pub queue: Queue,
    pub reply: Reply,
}

// Which of the three a queue is.
#[derive(Clone, Copy)]
enum Kind {
    // number 0, eight words deep
    Video,
    // number 1, four
    Cursor,
    // any other number, four
    Sound,
}

impl From<u16> for Kind {
    ghost from_gives = { λ n kind. IsOfKind n kind };

    fn from(n: u16) -> Kind {
        match n {
            0 => Kind::Video,
            1 => Kind::Cursor,
            _ => Kind::Sound,
        }
    }
}
