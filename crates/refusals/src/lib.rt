// The table of refusals: a named case for each row, and the paper's number and detail of each. A call that may be refused answers
// `Result<_, Refusal>`.
#![tactic(auto)]

ghost use Rattle.std.specs.Prelude.{◌≡◌, MatchResult, IsTrue, IsFalse};
ghost use Rattle.refusals.specs.Refusals.{why_of};

#[derive(Clone, Copy, Debug, PartialEq, Eq)]
pub enum Refusal {
    // 1: more register words than a list may have
    TooManyWords,
    // 2: a reserved address, with the index of the first such word
    Reserved(u32),
    // 3: a needed register unwritten, with the lowest such address
    Unwritten(u32),
    // 4: control bit 14 or 15 set
    TestMode,
    // 5: interlace set
    Interlace,
    // 6: not HS ≤ BS ≤ DS < DE ≤ BE ≤ N
    Horizontal,
    // 7: the vertical rule broken
    Vertical,
    // 8: a displayed raster is no whole number of words
    Width,
    // 9: cursor on, and its sub-position not 0 or its end below the frame
    Cursor,
    // 10: a stereo value 0 or a sound frequency below 3, with the lowest such address
    Sound(u32),
    // 11: video or cursor word count wrong
    WordCount,
    // 12: a raster number past the last
    Raster,
    // 13: a lent buffer too short
    Short,
    // 14: a plate file's length or trailer wrong
    PlateFile,
    // 15: a plate or printer input too large
    TooLarge,
    // 16: load into a full queue, or with its count at its largest
    Full,
    // 17: read from an empty queue
    Empty,
    // 18: a word index outside the list
    WordIndex,
    // 19: cursor on, and horizontal sync too short for it
    SyncWidth,
    // 20: a camera number of more than 12 bits, with the index of the first such number
    Camera(u32),
}

impl Refusal {
    // The number and the detail of its row.
    fn numbers(self) -> (u32, u32)
        ensures { (result.0 ≡ (why_of self).number) × (result.1 ≡ (why_of self).detail) }
    {
        match self {
            Refusal::TooManyWords => (1, 0),
            Refusal::Reserved(index) => (2, index),
            Refusal::Unwritten(address) => (3, address),
            Refusal::TestMode => (4, 0),
            Refusal::Interlace => (5, 0),
            Refusal::Horizontal => (6, 0),
            Refusal::Vertical => (7, 0),
            Refusal::Width => (8, 0),
            Refusal::Cursor => (9, 0),
            Refusal::Sound(address) => (10, address),
            Refusal::WordCount => (11, 0),
            Refusal::Raster => (12, 0),
            Refusal::Short => (13, 0),
            Refusal::PlateFile => (14, 0),
            Refusal::TooLarge => (15, 0),
            Refusal::Full => (16, 0),
            Refusal::Empty => (17, 0),
            Refusal::WordIndex => (18, 0),
            Refusal::SyncWidth => (19, 0),
            Refusal::Camera(index) => (20, index),
        }
    }

    pub fn number(self) -> u32
        ensures { result ≡ (why_of self).number }
    {
        self.numbers().0
    }

    pub fn detail(self) -> u32
        ensures { result ≡ (why_of self).detail }
    {
        self.numbers().1
    }
}

// A row of the table: the refusal, where the test holds.
pub fn refuse_if(wrong: bool, why: Refusal) -> Result<(), Refusal>
    ensures { MatchResult result (λ _. IsFalse wrong) (λ e. IsTrue wrong × (e ≡ why)) }
{
    if wrong {
        return Err(why);
    }
    Ok(())
}
