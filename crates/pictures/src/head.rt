// The head of a binary PPM file, taken byte by byte: `P6`, three numbers with white before each, and one white byte.
ghost use Rattle.std.specs.Prelude.{◌≡◌, ◌-◌};
ghost use Rattle.buffers.specs.Pick.{pick};
ghost use Rattle.pictures.specs.Head.{is_white};
ghost use Rattle.pictures.specs.HeadNext.{with_digit, number_asked, white_next, behind_next, head_next, whole_head, open_head};

// What was read of it.
#[derive(Clone, Copy)]
pub enum Head {
    // Nothing; `P`; `P6`.
    Empty,
    Letter,
    Kind,
    // White before number k, and a comment among it.
    White(u8),
    Comment(u8),
    // Number k, and what its digits say so far.
    Number(u8, u32),
    // All of it; and what is no right head.
    Whole,
    Wrong,
}

// Space, tab, line feed, vertical tab, form feed, carriage return.
fn is_white(byte: u8) -> bool
    ensures { result ≡ is_white byte }
{
    matches!(byte, b' ' | 9..=13)
}

// A number with a digit more. One past 65,535 is larger than any that is asked for, and stays as it is.
fn with_digit(number: u32, digit: u8) -> u32
    ensures { result ≡ with_digit number digit }
{
    if 65535 < number {
        return number;
    }
    10 * number + u32::from(digit)
}

// Number k of a head: the width, the height and the greatest value.
fn number_asked(k: u8, n: u16, v: u16) -> u32
    ensures { result ≡ number_asked n v k }
{
    match k {
        0 => u32::from(n),
        1 => u32::from(v),
        _ => 255,
    }
}

impl Head {
    pub fn is_whole(self) -> bool
        ensures { result ≡ whole_head self }
    {
        matches!(self, Head::Whole)
    }

    // Whether there is more of it to come.
    pub fn is_open(self) -> bool
        ensures { result ≡ open_head self }
    {
        !matches!(self, Head::Whole | Head::Wrong)
    }

    fn only_if(self, so: bool) -> Head
        ensures { result ≡ pick so self Head.Wrong }
    {
        if so {
            return self;
        }
        Head::Wrong
    }

    // Before number k, by a byte of white or of a comment.
    fn before(k: u8, byte: u8) -> Head
        ensures { result ≡ white_next k byte }
    {
        if byte == b'#' {
            return Head::Comment(k);
        }
        Head::White(k).only_if(is_white(byte))
    }

    // Behind number k, which is the one that is asked for.
    fn behind(k: u8, byte: u8) -> Head
        ensures { result ≡ behind_next k byte }
    {
        if k < 2 {
            return Head::before(k + 1, byte);
        }
        Head::Whole.only_if(is_white(byte))
    }

    // In number k with a digit more.
    fn digits(k: u8, number: u32, byte: u8) -> Head
        ensures { result ≡ Head.Number k (with_digit number (byte - 48)) }
    {
        Head::Number(k, with_digit(number, byte.saturating_sub(b'0')))
    }

    // With a byte more, of a picture of n x v.
    pub fn next(self, byte: u8, n: u16, v: u16) -> Head
        ensures { result ≡ head_next n v self byte }
    {
        match self {
            Head::Empty => Head::Letter.only_if(byte == b'P'),
            Head::Letter => Head::Kind.only_if(byte == b'6'),
            Head::Kind => Head::before(0, byte),
            Head::White(k) => {
                if byte.is_ascii_digit() {
                    return Head::digits(k, 0, byte);
                }
                Head::before(k, byte)
            }
            Head::Comment(k) => {
                if byte == b'\n' {
                    return Head::White(k);
                }
                self
            }
            Head::Number(k, number) => {
                if byte.is_ascii_digit() {
                    return Head::digits(k, number, byte);
                }
                Head::behind(k, byte).only_if(number == number_asked(k, n, v))
            }
            Head::Whole => Head::Wrong,
            Head::Wrong => Head::Wrong,
        }
    }
}
