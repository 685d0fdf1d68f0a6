// The threshold that the program was started with.
use std::env::{Env, FillError};

// The number that some digits say; none where there are none, where one of them is no digit, or where they say more than 255.
fn threshold_of(digits: &[u8]) -> Option<u8> {
    if digits.is_empty() {
        return None;
    }
    let mut n: u8 = 0;
    for digit in digits {
        if !digit.is_ascii_digit() {
            return None;
        }
        n = n.checked_mul(10)?.checked_add(digit - b'0')?;
    }
    Some(n)
}

// The first argument, 128 where there is none.
pub fn asked(rt: &impl Env) -> Option<u8> {
    let mut text = [0; 32];
    match rt.arg(1, &mut text) {
        Ok(n) => threshold_of(&text[..n]),
        Err(FillError::NotPresent) => Some(128),
        Err(FillError::TooLong) => None,
    }
}
