// The program's arguments: how many steps may be taken, and how many bytes of workspace there are. Assumes the contracts that the kit states of
// its calls in C for arguments.
use std::env::{Env, FillError};

// Over in a second.
const STEPS: u64 = 1_000_000;

// A longer word is no number.
const WORD_SIZE: usize = 64;

#[derive(Clone, Copy)]
pub struct Bounds {
    pub steps: u64,
    pub workspace: u64,
}

// A decimal number; above 64 bits, the largest.
fn number(word: &[u8]) -> Option<u64> {
    if word.is_empty() {
        return None;
    }
    let mut value: u64 = 0;
    for b in word {
        if !b.is_ascii_digit() {
            return None;
        }
        value = text::with_digit(value, *b - b'0');
    }
    Some(value)
}

// Argument i, or what stands for it if there is none.
fn argument(rt: &impl Env, i: usize, absent: u64) -> Option<u64> {
    let mut word = [0u8; WORD_SIZE];
    match rt.arg(i, &mut word) {
        Ok(length) => number(&word[..length]),
        Err(FillError::NotPresent) => Some(absent),
        Err(FillError::TooLong) => None,
    }
}

// Whether there is an argument i.
fn is_given(rt: &impl Env, i: usize) -> bool {
    let mut word = [0u8; WORD_SIZE];
    !matches!(rt.arg(i, &mut word), Err(FillError::NotPresent))
}

// None where the arguments are not as they must be.
pub fn read(rt: &impl Env) -> Option<Bounds> {
    if is_given(rt, 3) {
        return None;
    }
    Some(Bounds {
        steps: argument(rt, 1, STEPS)?,
        // Kept: `as`, for which there is no `From`.
        workspace: argument(rt, 2, bulk::WORKSPACE_LIMIT as u64)?,
    })
}
