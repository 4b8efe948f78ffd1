// What stands at a place of a stream: a form's 01 or 02, a whole atom, or a refusal. Document 01: "Bytes to expressions", refusals 2 to 7.
#![tactic(auto)]

ghost use Rattle.std.specs.Prelude.{◌≡◌, ℕ, suc, ◌+◌, ◌-◌, ◌≤◌, ◌<◌, min, length, take, drop};
ghost use Rattle.spec.specs.Reading.{taken, and_then, take_bytes, natural, length_expr, marker, name, as_array};
ghost use Rattle.atoms.specs.Refusals.{told};
ghost use Rattle.atoms.specs.Tokens.{kind_number, token_at, shown, shown_atom, measured, leading_threes, plain, around};

pub mod refusal;

pub use crate::refusal::{Reason, Refusal};

// No stream that is read has more bytes.
pub const STREAM_LIMIT: usize = 65536;

// A number of bytes above the limit is told as the next one: no stream has as many.
const TOO_MANY: usize = STREAM_LIMIT + 1;

// What a row or an atom is.
#[derive(Clone, Copy, Debug, PartialEq, Eq)]
pub enum Kind {
    Nil,
    Form,
    Array,
    Int,
    Reference,
}

// A row's first number.
impl From<Kind> for u32 {
    ghost from_gives = { λ kind n. n ≡ kind_number kind };

    fn from(kind: Kind) -> u32 {
        match kind {
            Kind::Nil => 0,
            Kind::Form => 1,
            Kind::Array => 2,
            Kind::Int => 3,
            Kind::Reference => 4,
        }
    }
}

#[derive(Clone, Copy, Debug, PartialEq, Eq)]
pub enum Token {
    Opening,
    Closing,
    // `body` is where an array's bytes begin; any other atom is all body.
    Atom { kind: Kind, body: usize, end: usize },
    // An atom in which the stream ends.
    Unfinished,
}

// A length expression's number, held at `TOO_MANY`, and where the expression ends.
#[derive(Clone, Copy)]
struct Length {
    value: usize,
    end: usize,
}

// Kept: that a stream is not too long stands in each contract. A struct that holds it would be made of what is lent, at each call.
// Kept: `from` and `to`, no range: what is handed a range uses it up.

// The big-endian number of the bytes from `from` up to `to`, held at `TOO_MANY`.
#[tactic(auto, using(crate::proofs::Places::naturals))]
pub fn number(s: &[u8], from: usize, to: usize) -> usize
    requires { (from ≤ to) × (to ≤ length s.now) }
    ensures { result ≡ min (natural 0 (take (to - from) (drop from s.now))) 65537 }
{
    let mut v: usize = 0;
    for b in &s[from..to] {
        v = (v * 256 + usize::from(*b)).min(TOO_MANY);
    }
    v
}

// How many bytes 03 stand in a row at a place; 8 where there are more.
pub fn threes(s: &[u8], at: usize) -> usize
    requires { at ≤ length s.now }
    ensures { result ≡ leading_threes 8 (drop at s.now) }
{
    s[at..].iter().take(8).take_while(|b| **b == 3).count()
}

// A length expression that is no generic array. None where the stream ends inside it.
#[tactic(auto, using(crate::proofs::Places::plain_lengths))]
fn plain_length(s: &[u8], at: usize) -> Result<Option<Length>, Refusal>
    requires { at ≤ length s.now }
    ensures { told result ≡ measured (length s.now) (plain (drop at s.now)) }
{
    let Some(first) = s.get(at) else {
        return Ok(None);
    };
    let b = usize::from(*first);
    let body = at + 1;
    if b < 0x80 {
        return Err(Refusal::new(Reason::NoLength, at));
    }
    if b < 0xC0 {
        return Ok(Some(Length {
            value: b - 0x80,
            end: body,
        }));
    }
    let n = b - 0xC0;
    if s.len() - body < n {
        return Ok(None);
    }
    let end = body + n;
    Ok(Some(Length {
        value: number(s, body, end),
        end,
    }))
}

// A length that is the length of the next, `depth` times: the innermost is `inner`. None where the stream ends inside it.
#[tactic(auto, using(crate::proofs::Places::nested))]
fn nested_length(s: &[u8], inner: Length, depth: usize) -> Option<Length>
    requires { (length s.now ≤ 65536) × (inner.end ≤ length s.now) × (inner.value ≤ 65537) }
    ensures { Ok result ≡ measured (length s.now) (around depth (taken inner.value (drop inner.end s.now))) }
{
    let mut length = inner;
    for _ in 0..depth {
        let from = length.end;
        if s.len() - from < length.value {
            return None;
        }
        let end = from + length.value;
        length = Length {
            value: number(s, from, end),
            end,
        };
    }
    Some(length)
}

// The length expression at a place, behind an array's own 03. None where the stream ends inside it.
fn length_at(s: &[u8], at: usize) -> Result<Option<Length>, Refusal>
    requires { (length s.now ≤ 65536) × (at ≤ length s.now) }
    ensures { told result ≡ measured (length s.now) (length_expr 7 (drop at s.now)) }
{
    let depth = threes(s, at);
    if depth == 8 {
        return Err(Refusal::new(Reason::TooDeep, at + 7));
    }
    let Some(inner) = plain_length(s, at + depth)? else {
        return Ok(None);
    };
    Ok(nested_length(s, inner, depth))
}

// The generic array whose 03 is at a place, by its length expression of any shape. It stays a call, so that `any_token` saves no registers.
#[inline(never)]
fn any_array(s: &[u8], at: usize) -> Result<Token, Refusal>
    requires { (length s.now ≤ 65536) × (at < length s.now) }
    ensures { told result ≡ shown_atom at (length s.now)
        (and_then (and_then (length_expr 7 (drop (suc at) s.now)) take_bytes) as_array) }
{
    let Some(length) = length_at(s, at + 1)? else {
        return Ok(Token::Unfinished);
    };
    Ok(bytes_at(s, length.end, length.value))
}

// The generic array whose 03 is at a place. The lengths that a canonical stream has, and small integers, are read here, the others by `any_array`.
// Kept: two functions that tell the same. By `any_array` alone, such an array takes 24 percent more instructions to check.
#[tactic(auto, using(crate::proofs::Places::short_lengths))]
fn array_at(s: &[u8], at: usize) -> Result<Token, Refusal>
    requires { (length s.now ≤ 65536) × (at < length s.now) }
    ensures { told result ≡ shown_atom at (length s.now)
        (and_then (and_then (length_expr 7 (drop (suc at) s.now)) take_bytes) as_array) }
{
    if 4 <= s.len() - at {
        let b = s[at + 1];
        match b {
            0x80..=0xBF => return Ok(bytes_at(s, at + 2, usize::from(b - 0x80))),
            0xC1 => return Ok(bytes_at(s, at + 3, usize::from(s[at + 2]))),
            0xC2 => {
                let size = u16::from_be_bytes([s[at + 2], s[at + 3]]);
                return Ok(bytes_at(s, at + 4, usize::from(size)));
            }
            _ => {}
        }
    }
    any_array(s, at)
}

// The array of `size` bytes that begin at `body`.
#[tactic(auto, using(crate::proofs::Places::shown_atoms))]
fn bytes_at(s: &[u8], body: usize, size: usize) -> Token
    requires { body ≤ length s.now }
    ensures { (p : ℕ) → Ok result ≡ shown_atom p (length s.now) (and_then (take_bytes size (drop body s.now)) as_array) }
{
    if s.len() - body < size {
        return Token::Unfinished;
    }
    Token::Atom {
        kind: Kind::Array,
        body,
        end: body + size,
    }
}

// The reference at `at` whose marker is `sum` and ends at `past`, where its name byte is.
#[tactic(auto, using(crate::proofs::Places::shown_atoms))]
fn reference(s: &[u8], at: usize, sum: usize, past: usize) -> Result<Token, Refusal>
    requires { (at ≤ length s.now) × (past ≤ length s.now) }
    ensures { told result ≡ shown_atom at (length s.now) (name (drop at s.now) sum (drop past s.now)) }
{
    if past == s.len() {
        return Ok(Token::Unfinished);
    }
    if 65535 < sum {
        return Err(Refusal::new(Reason::LargeMarker, at));
    }
    Ok(Token::Atom {
        kind: Kind::Reference,
        body: at,
        end: past + 1,
    })
}

// The reference whose 7F is at a place.
#[tactic(auto, using(crate::proofs::Places::markers))]
fn long_reference(s: &[u8], at: usize) -> Result<Token, Refusal>
    requires { (length s.now ≤ 65536) × (at < length s.now) }
    ensures { told result ≡ shown_atom at (length s.now) (and_then (marker 0x7F (drop (suc at) s.now)) (name (drop at s.now))) }
{
    let mut sum: usize = 0x7F;
    for p in at + 1..s.len() {
        sum += usize::from(s[p]);
        if s[p] != 0xFF {
            return reference(s, at, sum, p + 1);
        }
    }
    Ok(Token::Unfinished)
}

// The atom of one byte at a place.
fn single(kind: Kind, at: usize) -> Token
    requires { at < 65536 }
    ensures { result ≡ Token.Atom kind at (at + 1) }
{
    Token::Atom {
        kind,
        body: at,
        end: at + 1,
    }
}

// The token at a place of a stream, whichever it is. It stays a call, so that `token_at` is short.
#[tactic(auto, using(crate::proofs::First::first_bytes))]
#[inline(never)]
pub fn any_token(s: &[u8], at: usize) -> Result<Token, Refusal>
    requires { (length s.now ≤ 65536) × (at < length s.now) }
    ensures { told result ≡ shown (token_at s.now at) }
{
    let b = s[at];
    match b {
        0x00 => return Ok(single(Kind::Nil, at)),
        0x01 => return Ok(Token::Opening),
        0x02 => return Ok(Token::Closing),
        0x03 => {}
        0x04..=0x0F => return Err(Refusal::new(Reason::ReservedMarker, at)),
        0x10..=0x7E => return reference(s, at, usize::from(b), at + 1),
        0x7F => return long_reference(s, at),
        0x80..=0xBF => return Ok(single(Kind::Int, at)),
        0xC0..=0xFF => return Ok(bytes_at(s, at + 1, usize::from(b - 0xC0))),
    }
    array_at(s, at)
}

// The token at a place of a stream. The common ones are told here, in so few instructions that they are compiled into the loops over tokens; the
// others by `any_token`.
// Kept: two functions that tell the same. With a call for each token, Read takes about twice the instructions.
#[tactic(auto, using(crate::proofs::First::first_bytes))]
#[inline(always)]
pub fn token_at(s: &[u8], at: usize) -> Result<Token, Refusal>
    requires { (length s.now ≤ 65536) × (at < length s.now) }
    ensures { told result ≡ shown (token_at s.now at) }
{
    let b = s[at];
    let left = s.len() - at;
    match b {
        0x01 => return Ok(Token::Opening),
        0x00 => return Ok(single(Kind::Nil, at)),
        0x02 => return Ok(Token::Closing),
        0x10..=0x7E => {
            if 1 < left {
                return Ok(Token::Atom {
                    kind: Kind::Reference,
                    body: at,
                    end: at + 2,
                });
            }
        }
        0x80..=0xBF => return Ok(single(Kind::Int, at)),
        0xC0..=0xFF => {
            let size = usize::from(b - 0xC0);
            if size < left {
                return Ok(Token::Atom {
                    kind: Kind::Array,
                    body: at + 1,
                    end: at + 1 + size,
                });
            }
        }
        _ => {}
    }
    // Told apart here, so that a loop need not tell a refusal from the answers above, nor have these in memory.
    let other = any_token(s, at)?;
    Ok(other)
}
