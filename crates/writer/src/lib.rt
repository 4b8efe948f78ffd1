// The canonical stream: of each token of a stream in turn, its canonical bytes. Document 01: "Canonical".
#![tactic(auto)]

ghost use Rattle.std.specs.Prelude.{◌+◌, ◌*◌, ◌≤◌, ◌<◌, ◌≡◌, length};
ghost use Rattle.spec.specs.Expr.{array_head, canonical};
ghost use Rattle.spec.specs.Calls.{over};
ghost use Rattle.laws.specs.Demands.{meaning_of, CanRead};
ghost use Rattle.atoms.specs.Tokens.{atom_head};
ghost use Rattle.writer.specs.Bytes.{Put, with_head};

use atoms::{Kind, Token};

// How many bytes the head of an array of n bytes takes.
#[tactic(auto, using(crate::proofs::Puts::heads))]
pub fn head_size(n: usize) -> usize
    ensures { result ≡ length (array_head n) }
{
    match n {
        0..=63 => 1,
        64..=255 => 3,
        _ => 4,
    }
}

// How many bytes an atom of that kind, with a body of n bytes, is written with.
#[tactic(auto, using(laws::proofs::Atoms::head_bounds))]
pub fn atom_size(kind: Kind, n: usize) -> usize
    requires { n ≤ 2 * 65536 }
    ensures { result ≡ length (atom_head kind n) + n }
{
    match kind {
        Kind::Array => head_size(n) + n,
        _ => n,
    }
}

// Writes bytes; gives the place behind them.
fn put_bytes(part: &[u8], out: &mut [u8], to: usize) -> usize
    requires { to + length part.now ≤ length out.old }
    ensures { Put out.old to part.now out.new result }
{
    let end = to + part.len();
    out[to..end].copy_from_slice(part);
    end
}

// Writes the head of an array of n bytes.
#[tactic(auto, using(crate::proofs::Puts::heads))]
pub fn put_head(n: usize, out: &mut [u8], to: usize) -> usize
    requires n_bound { n < 65536 }
    requires n_in_bounds { to + length (array_head n) ≤ length out.old }
    ensures { Put out.old to (array_head n) out.new result }
{
    // Kept: `as`, since each arm bounds n; `try_from` would have to be unwrapped.
    match n {
        0..=63 => put_bytes(&[0xC0 + n as u8], out, to),
        64..=255 => put_bytes(&[0x03, 0xC1, n as u8], out, to),
        _ => {
            let [high, low] = (n as u16).to_be_bytes();
            put_bytes(&[0x03, 0xC2, high, low], out, to)
        }
    }
}

// Writes an atom of that kind and body.
#[tactic(auto, using(crate::proofs::Puts::puts))]
pub fn put_atom(kind: Kind, body: &[u8], out: &mut [u8], to: usize) -> usize
    requires body_len_bound { length (with_head kind body.now) ≤ 65536 }
    requires body_in_bounds { to + length (with_head kind body.now) ≤ length out.old }
    ensures { Put out.old to (with_head kind body.now) out.new result }
{
    match kind {
        Kind::Array => {
            let past = put_head(body.len(), out, to);
            put_bytes(body, out, past)
        }
        _ => put_bytes(body, out, to),
    }
}

// Writes the canonical bytes of a stream that can be read.
pub fn emit(s: &[u8], out: &mut [u8])
    requires can_read { CanRead s.now }
    requires s_in_bounds { length (canonical (meaning_of s.now)) ≤ length out.old }
    ensures { out.new ≡ over (canonical (meaning_of s.now)) out.old }
{
    let mut at: usize = 0;
    let mut to: usize = 0;
    // Kept: a `while`, since a token's end says where the next one begins.
    while at < s.len() {
        let Ok(token) = atoms::token_at(s, at) else {
            return;
        };
        match token {
            Token::Opening => {
                out[to] = 0x01;
                to += 1;
                at += 1;
            }
            Token::Closing => {
                out[to] = 0x02;
                to += 1;
                at += 1;
            }
            Token::Atom { kind, body, end } => {
                to = put_atom(kind, &s[body..end], out, to);
                at = end;
            }
            Token::Unfinished => return,
        }
    }
}
