// Two passes over a stream: the first checks it and counts, the second writes its rows. And the search for an item.
// Document 01: "Read", "Table", "Item".
#![tactic(auto)]

ghost use Rattle.std.specs.Prelude.{◌≡◌, ◌+◌, ◌-◌, ◌*◌, ◌≤◌, ◌<◌, length, drop, get_or, MatchOption, MatchResult};
ghost use Rattle.spec.specs.Reading.{began, tokens, ends, rows_of, row_width, read};
ghost use Rattle.spec.specs.Calls.{filled, row_at, Buffer, item, item_read};
ghost use Rattle.laws.specs.Demands.{meaning_of, CanRead};
ghost use Rattle.atoms.specs.Refusals.{told};
ghost use Rattle.atoms.specs.declared.refusal.Reason.TheVariants.{FullTable};
ghost use Rattle.atoms.specs.Tokens.{kind_number, atom_head};
ghost use Rattle.reader.specs.Passes.{checked, row_started, row_ended, RightFrom, found_part};

use atoms::{Kind, Reason, Refusal, Token};

// The bytes of the longest stream.
pub const STREAM_LIMIT: usize = atoms::STREAM_LIMIT;

// Kept: `as`, where there is no `From`: each place is below 65,537, and what `try_from` gives would have to be unwrapped.

// The forms that may be open at once.
const FORM_LIMIT: usize = 64;

// The numbers of a row.
pub const ROW_WIDTH: usize = 4;

// How many rows a stream has, and the length of its canonical bytes.
#[derive(Clone, Copy, Debug, PartialEq, Eq)]
pub struct Counts {
    pub rows: usize,
    pub length: usize,
}

// How many bytes fewer an atom has as it is written canonically.
fn spared(kind: Kind, at: usize, body: usize, end: usize) -> usize
    requires { (body ≤ end) × (at + length (atom_head kind (end - body)) ≤ body) }
    ensures { result ≡ body - at - length (atom_head kind (end - body)) }
{
    let before = body - at;
    if kind == Kind::Array {
        return before - writer::head_size(end - body);
    }
    before
}

// Where the top-level expression begins to which the token at a place belongs; the outermost of the open forms begins at `from`.
fn began(depth: usize, from: usize, at: usize) -> usize
    ensures { result ≡ began depth from at }
{
    if depth == 0 {
        return at;
    }
    from
}

// One row more, for a token at a place, if there is room.
fn next_row(rows: usize, room: usize, at: usize) -> Result<usize, Refusal>
    ensures { MatchResult result (λ n. (rows < room) × (n ≡ rows + 1)) (λ r. (room ≤ rows) × (r.reason ≡ FullTable) × (r.place ≡ at)) }
{
    if room <= rows {
        return Err(Refusal::new(Reason::FullTable, at));
    }
    Ok(rows + 1)
}

// The first pass over a stream that is not too long. `saved` is how many bytes fewer its tokens so far have as they are written canonically.
fn check_tokens(s: &[u8], room: usize) -> Result<Counts, Refusal>
    requires { length s.now ≤ 65536 }
    ensures { told result ≡ checked (read s.now room) }
{
    let mut at: usize = 0;
    let mut from: usize = 0;
    let mut depth: usize = 0;
    let mut rows: usize = 0;
    let mut saved: usize = 0;
    while at < s.len() {
        match atoms::token_at(s, at)? {
            Token::Opening => {
                if FORM_LIMIT <= depth {
                    return Err(Refusal::new(Reason::TooDeep, at));
                }
                rows = next_row(rows, room, at)?;
                from = began(depth, from, at);
                depth += 1;
                at += 1;
            }
            Token::Closing => {
                if depth == 0 {
                    return Err(Refusal::new(Reason::StrayClosing, at));
                }
                depth -= 1;
                at += 1;
            }
            Token::Atom { kind, body, end } => {
                rows = next_row(rows, room, at)?;
                saved += spared(kind, at, body, end);
                at = end;
            }
            Token::Unfinished => {
                return Err(Refusal::new(Reason::CutOff, began(depth, from, at)));
            }
        }
    }
    if 0 < depth {
        return Err(Refusal::new(Reason::CutOff, from));
    }
    let length = at - saved;
    Ok(Counts { rows, length })
}

// The first pass, with room for so many rows.
pub fn check(s: &[u8], room: usize) -> Result<Counts, Refusal>
    ensures { told result ≡ checked (read s.now room) }
{
    if STREAM_LIMIT < s.len() {
        return Err(Refusal::new(Reason::TooLong, 0));
    }
    check_tokens(s, room)
}

// The first two numbers of a row.
fn start_row(table: &mut [u32], row: usize, kind: Kind, start: u32)
    requires { row_width * row + row_width ≤ length table.old }
    ensures { table.new ≡ row_started table.old row (kind_number kind) start }
{
    table[ROW_WIDTH * row] = u32::from(kind);
    table[ROW_WIDTH * row + 1] = start;
}

// The last two numbers of a row.
fn end_row(table: &mut [u32], row: usize, end: u32, next: u32)
    requires { row_width * row + row_width ≤ length table.old }
    ensures { table.new ≡ row_ended table.old row end next }
{
    table[ROW_WIDTH * row + 2] = end;
    table[ROW_WIDTH * row + 3] = next;
}

// The second pass: the rows of a stream that can be read.
pub fn fill(s: &[u8], table: &mut [u32])
    requires { CanRead s.now × (row_width * length (rows_of (tokens 0 0 s.now)) ≤ length table.old) }
    ensures { table.new ≡ filled (rows_of (tokens 0 0 s.now)) table.old }
{
    // Kept: `depth` beside `forms`, since there is no heap.
    let mut forms = [0u32; FORM_LIMIT];
    let mut at: usize = 0;
    let mut depth: usize = 0;
    let mut rows: usize = 0;
    while at < s.len() {
        let Ok(token) = atoms::token_at(s, at) else {
            return;
        };
        match token {
            Token::Opening => {
                forms[depth] = rows as u32;
                start_row(table, rows, Kind::Form, at as u32);
                depth += 1;
                rows += 1;
                at += 1;
            }
            Token::Closing => {
                depth -= 1;
                at += 1;
                end_row(table, forms[depth] as usize, at as u32, rows as u32);
            }
            Token::Atom { kind, end, .. } => {
                start_row(table, rows, kind, at as u32);
                end_row(table, rows, end as u32, (rows + 1) as u32);
                rows += 1;
                at = end;
            }
            Token::Unfinished => return,
        }
    }
}

// Where the form ends whose 01 is before a place.
fn form_end(s: &[u8], start: usize) -> usize
    requires { (length s.now ≤ 65536) × (start ≤ length s.now) × RightFrom s.now start 1 }
    ensures { result ≡ get_or (ends (tokens start 0 (drop start s.now))) 0 0 }
{
    let mut at = start;
    let mut depth: usize = 0;
    while at < s.len() {
        let Ok(token) = atoms::token_at(s, at) else {
            return at;
        };
        match token {
            Token::Opening => {
                depth += 1;
                at += 1;
            }
            Token::Closing => {
                at += 1;
                if depth == 0 {
                    return at;
                }
                depth -= 1;
            }
            Token::Atom { end, .. } => at = end,
            Token::Unfinished => return at,
        }
    }
    at
}

// Where the top-level expression at a place ends.
pub fn expression_end(s: &[u8], at: usize) -> usize
    requires { (length s.now ≤ 65536) × (at < length s.now) × RightFrom s.now at 0 }
    ensures { result ≡ (row_at (rows_of (tokens at 0 (drop at s.now))) 0).end }
{
    let Ok(token) = atoms::token_at(s, at) else {
        return at;
    };
    match token {
        Token::Opening => form_end(s, at + 1),
        Token::Atom { end, .. } => end,
        Token::Closing | Token::Unfinished => at,
    }
}

// Where an expression is: from its first byte up to another.
#[derive(Clone, Copy, Debug, PartialEq, Eq)]
pub struct Part {
    pub start: usize,
    pub end: usize,
}

// The top-level expression at a place; none at the stream's end.
fn expression_at(s: &[u8], at: usize) -> Option<Part>
    requires { (length s.now ≤ 65536) × (at ≤ length s.now) × RightFrom s.now at 0 }
    ensures { MatchOption result (at ≡ length s.now)
        (λ p. (at < length s.now) × (p.start ≡ at) × (p.end ≡ (row_at (rows_of (tokens at 0 (drop at s.now))) 0).end)) }
{
    if at == s.len() {
        return None;
    }
    Some(Part {
        start: at,
        end: expression_end(s, at),
    })
}

// Top-level expression k of a stream that can be read.
fn find(s: &[u8], k: usize) -> Option<Part>
    requires { CanRead s.now }
    ensures { (b : Buffer) → found_part b result ≡ item b (rows_of (tokens 0 0 s.now)) k (meaning_of s.now) }
{
    let mut part = Part { start: 0, end: 0 };
    for _ in 0..=k {
        part = expression_at(s, part.end)?;
    }
    Some(part)
}

// Top-level expression k of a stream; none if it can't be read.
pub fn locate(s: &[u8], k: usize) -> Option<Part>
    ensures { (b : Buffer) → found_part b result ≡ item_read b k (read s.now (length s.now)) }
{
    check(s, s.len()).ok()?;
    find(s, k)
}
