// Definitions and associations as numbers, for the lent arrays. Document 01: "definitions that are visible", "associates ref's marker with id".
// Kept: each in one number, since memory is fixed: each code in progress has its own array of definitions. `as`, where there is no `From`.
ghost use Rattle.std.specs.Prelude.{◌≡◌, ◌≤◌, ◌<◌};
ghost use Rattle.rules.specs.Entries.{definition, key_in, content_in, id, association, marker_in, place_in, size_in};

// Added to a function's key.
pub const FUNCTION: u32 = 0x1000000;

// The buffer that an id's bytes are in: the stream.
pub const STREAM: u32 = 0;

// A definition: its key, and the part of the workspace where its value stands or the row of its code.
// Kept: one function, and `association` another. They differ in a power of two and in what they are of, and one for both would have to be told these.
pub fn definition(key: u32, content: u32) -> u64
    ensures { result ≡ definition key content }
{
    u64::from(key) * 4294967296 + u64::from(content)
}

pub fn key_in(entry: u64) -> u32
    ensures { result ≡ key_in entry }
{
    (entry / 4294967296) as u32
}

pub fn content_in(entry: u64) -> u32
    ensures { result ≡ content_in entry }
{
    (entry % 4294967296) as u32
}

// Where the bytes of an id are: in which buffer, from which place on, how many.
pub fn id(buffer: u32, place: usize, size: usize) -> u32
    requires { (buffer < 2) × (place < 65536) × (1 ≤ size) × (size ≤ 64) }
    ensures { result ≡ id buffer place size }
{
    (buffer * 65536 + (place as u32)) * 64 + ((size - 1) as u32)
}

// An association: its marker, and where its id is.
pub fn association(marker: u32, id: u32) -> u64
    ensures { result ≡ association marker id }
{
    u64::from(marker) * 8388608 + u64::from(id)
}

pub fn marker_in(entry: u64) -> u64
    ensures { result ≡ marker_in entry }
{
    entry / 8388608
}

pub fn place_in(entry: u64) -> usize
    ensures { result ≡ place_in entry }
{
    (entry / 64 % 65536) as usize
}

pub fn size_in(entry: u64) -> usize
    ensures { result ≡ size_in entry }
{
    (entry % 64 + 1) as usize
}
