// The names of the core namespace. Document 01: "Names of the core namespace, marker 0x20".
ghost use Rattle.std.specs.Prelude.{◌≡◌, not, ◌/◌, ◌%◌};
ghost use Rattle.spec.specs.Nodes.{plain, is, word};
ghost use Rattle.rows.specs.Forms.{meant, reserved};

// What a reference is as a head: one of the function names, or plain.
#[derive(Clone, Copy, Debug, PartialEq, Eq)]
pub enum Word {
    Ns,
    Define,
    Concat,
    Subst,
    Arg,
    Rest,
    Plain,
}

// Each name as the key of its reference: the marker times 256, plus the name's byte.
// Kept: numbers, no enum. A key is any 32 bits, most are no core name's, and a key is compared with one of these.
#[derive(Clone, Copy)]
pub struct Core;

impl Core {
    pub const MARKER: u32 = 0x20;

    // Plain names.
    pub const VERSION: u32 = 0x2000;

    pub const TRUE: u32 = 0x2001;

    pub const FALSE: u32 = 0x2002;

    // Function names.
    pub const NS: u32 = 0x2006;

    pub const DEFINE: u32 = 0x2009;

    pub const CONCAT: u32 = 0x200A;

    pub const SUBST: u32 = 0x200B;

    pub const ARG: u32 = 0x200C;

    pub const REST: u32 = 0x200D;

    // Bytecode names, from `prefix` to `arity`.
    pub const PREFIX: u32 = 0x2030;

    pub const PREFIX_STAR: u32 = 0x2031;

    pub const ARITY: u32 = 0x2034;

    // The word of a key.
    #[tactic(auto, unfolding(spec::specs::Nodes::word, spec::specs::Nodes::among))]
    pub fn word(key: u32) -> Word
        ensures { meant result ≡ word (key / 256) (key % 256) }
    {
        match key {
            Core::NS => Word::Ns,
            Core::DEFINE => Word::Define,
            Core::CONCAT => Word::Concat,
            Core::SUBST => Word::Subst,
            Core::ARG => Word::Arg,
            Core::REST => Word::Rest,
            _ => Word::Plain,
        }
    }

    // Whether a key is a function name's, which has no value of its own.
    pub fn is_function(key: u32) -> bool
        ensures { result ≡ not (is (word (key / 256) (key % 256)) plain) }
    {
        Core::word(key) != Word::Plain
    }

    // Whether a key is a function name's or a bytecode name's.
    pub fn is_reserved(key: u32) -> bool
        ensures { result ≡ reserved key }
    {
        Core::is_function(key) || (Core::PREFIX..=Core::ARITY).contains(&key)
    }
}
