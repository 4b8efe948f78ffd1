// Why a call is refused, and where. Document 01: "Refusals"; document 02, §1 and §2.
ghost use Rattle.std.specs.Prelude.{◌≡◌};
ghost use Rattle.atoms.specs.Refusals.{number, Numbers};

use std::error::Error;
use std::fmt;

// The papers' refusals, in the order of their numbers.
#[derive(Clone, Copy, Debug, PartialEq, Eq)]
pub enum Reason {
    // The stream has too many bytes.
    TooLong,
    // The stream ends inside an expression.
    CutOff,
    // A 02 at top level.
    StrayClosing,
    // A reserved marker.
    ReservedMarker,
    // No length expression where one must be.
    NoLength,
    // Too many forms or arrays one inside another.
    TooDeep,
    // A marker above 65,535.
    LargeMarker,
    // The table has no row left.
    FullTable,
    // No version form at the start.
    NoVersion,
    // Another version.
    OtherVersion,
    // A wrong number or kind of elements.
    WrongElements,
    // A function name, a function reference or a `subst` form where a value is wanted.
    NoValue,
    // An `ns` or `define` elsewhere than allowed.
    Misplaced,
    // A marker or an id that may not be associated, or a marker that nothing may be defined with.
    WrongMarker,
    // An argument that is not there.
    NoArgument,
    // No step is left.
    NoSteps,
    // No workspace is left.
    FullWorkspace,
    // The output is too short.
    ShortOutput,
    // Too many definitions, associations or calls.
    TooMany,
    // A bytecode form that can't be transformed.
    WrongBytecode,
    // Ends that are not those of streams in the buffer.
    WrongEnds,
}

impl From<Reason> for u32 {
    ghost from_gives = { λ reason n. n ≡ number reason };

    fn from(reason: Reason) -> u32 {
        match reason {
            Reason::TooLong => 1,
            Reason::CutOff => 2,
            Reason::StrayClosing => 3,
            Reason::ReservedMarker => 4,
            Reason::NoLength => 5,
            Reason::TooDeep => 6,
            Reason::LargeMarker => 7,
            Reason::FullTable => 8,
            Reason::NoVersion => 9,
            Reason::OtherVersion => 10,
            Reason::WrongElements => 11,
            Reason::NoValue => 12,
            Reason::Misplaced => 13,
            Reason::WrongMarker => 14,
            Reason::NoArgument => 15,
            Reason::NoSteps => 16,
            Reason::FullWorkspace => 17,
            Reason::ShortOutput => 18,
            Reason::TooMany => 19,
            Reason::WrongBytecode => 22,
            Reason::WrongEnds => 23,
        }
    }
}

// A number that no refusal has.
#[derive(Clone, Copy, Debug, PartialEq, Eq)]
pub struct UnknownReason(pub u32);

impl TryFrom<u32> for Reason {
    type Error = UnknownReason;

    ghost try_from_gives = { Numbers };

    fn try_from(n: u32) -> Result<Self, UnknownReason> {
        match n {
            1 => Ok(Reason::TooLong),
            2 => Ok(Reason::CutOff),
            3 => Ok(Reason::StrayClosing),
            4 => Ok(Reason::ReservedMarker),
            5 => Ok(Reason::NoLength),
            6 => Ok(Reason::TooDeep),
            7 => Ok(Reason::LargeMarker),
            8 => Ok(Reason::FullTable),
            9 => Ok(Reason::NoVersion),
            10 => Ok(Reason::OtherVersion),
            11 => Ok(Reason::WrongElements),
            12 => Ok(Reason::NoValue),
            13 => Ok(Reason::Misplaced),
            14 => Ok(Reason::WrongMarker),
            15 => Ok(Reason::NoArgument),
            16 => Ok(Reason::NoSteps),
            17 => Ok(Reason::FullWorkspace),
            18 => Ok(Reason::ShortOutput),
            19 => Ok(Reason::TooMany),
            22 => Ok(Reason::WrongBytecode),
            23 => Ok(Reason::WrongEnds),
            _ => Err(UnknownReason(n)),
        }
    }
}

// A refusal, with its place in the stream. While a stream is evaluated, a row stands for the place where it starts.
#[derive(Clone, Copy, Debug, PartialEq, Eq)]
pub struct Refusal {
    pub reason: Reason,
    pub place: usize,
}

impl Refusal {
    pub fn new(reason: Reason, place: usize) -> Self
        ensures { result ≡ record { reason = reason; place = place } }
    {
        Self { reason, place }
    }
}

impl fmt::Display for Refusal {
    fn fmt<W: fmt::Write>(&self, f: &mut fmt::Formatter<W>) -> fmt::Result {
        write!(f, "refused {} {}", u32::from(self.reason), self.place)
    }
}

impl Error for Refusal {}
