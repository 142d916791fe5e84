//! Why bytes are no delivery.
use crate::numbered::Numbered;
use std::error::Error;
use std::fmt;

/// The first rule that the bytes break, and the place where they break it.
#[derive(Clone, Copy, Debug, PartialEq, Eq)]
pub enum Refusal {
    /// There is no whole head: how many bytes there are.
    Short(usize),
    /// A count is outside its limits: the byte at which it stands.
    Count(usize),
    /// A part begins too early, has another length than the counts give, or ends too late: the byte at which its pair stands.
    Pair(usize),
    /// An action word is not allowed: its index.
    Action(usize),
    /// A goto word is not allowed: its index.
    Goto(usize),
    /// A production is not allowed: its index.
    Production(usize),
    /// A record's kind or value is not allowed: the record.
    Record(usize),
    /// A conditional is not well nested: the record, or the number of records where one is left open.
    Nesting(usize),
    /// A guard is not valid: the record that names it.
    Guard(usize),
    /// There are too many branches: the record that begins the first one too many.
    Branch(usize),
}

impl Numbered for Refusal {
    ghost use Rattle.format.specs.Refusals.{numbered};

    ghost numbered = { numbered };

    fn number(self) -> u8 {
        match self {
            Refusal::Short(_) => 1,
            Refusal::Count(_) => 2,
            Refusal::Pair(_) => 3,
            Refusal::Action(_) => 4,
            Refusal::Goto(_) => 5,
            Refusal::Production(_) => 6,
            Refusal::Record(_) => 7,
            Refusal::Nesting(_) => 8,
            Refusal::Guard(_) => 9,
            Refusal::Branch(_) => 10,
        }
    }

    fn place(self) -> usize {
        match self {
            Refusal::Short(at)
            | Refusal::Count(at)
            | Refusal::Pair(at)
            | Refusal::Action(at)
            | Refusal::Goto(at)
            | Refusal::Production(at)
            | Refusal::Record(at)
            | Refusal::Nesting(at)
            | Refusal::Guard(at)
            | Refusal::Branch(at) => at,
        }
    }
}

impl fmt::Display for Refusal {
    fn fmt<W: fmt::Write>(&self, f: &mut fmt::Formatter<W>) -> fmt::Result {
        match self {
            Refusal::Short(len) => write!(f, "{len} bytes are too few for a head"),
            Refusal::Count(at) => write!(f, "the count at byte {at} is outside its limits"),
            Refusal::Pair(at) => write!(f, "the part whose pair is at byte {at} is misplaced"),
            Refusal::Action(i) => write!(f, "action word {i} is not allowed"),
            Refusal::Goto(i) => write!(f, "goto word {i} is not allowed"),
            Refusal::Production(i) => write!(f, "production {i} is not allowed"),
            Refusal::Record(i) => write!(f, "record {i} is not allowed"),
            Refusal::Nesting(i) => write!(f, "the conditionals are not well nested at record {i}"),
            Refusal::Guard(i) => write!(f, "the guard of record {i} is not valid"),
            Refusal::Branch(i) => write!(f, "record {i} begins a branch too many"),
        }
    }
}

impl Error for Refusal {}
