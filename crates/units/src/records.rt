//! Records: two words for each.
ghost use Rattle.std.specs.Prelude.{◌≡◌};
ghost use Rattle.units.specs.Records.{record_of};

/// One step through a unit.
#[derive(Clone, Copy, Debug, PartialEq, Eq)]
pub enum Record {
    /// A token of this terminal.
    Token(u16),
    /// A conditional begins, with a branch whose guard begins at this word.
    If(u16),
    /// The next branch of a conditional, whose guard begins at this word.
    Elif(u16),
    /// The last branch of a conditional, which has no guard.
    Else,
    /// A conditional ends.
    End,
}

/// What the two words say, where there are so many terminals, or `None` where they are not allowed.
pub fn record_of(kind: u16, value: u16, terminals: usize) -> Option<Record>
    ensures { result ≡ record_of terminals kind value }
{
    match kind {
        1 if value != 0 && usize::from(value) < terminals => Some(Record::Token(value)),
        2 => Some(Record::If(value)),
        3 => Some(Record::Elif(value)),
        4 if value == 0 => Some(Record::Else),
        5 if value == 0 => Some(Record::End),
        _ => None,
    }
}
