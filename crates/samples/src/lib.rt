//! Deliveries for the tests, whether or not they are allowed, and what the check should say of them.
#![tactic(auto)]

use delivery::check;
use format::told;
use std::alloc::{AllocError, Global};
use std::iter::repeat_n;
use std::test::Fail;

/// How many there are of each thing, and the head's last count.
#[derive(Clone, Copy, Debug, PartialEq, Eq)]
pub struct Size {
    pub states: u16,
    pub terminals: u16,
    pub nonterminals: u16,
    pub productions: u16,
    pub records: u16,
    pub guard_words: u16,
    pub switches: u16,
    pub zero: u16,
}

/// One of each thing that there has to be, and none of the others.
pub const SMALL: Size = Size {
    states: 1,
    terminals: 2,
    nonterminals: 1,
    productions: 0,
    records: 0,
    guard_words: 0,
    switches: 0,
    zero: 0,
};

/// How many bytes so many things take, where each takes so many.
fn bytes_of(count: u16, bytes: u32) -> u32 {
    u32::from(count).wrapping_mul(bytes)
}

impl Size {
    /// The counts in the order of the head.
    fn counts(self) -> [u16; 8] {
        [
            self.states,
            self.terminals,
            self.nonterminals,
            self.productions,
            self.records,
            self.guard_words,
            self.switches,
            self.zero,
        ]
    }

    /// How many bytes each part has, in the order of the head.
    fn part_sizes(self) -> [u32; 5] {
        [
            bytes_of(self.states, bytes_of(self.terminals, 2)),
            bytes_of(self.states, bytes_of(self.nonterminals, 2)),
            bytes_of(self.productions, 4),
            bytes_of(self.records, 4),
            bytes_of(self.guard_words, 2),
        ]
    }
}

/// The head, for parts that lie one right behind the other, and tables of no actions and gotos, and of productions of nonterminal 0 and length 0.
fn head_and_tables(alloc: Global, size: Size) -> Result<Vec<u8>, AllocError> {
    let mut bytes = Vec::new(alloc);
    for count in size.counts() {
        bytes.extend_from_slice(&count.to_le_bytes())?;
    }
    let mut start: u32 = 56;
    for len in size.part_sizes() {
        bytes.extend_from_slice(&start.to_le_bytes())?;
        bytes.extend_from_slice(&len.to_le_bytes())?;
        start = start.wrapping_add(len);
    }
    let [actions, gotos, productions, ..] = size.part_sizes();
    for len in [actions, gotos, productions] {
        bytes.extend(repeat_n(0, len as usize))?;
    }
    Ok(bytes)
}

/// A record, by its two words.
fn put_record(bytes: &mut Vec<u8>, (kind, value): Words) -> Result<(), AllocError> {
    bytes.extend_from_slice(&kind.to_le_bytes())?;
    bytes.extend_from_slice(&value.to_le_bytes())
}

/// A delivery of this size: no actions and gotos, productions of nonterminal 0 and length 0, tokens of terminal 1, and guards that end at once.
pub fn sized(alloc: Global, size: Size) -> Result<Vec<u8>, AllocError> {
    let mut bytes = head_and_tables(alloc, size)?;
    for _ in 0..size.records {
        put_record(&mut bytes, X)?;
    }
    bytes.extend(repeat_n(0, 2 * usize::from(size.guard_words)))?;
    Ok(bytes)
}

/// A record as its two words, its kind and its value.
pub type Words = (u16, u16);

/// A token of terminal 1.
pub const X: Words = (1, 1);

/// An if whose guard begins at word 0.
pub const IF: Words = (2, 0);

/// An elif whose guard begins at word 0.
pub const ELIF: Words = (3, 0);

pub const ELSE: Words = (4, 0);

pub const END: Words = (5, 0);

/// An if or an elif whose guard begins at this word.
pub fn at((kind, _): Words, guard: u16) -> Words {
    (kind, guard)
}

/// A unit of these records and guards, with terminals 0 and 1 and so many switches.
pub fn unit(
    alloc: Global,
    records: &[Words],
    guards: &[u16],
    switches: u16,
) -> Result<Vec<u8>, AllocError> {
    let size = Size {
        records: u16::try_from(records.len()).unwrap_or(u16::MAX),
        guard_words: u16::try_from(guards.len()).unwrap_or(u16::MAX),
        switches,
        ..SMALL
    };
    let mut bytes = head_and_tables(alloc, size)?;
    for record in records {
        put_record(&mut bytes, *record)?;
    }
    for word in guards {
        bytes.extend_from_slice(&word.to_le_bytes())?;
    }
    Ok(bytes)
}

/// Writes a word at a byte.
pub fn set(bytes: &mut [u8], at: usize, word: u16) -> Result<(), Fail> {
    match bytes.get_mut(at..).and_then(|rest| rest.first_chunk_mut()) {
        Some(place) => {
            *place = word.to_le_bytes();
            Ok(())
        }
        None => Err(Fail::new(format_args!("there is no word at byte {at}"))),
    }
}

/// A delivery of this size in which other words stand at some bytes.
pub fn changed(alloc: Global, size: Size, words: &[(usize, u16)]) -> Result<Vec<u8>, Fail> {
    let mut bytes = sized(alloc, size)?;
    for &(at, word) in words {
        set(&mut bytes, at, word)?;
    }
    Ok(bytes)
}

/// Whether the check answers this: the number and the place of a refusal, or nothing where the bytes are taken.
pub fn checked(bytes: &[u8], wanted: Option<(u8, usize)>) -> Result<(), Fail> {
    let has = check(bytes).err().map(|refusal| told(refusal));
    if has != wanted {
        return Err(Fail::new(format_args!("the check answers {has:?} and not {wanted:?}")));
    }
    Ok(())
}

/// Whether these bytes are taken.
pub fn taken(bytes: &[u8]) -> Result<(), Fail> {
    checked(bytes, None)
}

/// Whether these bytes are refused by this number at this place.
pub fn refused(bytes: &[u8], number: u8, place: usize) -> Result<(), Fail> {
    checked(bytes, Some((number, place)))
}
