//! The head of a delivery: eight counts, and where five parts lie.
ghost use Rattle.std.specs.Prelude.{◌≡◌, ◌+◌, ◌≤◌, length, IfOk};
ghost use Rattle.format.specs.Heads.{LaidOut, count_refusal, counts_of, counts_refusal, head_of, head_refusal, pair_refusal, part_of, span_of};
ghost use Rattle.format.specs.Refusals.{refusal_in};
ghost use Rattle.format.specs.Words.{u16_in};

use crate::refusals::Refusal;
use crate::words::{bytes_at, u16_at};

/// How many bytes the head has.
const HEAD: usize = 56;

/// How many there are of each thing.
#[derive(Clone, Copy, Debug, PartialEq, Eq)]
pub struct Counts {
    pub states: usize,
    pub terminals: usize,
    pub nonterminals: usize,
    pub productions: usize,
    pub records: usize,
    pub guard_words: usize,
    pub switches: usize,
}

/// Where a part lies: its first byte, and how many it has.
#[derive(Clone, Copy, Debug, PartialEq, Eq)]
pub struct Span {
    pub start: usize,
    pub size: usize,
}

impl Span {
    /// The part itself.
    pub fn part_of(self, bytes: &[u8]) -> &[u8]
        requires { self.start + self.size ≤ length bytes.now }
        ensures value { result.now ≡ part_of bytes.now self }
        ensures len { length result.now ≡ self.size }
    {
        let start = self.start;
        let end = start + self.size;
        &bytes[start..end]
    }
}

/// What the head says.
#[derive(Clone, Copy, Debug, PartialEq, Eq)]
pub struct Head {
    pub counts: Counts,
    pub actions: Span,
    pub gotos: Span,
    pub productions: Span,
    pub records: Span,
    pub guards: Span,
}

/// The count at this byte, where it is within its limits.
fn read_count(bytes: &[u8], at: usize, low: u16, high: u16) -> Result<usize, Refusal>
    requires { at + 2 ≤ length bytes.now }
    ensures refused { refusal_in result ≡ count_refusal bytes.now at low high }
    ensures value { IfOk result (λ n. n ≡ u16_in bytes.now at) }
{
    let n = u16_at(bytes, at);
    if n < low || n > high {
        return Err(Refusal::Count(at));
    }
    Ok(usize::from(n))
}

/// Where the part lies whose pair is at this byte, where it has `size` bytes, none before `least` and none past the end.
fn read_span(bytes: &[u8], at: usize, least: usize, size: usize) -> Result<Span, Refusal>
    requires { at + 8 ≤ length bytes.now }
    ensures refused { refusal_in result ≡ pair_refusal bytes.now at least size }
    ensures value { IfOk result (λ s. s ≡ span_of bytes.now at) }
    ensures inside { IfOk result (λ s. s.start + s.size ≤ length bytes.now) }
    ensures size { IfOk result (λ s. s.size ≡ size) }
{
    let start = u32::from_le_bytes(bytes_at(bytes, at)) as usize;
    let len = u32::from_le_bytes(bytes_at(bytes, at + 4)) as usize;
    if start < least || len != size || start + len > bytes.len() {
        return Err(Refusal::Pair(at));
    }
    Ok(Span { start, size })
}

/// The counts, where each is within its limits.
fn read_counts(bytes: &[u8]) -> Result<Counts, Refusal>
    requires { 56 ≤ length bytes.now }
    ensures refused { refusal_in result ≡ counts_refusal bytes.now }
    ensures value { IfOk result (λ c. c ≡ counts_of bytes.now) }
{
    let states = read_count(bytes, 0, 1, 256)?;
    let terminals = read_count(bytes, 2, 1, 64)?;
    let nonterminals = read_count(bytes, 4, 1, 64)?;
    let productions = read_count(bytes, 6, 0, 256)?;
    let records = read_count(bytes, 8, 0, 4096)?;
    let guard_words = read_count(bytes, 10, 0, 4096)?;
    let switches = read_count(bytes, 12, 0, 24)?;
    read_count(bytes, 14, 0, 0)?;
    Ok(Counts {
        states,
        terminals,
        nonterminals,
        productions,
        records,
        guard_words,
        switches,
    })
}

/// The head, where each of its numbers is allowed.
pub fn read_head(bytes: &[u8]) -> Result<Head, Refusal>
    ensures refused { refusal_in result ≡ head_refusal bytes.now }
    ensures value { IfOk result (λ h. h ≡ head_of bytes.now) }
    ensures laid { IfOk result (λ h. LaidOut h bytes.now) }
{
    if bytes.len() < HEAD {
        return Err(Refusal::Short(bytes.len()));
    }
    let counts = read_counts(bytes)?;
    let actions = read_span(bytes, 16, HEAD, counts.states * counts.terminals * 2)?;
    let gotos = read_span(
        bytes,
        24,
        actions.start + actions.size,
        counts.states * counts.nonterminals * 2,
    )?;
    let productions = read_span(bytes, 32, gotos.start + gotos.size, counts.productions * 4)?;
    let records = read_span(
        bytes,
        40,
        productions.start + productions.size,
        counts.records * 4,
    )?;
    let guards = read_span(
        bytes,
        48,
        records.start + records.size,
        counts.guard_words * 2,
    )?;
    Ok(Head {
        counts,
        actions,
        gotos,
        productions,
        records,
        guards,
    })
}
