//! The head: its length, its counts and its pairs.
use samples::{SMALL, Size, changed, refused, set, sized, taken};
use std::test::Fail;

#[test]
fn head_is_whole(rt: HostRuntime) -> Result<(), Fail> {
    let bytes = sized(rt.alloc(), SMALL)?;
    taken(&bytes)?;
    assert!(rt; bytes.len() > 56);
    refused(&bytes[0..55], 1, 55)?;
    refused(&bytes[0..56], 3, 16)?;
    refused(&[], 1, 0)
}

/// The count at this byte of the head may be each of those within, and none of those outside.
fn limited<F: Fn(u16) -> Size>(
    rt: &impl AllocGlobal,
    byte: usize,
    within: &[u16],
    outside: &[u16],
    size_of: F,
) -> Result<(), Fail>
    requires { F.IsAlwaysCallable size_of }
{
    for &count in within {
        taken(&sized(rt.alloc(), size_of(count))?)?;
    }
    for &count in outside {
        refused(&sized(rt.alloc(), size_of(count))?, 2, byte)?;
    }
    Ok(())
}

#[test]
fn counts_of_tables_have_limits(rt: HostRuntime) -> Result<(), Fail> {
    let states = |states| Size { states, ..SMALL };
    limited(&rt, 0, &[1, 256], &[0, 257], states)?;
    let terminals = |terminals| Size { terminals, ..SMALL };
    limited(&rt, 2, &[1, 64], &[0, 65], terminals)?;
    let nonterminals = |nonterminals| Size {
        nonterminals,
        ..SMALL
    };
    limited(&rt, 4, &[1, 64], &[0, 65], nonterminals)?;
    let productions = |productions| Size {
        productions,
        ..SMALL
    };
    limited(&rt, 6, &[256], &[257], productions)
}

#[test]
fn counts_of_units_have_limits(rt: HostRuntime) -> Result<(), Fail> {
    let records = |records| Size { records, ..SMALL };
    limited(&rt, 8, &[4096], &[4097], records)?;
    let guard_words = |guard_words| Size {
        guard_words,
        ..SMALL
    };
    limited(&rt, 10, &[4096], &[4097], guard_words)?;
    let switches = |switches| Size { switches, ..SMALL };
    limited(&rt, 12, &[24], &[25], switches)?;
    let zero = |zero| Size { zero, ..SMALL };
    limited(&rt, 14, &[0], &[1], zero)
}

/// Everything at its most, in one delivery.
#[test]
fn the_largest_is_taken(rt: HostRuntime) -> Result<(), Fail> {
    let largest = Size {
        states: 256,
        terminals: 64,
        nonterminals: 64,
        productions: 256,
        records: 4096,
        guard_words: 4096,
        switches: 24,
        zero: 0,
    };
    taken(&sized(rt.alloc(), largest)?)
}

/// The parts begin at 56, 60, 62, 66 and 70, have 4, 2, 4, 4 and 2 bytes, and end at 72.
const ONE_OF_EACH: Size = Size {
    productions: 1,
    records: 1,
    guard_words: 1,
    ..SMALL
};

/// A byte of a pair, the word that is written there, and the pair that is then refused.
const CHANGED: [(usize, u16, usize); 14] = [
    (16, 55, 16),
    (16, 69, 16),
    (20, 3, 16),
    (20, 5, 16),
    (24, 59, 24),
    (24, 71, 24),
    (28, 4, 24),
    (32, 61, 32),
    (36, 0, 32),
    (40, 65, 40),
    (44, 8, 40),
    (48, 69, 48),
    (48, 71, 48),
    (52, 4, 48),
];

#[test]
fn pairs_have_rules(rt: HostRuntime) -> Result<(), Fail> {
    taken(&sized(rt.alloc(), ONE_OF_EACH)?)?;
    for (at, word, pair) in CHANGED {
        refused(&changed(rt.alloc(), ONE_OF_EACH, &[(at, word)])?, 3, pair)?;
    }
    Ok(())
}

/// An offset or a length of nearly 2^32 does not wrap round.
#[test]
fn pairs_are_wide(rt: HostRuntime) -> Result<(), Fail> {
    for at in [16, 20, 24, 28, 32, 36, 40, 44, 48, 52] {
        let bytes = changed(rt.alloc(), ONE_OF_EACH, &[(at, 65535), (at + 2, 65535)])?;
        refused(&bytes, 3, at - at % 8)?;
    }
    Ok(())
}

/// A part may begin later than it has to, and bytes may follow the last one.
#[test]
fn gaps_are_free(rt: HostRuntime) -> Result<(), Fail> {
    let mut bytes = sized(rt.alloc(), ONE_OF_EACH)?;
    bytes.extend_from_slice(&[0xff; 4])?;
    taken(&bytes)?;
    set(&mut bytes, 48, 72)?;
    set(&mut bytes, 72, 0)?;
    taken(&bytes)?;
    set(&mut bytes, 48, 75)?;
    refused(&bytes, 3, 48)
}
