//! The words of the tables.
use samples::{SMALL, Size, changed, checked, refused, set, sized};
use std::test::Fail;

/// A byte, the word that is written there, and the number and the place of the refusal, if there is one.
type Case = (usize, u16, Option<(u8, usize)>);

/// Two states, three terminals, two nonterminals and two productions: actions from byte 56, gotos from 68, productions from 76.
const TWO: Size = Size {
    states: 2,
    terminals: 3,
    nonterminals: 2,
    productions: 2,
    ..SMALL
};

fn each(rt: &impl AllocGlobal, cases: &[Case]) -> Result<(), Fail> {
    for &(at, word, wanted) in cases {
        checked(&changed(rt.alloc(), TWO, &[(at, word)])?, wanted)?;
    }
    Ok(())
}

/// Index i stands at byte 56 + 2 * i; its terminal is i % 3.
const ACTIONS: [Case; 22] = [
    (56, 0, None),
    (56, 1, Some((4, 0))),
    (56, 2, Some((4, 0))),
    (56, 2000, None),
    (56, 1000, None),
    (56, 1001, None),
    (56, 1002, Some((4, 0))),
    (56, 999, Some((4, 0))),
    (56, 1999, Some((4, 0))),
    (56, 2001, Some((4, 0))),
    (58, 1, None),
    (58, 2, None),
    (58, 3, Some((4, 1))),
    (58, 2000, Some((4, 1))),
    (58, 1001, None),
    (60, 2000, Some((4, 2))),
    (62, 1, Some((4, 3))),
    (62, 2000, None),
    (64, 2, None),
    (66, 2, None),
    (66, 3, Some((4, 5))),
    (66, 65535, Some((4, 5))),
];

#[test]
fn action_words(rt: HostRuntime) -> Result<(), Fail> {
    each(&rt, &ACTIONS)
}

const GOTOS: [Case; 5] = [
    (68, 2, None),
    (68, 3, Some((5, 0))),
    (74, 1, None),
    (74, 2, None),
    (74, 3, Some((5, 3))),
];

#[test]
fn goto_words(rt: HostRuntime) -> Result<(), Fail> {
    each(&rt, &GOTOS)
}

const PRODUCTIONS: [Case; 8] = [
    (76, 1, None),
    (76, 2, Some((6, 0))),
    (78, 16, None),
    (78, 17, Some((6, 0))),
    (80, 1, None),
    (80, 2, Some((6, 1))),
    (82, 16, None),
    (82, 17, Some((6, 1))),
];

#[test]
fn productions(rt: HostRuntime) -> Result<(), Fail> {
    each(&rt, &PRODUCTIONS)
}

/// With 256 states the largest shift is 256, and with 256 productions the largest reduction is 1255.
#[test]
fn the_largest_words(rt: HostRuntime) -> Result<(), Fail> {
    let size = Size {
        states: 256,
        productions: 256,
        ..SMALL
    };
    let mut bytes = sized(rt.alloc(), size)?;
    for (word, wanted) in [
        (256, None),
        (257, Some((4, 1))),
        (1255, None),
        (1256, Some((4, 1))),
    ] {
        set(&mut bytes, 58, word)?;
        checked(&bytes, wanted)?;
    }
    Ok(())
}

/// Of several rules the first in order is told, and of one rule the first place.
#[test]
fn the_first_is_told(rt: HostRuntime) -> Result<(), Fail> {
    let mut bytes = sized(rt.alloc(), TWO)?;
    for (at, word, number, place) in [
        (82, 17, 6, 1),
        (76, 2, 6, 0),
        (74, 3, 5, 3),
        (66, 3, 4, 5),
        (56, 1, 4, 0),
        (48, 0, 3, 48),
        (14, 1, 2, 14),
        (0, 0, 2, 0),
    ] {
        set(&mut bytes, at, word)?;
        refused(&bytes, number, place)?;
    }
    Ok(())
}
