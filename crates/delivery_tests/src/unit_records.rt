//! The records, their nesting, their guards and their branches.
use samples::{ELIF, ELSE, END, IF, Words, X, at, checked, refused, taken, unit};
use std::alloc::{AllocError, Global};
use std::iter::repeat_n;
use std::test::Fail;

/// A guard that holds everywhere.
const WHOLE: [u16; 2] = [103, 0];

fn fine(rt: &impl AllocGlobal, records: &[Words]) -> Result<(), Fail> {
    taken(&unit(rt.alloc(), records, &WHOLE, 0)?)
}

fn bad(rt: &impl AllocGlobal, records: &[Words], number: u8, place: usize) -> Result<(), Fail> {
    refused(&unit(rt.alloc(), records, &WHOLE, 0)?, number, place)
}

#[test]
fn kinds_and_values(rt: HostRuntime) -> Result<(), Fail> {
    fine(&rt, &[])?;
    fine(&rt, &[X, X])?;
    bad(&rt, &[X, (1, 0)], 7, 1)?;
    bad(&rt, &[X, (1, 2)], 7, 1)?;
    bad(&rt, &[(0, 0)], 7, 0)?;
    bad(&rt, &[(6, 0)], 7, 0)?;
    bad(&rt, &[(65535, 1)], 7, 0)?;
    bad(&rt, &[IF, (4, 1), END], 7, 1)?;
    bad(&rt, &[IF, (5, 1)], 7, 1)?;
    bad(&rt, &[(4, 1)], 7, 0)
}

#[test]
fn nesting(rt: HostRuntime) -> Result<(), Fail> {
    fine(&rt, &[IF, X, ELIF, ELIF, X, ELSE, X, END])?;
    fine(&rt, &[IF, IF, ELSE, END, ELSE, IF, END, END])?;
    bad(&rt, &[X, ELIF], 8, 1)?;
    bad(&rt, &[ELSE], 8, 0)?;
    bad(&rt, &[END], 8, 0)?;
    bad(&rt, &[IF, END, END], 8, 2)?;
    bad(&rt, &[IF, ELSE, ELIF, END], 8, 2)?;
    bad(&rt, &[IF, ELSE, ELSE, END], 8, 2)?;
    bad(&rt, &[IF, X], 8, 2)?;
    bad(&rt, &[IF, IF, END], 8, 3)
}

/// So many conditionals, one inside the other.
fn deep(alloc: Global, depth: usize) -> Result<Vec<Words>, AllocError> {
    let mut records = vec![in alloc; IF; depth]?;
    records.extend(repeat_n(END, depth))?;
    Ok(records)
}

/// So many conditionals, one behind the other, each of so many elifs.
fn flat(alloc: Global, conditionals: usize, elifs: usize) -> Result<Vec<Words>, AllocError> {
    let mut records = Vec::new(alloc);
    for _ in 0..conditionals {
        records.push(IF)?;
        records.extend(repeat_n(ELIF, elifs))?;
        records.extend_from_slice(&[ELSE, END])?;
    }
    Ok(records)
}

#[test]
fn depth(rt: HostRuntime) -> Result<(), Fail> {
    fine(&rt, &deep(rt.alloc(), 64)?)?;
    bad(&rt, &deep(rt.alloc(), 65)?, 8, 64)
}

#[test]
fn branches(rt: HostRuntime) -> Result<(), Fail> {
    fine(&rt, &flat(rt.alloc(), 64, 2)?)?;
    fine(&rt, &flat(rt.alloc(), 1, 254)?)?;
    bad(&rt, &flat(rt.alloc(), 65, 2)?, 10, 320)?;
    bad(&rt, &flat(rt.alloc(), 1, 255)?, 10, 256)?;
    bad(&rt, &flat(rt.alloc(), 1, 256)?, 10, 256)
}

/// A conditional with this guard, where there are two switches.
fn valid(rt: &impl AllocGlobal, guard: &[u16]) -> Result<(), Fail> {
    taken(&unit(rt.alloc(), &[X, IF, END], guard, 2)?)
}

fn invalid(rt: &impl AllocGlobal, guard: &[u16]) -> Result<(), Fail> {
    refused(&unit(rt.alloc(), &[X, IF, END], guard, 2)?, 9, 1)
}

#[test]
fn guard_words(rt: HostRuntime) -> Result<(), Fail> {
    valid(&rt, &[1, 0])?;
    valid(&rt, &[2, 0])?;
    invalid(&rt, &[3, 0])?;
    invalid(&rt, &[99, 0])?;
    valid(&rt, &[103, 0])?;
    valid(&rt, &[104, 0])?;
    invalid(&rt, &[105, 0])?;
    valid(&rt, &[1, 100, 0])?;
    valid(&rt, &[1, 2, 101, 0])?;
    valid(&rt, &[1, 2, 102, 100, 0])
}

#[test]
fn guard_operands(rt: HostRuntime) -> Result<(), Fail> {
    invalid(&rt, &[])?;
    invalid(&rt, &[0])?;
    invalid(&rt, &[1])?;
    invalid(&rt, &[100, 0])?;
    invalid(&rt, &[101, 0])?;
    invalid(&rt, &[1, 101, 0])?;
    invalid(&rt, &[1, 102, 0])?;
    invalid(&rt, &[1, 2, 0])?;
    invalid(&rt, &[1, 2, 101])?;
    invalid(&rt, &[1, 2, 101, 101, 0])
}

/// So many operands, and then the words that join them into one.
fn wide(alloc: Global, operands: usize) -> Result<Vec<u16>, AllocError> {
    let mut words = vec![in alloc; 1; operands]?;
    words.extend(repeat_n(102, operands.saturating_sub(1)))?;
    words.push(0)?;
    Ok(words)
}

#[test]
fn held_operands(rt: HostRuntime) -> Result<(), Fail> {
    valid(&rt, &wide(rt.alloc(), 16)?)?;
    invalid(&rt, &wide(rt.alloc(), 17)?)
}

/// A guard may begin inside another, at the last word, and no later; an elif's guard counts like an if's.
#[test]
fn guard_places(rt: HostRuntime) -> Result<(), Fail> {
    let words = [1, 100, 0, 2, 0];
    for (first, second, wanted) in [
        (0, 3, None),
        (3, 0, None),
        (1, 0, Some((9, 0))),
        (4, 0, Some((9, 0))),
        (5, 0, Some((9, 0))),
        (0, 1, Some((9, 2))),
        (0, 4, Some((9, 2))),
        (0, 65535, Some((9, 2))),
    ] {
        let records = [at(IF, first), X, at(ELIF, second), END];
        checked(&unit(rt.alloc(), &records, &words, 2)?, wanted)?;
    }
    Ok(())
}

/// Record by record, and in each record kind and value, nesting, guard, branches.
#[test]
fn the_first_is_told(rt: HostRuntime) -> Result<(), Fail> {
    for (records, number) in [
        ([IF, END, END].as_slice(), 9),
        (&[END, IF], 8),
        (&[ELIF, (9, 9)], 8),
        (&[IF, (9, 9)], 9),
    ] {
        refused(&unit(rt.alloc(), records, &[0], 0)?, number, 0)?;
    }
    let mut records = flat(rt.alloc(), 1, 254)?;
    for (last, number) in [(at(IF, 1), 9), ((4, 1), 7), (IF, 10)] {
        records.push(last)?;
        bad(&rt, &records, number, 257)?;
        let _ = records.pop();
    }
    Ok(())
}
