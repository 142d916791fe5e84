//! Which tokens a configuration has. The tables have no action, so that a reading fails at its first token.
use delivery::check;
use plain::{Ending, Reader, Reason, Status, read};
use samples::{ELIF, ELSE, END, IF, Words, X, at, unit};
use std::process::Abort;
use std::test::Fail;

/// Switch 0; both switches; switch 1 but not switch 0; nothing.
const GUARDS: [u16; 13] = [1, 0, 1, 2, 101, 0, 2, 1, 100, 101, 0, 104, 0];

const FIRST: u16 = 0;

const BOTH: u16 = 2;

const SECOND_ALONE: u16 = 6;

const NEVER: u16 = 11;

/// How many tokens each configuration of two switches has, and the place of its first one.
fn has(
    rt: &(impl Abort + AllocGlobal),
    records: &[Words],
    wanted: [(usize, usize); 4],
) -> Result<(), Fail> {
    let bytes = unit(rt.alloc(), records, &GUARDS, 2)?;
    let delivery = check(&bytes)?;
    for (k, (tokens, place)) in (0..).zip(wanted) {
        let report = read(&delivery, k, 10)?;
        assert_eq!(rt; report.tokens, tokens, "in configuration {k}");
        assert_eq!(rt;
            report.ending,
            Ending::Failed(place, Reason::NoAction),
            "in configuration {k}"
        );
    }
    Ok(())
}

/// The first branch whose guard holds, and no later one.
#[test]
fn one_branch_is_had(rt: HostRuntime) -> Result<(), Fail> {
    has(
        &rt,
        &[at(IF, FIRST), X, at(ELIF, BOTH), X, ELSE, X, END],
        [(1, 5), (1, 1), (1, 5), (1, 1)],
    )?;
    has(
        &rt,
        &[at(IF, BOTH), X, at(ELIF, FIRST), X, X, ELSE, END],
        [(0, 7), (2, 3), (0, 7), (1, 1)],
    )?;
    has(
        &rt,
        &[
            at(IF, NEVER),
            X,
            at(ELIF, NEVER),
            X,
            at(ELIF, SECOND_ALONE),
            X,
            END,
            X,
        ],
        [(1, 7), (1, 7), (2, 5), (1, 7)],
    )
}

/// Nothing is had inside a branch that is not had, whatever its guards say.
#[test]
fn what_encloses_counts(rt: HostRuntime) -> Result<(), Fail> {
    has(
        &rt,
        &[
            at(IF, FIRST),
            at(IF, BOTH),
            X,
            ELSE,
            X,
            END,
            ELSE,
            at(IF, FIRST),
            X,
            ELSE,
            X,
            END,
            END,
        ],
        [(1, 10), (1, 4), (1, 10), (1, 2)],
    )?;
    has(
        &rt,
        &[at(IF, NEVER), at(IF, FIRST), X, ELSE, X, END, END],
        [(0, 7), (0, 7), (0, 7), (0, 7)],
    )
}

/// A reader goes one action at a time, and stays where its reading ended.
#[test]
fn a_reader_steps(rt: HostRuntime) -> Result<(), Fail> {
    let bytes = unit(rt.alloc(), &[at(IF, FIRST), X, END, X], &GUARDS, 2)?;
    let delivery = check(&bytes)?;
    let mut reader = Reader::new(&delivery, 2)?;
    assert_eq!(rt; reader.place(), 3);
    assert_eq!(rt; reader.status(), Status::Standing);
    assert_eq!(rt; reader.run(&delivery, 0), 0);
    assert!(rt; reader.step(&delivery));
    assert_eq!(rt; reader.status(), Status::Failed(Reason::NoAction));
    assert!(rt; !reader.step(&delivery));
    assert_eq!(rt; reader.run(&delivery, 5), 0);
    assert_eq!(rt; reader.place(), 3);
    assert!(rt; Reader::new(&delivery, 4).is_err());
    Ok(())
}
