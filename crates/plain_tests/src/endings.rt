//! How readings end.
use answers::{answer_for, text_of};
use samples::{SMALL, Size, changed, sized};
use std::process::Abort;
use std::test::Fail;

/// Whether this configuration of these bytes is answered so.
fn answers(
    rt: &(impl Abort + AllocGlobal),
    bytes: &[u8],
    configuration: u32,
    text: &str,
) -> Result<(), Fail> {
    let told = text_of(rt.alloc(), answer_for(bytes, configuration))?;
    assert_eq!(rt; told.as_str(), text);
    Ok(())
}

/// A parser with one state that shifts terminal 1 and accepts at the end, on so many tokens: byte 56 is the end's action, 58 that of terminal 1.
fn shifts(rt: &impl AllocGlobal, tokens: u16) -> Result<Vec<u8>, Fail> {
    let size = Size {
        records: tokens,
        ..SMALL
    };
    changed(rt.alloc(), size, &[(56, 2000), (58, 1)])
}

/// A stack holds 128 states, the first among them.
#[test]
fn the_stack_is_full(rt: HostRuntime) -> Result<(), Fail> {
    for (tokens, text) in [
        (0, "configuration 0\ntokens 0\naccepted 1"),
        (127, "configuration 0\ntokens 127\naccepted 128"),
        (128, "configuration 0\ntokens 128\nfailed 127 4 128"),
    ] {
        answers(&rt, &shifts(&rt, tokens)?, 0, text)?;
    }
    Ok(())
}

/// A parser with one state that reduces at the end of an empty unit: byte 56 is the end's action, 60 the goto, 64 the production's length.
fn reduces(rt: &impl AllocGlobal, goto: u16, length: u16) -> Result<Vec<u8>, Fail> {
    let size = Size {
        productions: 1,
        ..SMALL
    };
    changed(rt.alloc(), size, &[(56, 1000), (60, goto), (64, length)])
}

#[test]
fn reductions_fail(rt: HostRuntime) -> Result<(), Fail> {
    for (goto, length, text) in [
        (1, 1, "configuration 0\ntokens 0\nfailed 0 2 1"),
        (1, 16, "configuration 0\ntokens 0\nfailed 0 2 1"),
        (0, 0, "configuration 0\ntokens 0\nfailed 0 3 1"),
        (1, 0, "configuration 0\ntokens 0\nfailed 0 4 128"),
    ] {
        answers(&rt, &reduces(&rt, goto, length)?, 0, text)?;
    }
    Ok(())
}

#[test]
fn no_action_fails(rt: HostRuntime) -> Result<(), Fail> {
    answers(
        &rt,
        &sized(rt.alloc(), SMALL)?,
        0,
        "configuration 0\ntokens 0\nfailed 0 1 1",
    )
}

/// Two states: the first reduces nothing and goes to the second, which reduces one state and goes to itself, for ever.
#[test]
fn a_budget_is_spent(rt: HostRuntime) -> Result<(), Fail> {
    let size = Size {
        states: 2,
        productions: 2,
        ..SMALL
    };
    let words = [(56, 1000), (60, 1001), (64, 2), (74, 1)];
    answers(
        &rt,
        &changed(rt.alloc(), size, &words)?,
        0,
        "configuration 0\ntokens 0\nspent 1000000",
    )
}

/// With n switches, 2^n - 1 is the last configuration.
#[test]
fn configurations_have_a_range(rt: HostRuntime) -> Result<(), Fail> {
    answers(&rt, &sized(rt.alloc(), SMALL)?, 1, "refused 22 0")?;
    let size = Size {
        switches: 24,
        ..SMALL
    };
    let bytes = sized(rt.alloc(), size)?;
    for (configuration, text) in [
        (16777215, "configuration 16777215\ntokens 0\nfailed 0 1 1"),
        (16777216, "refused 22 0"),
        (u32::MAX, "refused 22 0"),
    ] {
        answers(&rt, &bytes, configuration, text)?;
    }
    Ok(())
}

/// Of more than 65,536 bytes nothing is looked at.
#[test]
fn length_has_a_limit(rt: HostRuntime) -> Result<(), Fail> {
    let mut bytes = vec![in rt.alloc(); 0u8; 65536]?;
    answers(&rt, &bytes, 0, "refused 2 0")?;
    bytes.push(0)?;
    answers(&rt, &bytes, 0, "too long")
}

#[test]
fn refusals_come_first(rt: HostRuntime) -> Result<(), Fail> {
    answers(&rt, &[], 0, "refused 1 0")?;
    let bytes = changed(rt.alloc(), SMALL, &[(56, 7)])?;
    answers(&rt, &bytes, u32::MAX, "refused 4 0")
}
