//! Reads one configuration of the delivery on standard input: `read_one K < DELIVERY`.
#![tactic(auto)]

use answers::{Answer, LONGEST, answer_for, number_in};
use std::io::Read;
use std::rt::Env;
use std::{env, io};

/// The configuration that the arguments ask for, where they are one decimal number.
fn asked(rt: &(impl Env + AllocGlobal)) -> io::Result<Option<u32>> {
    let mut args = env::args(rt)?.skip(1);
    match (args.next(), args.next()) {
        (Some(text), None) => Ok(number_in(text.as_bytes())),
        _ => Ok(None),
    }
}

fn main(rt: HostRuntime) -> io::Result<()> {
    let Some(configuration) = asked(&rt)? else {
        eprintln!(rt;
            "usage: read_one K < DELIVERY\nK is the number of a configuration, in decimal."
        )?;
        return Err(io::ErrorKind::InvalidInput.into());
    };
    let mut bytes = Vec::new(rt.alloc());
    rt.stdin().take(LONGEST as u64 + 1).read_to_end(&mut bytes)?;
    println!(rt; "{}", Answer(answer_for(&bytes, configuration)))
}
