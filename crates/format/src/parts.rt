//! The parts of a delivery.
ghost use Rattle.std.specs.Prelude.{◌≡◌, IfOk};
ghost use Rattle.format.specs.Heads.{head_refusal};
ghost use Rattle.format.specs.Parts.{Sized, Tells};
ghost use Rattle.format.specs.Refusals.{refusal_in};

use crate::heads::{Counts, read_head};
use crate::refusals::Refusal;

/// What the head tells: the counts, and the parts where they lie.
#[derive(Clone, Copy, Debug, PartialEq, Eq)]
pub struct Parts<'a> {
    pub counts: Counts,
    pub actions: &'a [u8],
    pub gotos: &'a [u8],
    pub productions: &'a [u8],
    pub records: &'a [u8],
    pub guards: &'a [u8],
}

/// The counts and the parts, where each of the head's numbers is allowed.
pub fn read_parts(bytes: &[u8]) -> Result<Parts<'_>, Refusal>
    ensures refused { refusal_in result ≡ head_refusal bytes.now }
    ensures value { IfOk result (λ p. Tells bytes.now p) }
    ensures sizes { IfOk result Sized }
{
    let head = read_head(bytes)?;
    Ok(Parts {
        counts: head.counts,
        actions: head.actions.part_of(bytes),
        gotos: head.gotos.part_of(bytes),
        productions: head.productions.part_of(bytes),
        records: head.records.part_of(bytes),
        guards: head.guards.part_of(bytes),
    })
}
