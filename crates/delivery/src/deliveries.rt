//! A delivery, whose type says that its bytes were checked.
ghost use Rattle.std.specs.Prelude.{◌≡◌, ◌*◌, false, is_some, IfOk};
ghost use Rattle.std.specs.Simd.{first_chunks};
ghost use Rattle.format.specs.Heads.{counts_of};
ghost use Rattle.format.specs.Refusals.{refusal_in};
ghost use Rattle.format.specs.Words.{words_in};
ghost use Rattle.tables.specs.Cells.{cells_of};
ghost use Rattle.units.specs.GuardWords.{numbers_of};
ghost use Rattle.delivery.specs.Bounds.{Bounded};
ghost use Rattle.delivery.specs.Decoded.{decoded};
ghost use Rattle.delivery.specs.Deliveries.{actions_in, gotos_in, guards_in, productions_in, records_in, refusal_of};

mod reads;

use format::{Counts, Refusal, read_parts};
use tables::{Table, check_actions, check_gotos, check_productions};
use units::{Guards, check_records};

/// Bytes that no rule refuses, with their counts and parts. So every action, goto, production, record and guard word of it is within its bounds, and its conditionals are well nested.
#[derive(Clone, Copy, Debug, PartialEq, Eq)]
pub struct Delivery<'a> {
    bytes: &'a [u8],
    counts: Counts,
    actions: Table<'a>,
    gotos: Table<'a>,
    productions: &'a [[u8; 4]],
    records: &'a [[u8; 4]],
    guards: Guards<'a>,
    ghost checked: { is_some (refusal_of bytes.now) ≡ false },
    ghost counts_are: { counts ≡ counts_of bytes.now },
    ghost actions_are: { cells_of actions ≡ words_in (actions_in bytes.now) (counts.states * counts.terminals) },
    ghost actions_wide: { actions.columns ≡ counts.terminals },
    ghost gotos_are: { cells_of gotos ≡ words_in (gotos_in bytes.now) (counts.states * counts.nonterminals) },
    ghost gotos_wide: { gotos.columns ≡ counts.nonterminals },
    ghost productions_are: { productions.now ≡ first_chunks 4 counts.productions (productions_in bytes.now) },
    ghost records_are: { records.now ≡ first_chunks 4 counts.records (records_in bytes.now) },
    ghost guards_are: { numbers_of guards ≡ words_in (guards_in bytes.now) counts.guard_words },
    ghost switches_are: { guards.switches ≡ counts.switches },
    ghost bounded: { ∥ Bounded (decoded bytes.now) ∥₁ },
}

/// The delivery in these bytes, or the first rule that the bytes break.
#[tactic(auto, using(crate::proofs::Checked::words_same, crate::proofs::Checked::rows_same, crate::proofs::Checked::bounded_too))]
pub fn check(bytes: &[u8]) -> Result<Delivery<'_>, Refusal>
    ensures refused { refusal_in result ≡ refusal_of bytes.now }
    ensures same { IfOk result (λ d. d.bytes ≡ bytes.entry) }
{
    let head = read_parts(bytes)?;
    let counts = head.counts;
    check_actions(head.actions, &counts)?;
    check_gotos(head.gotos, &counts)?;
    check_productions(head.productions, &counts)?;
    let guards = Guards::new(head.guards, counts.switches);
    check_records(head.records, &guards, &counts)?;
    let (productions, _) = head.productions.as_chunks();
    let (records, _) = head.records.as_chunks();
    Ok(Delivery {
        bytes,
        counts,
        actions: Table::new(head.actions, counts.terminals),
        gotos: Table::new(head.gotos, counts.nonterminals),
        productions,
        records,
        guards,
    })
}
