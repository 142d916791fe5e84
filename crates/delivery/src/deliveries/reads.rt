//! What a delivery holds. Every bound comes from the type's invariant.
ghost use Rattle.std.specs.Prelude.{◌≡◌, All, IfSome};
ghost use Rattle.units.specs.GuardWords.{left_of};
ghost use Rattle.delivery.specs.Bounds.{ActionBound, Bounded, Counted, GotoBound, Limited, ProductionBound, RecordBound, WordBound};
ghost use Rattle.delivery.specs.Model.{action_at, goto_at, guard_at, production_at, record_at, word_at};
ghost use Rattle.delivery.specs.Views.{bytes_of, model_of};

use super::Delivery;
use format::{Counts, row_at};
use tables::{Action, Production, action_of, goto_of, production_of};
use units::{Guard, Record, Word, record_of};

impl<'a> Delivery<'a> {
    /// The bytes that were checked.
    pub fn bytes(&self) -> &'a [u8]
        ensures { result.now ≡ bytes_of self.now }
    {
        self.bytes
    }

    /// How many there are of each thing. All that holds of every checked delivery is promised here too.
    #[tactic(auto, using(crate::proofs::Read::is_counted, crate::proofs::Read::is_limited, crate::proofs::Read::is_bounded))]
    pub fn counts(&self) -> Counts
        ensures value { Counted (model_of self.now) result }
        ensures bound { Limited result }
        ensures bounded { Bounded (model_of self.now) }
    {
        self.counts
    }

    /// What a parser does at a state and a terminal: nothing where there is no such state or terminal.
    #[tactic(auto, using(crate::proofs::Read::action_found, crate::proofs::Read::action_missing, crate::proofs::Read::action_is, crate::proofs::Read::action_bounded))]
    pub fn action(&self, state: u16, terminal: u16) -> Action
        ensures value { result ≡ action_at (model_of self.now) state terminal }
        ensures bound { ActionBound (model_of self.now) terminal result }
    {
        let Some(word) = self.actions.get(state, terminal) else {
            return Action::None;
        };
        let counts = self.counts;
        action_of(
            word,
            usize::from(terminal),
            counts.states,
            counts.productions,
        )
        .unwrap()
    }

    /// The state to which a state goes at a nonterminal, if it goes to one.
    #[tactic(auto, using(crate::proofs::Read::goto_found, crate::proofs::Read::goto_missing, crate::proofs::Read::goto_bounded))]
    pub fn goto(&self, state: u16, nonterminal: u16) -> Option<u16>
        ensures value { result ≡ goto_at (model_of self.now) state nonterminal }
        ensures bound { IfSome result (GotoBound (model_of self.now)) }
    {
        goto_of(self.gotos.get(state, nonterminal)?)
    }

    /// The production of this number, if there is one.
    #[tactic(auto, using(crate::proofs::Read::production_found, crate::proofs::Read::production_missing, crate::proofs::Read::production_bounded))]
    pub fn production(&self, number: u16) -> Option<Production>
        ensures value { result ≡ production_at (model_of self.now) number }
        ensures bound { IfSome result (ProductionBound (model_of self.now)) }
    {
        let [left, length] = row_at(self.productions, usize::from(number))?;
        production_of(left, length, self.counts.nonterminals)
    }

    /// The record at this place, if there is one.
    #[tactic(auto, using(crate::proofs::Read::record_found, crate::proofs::Read::record_missing, crate::proofs::Read::record_bounded))]
    pub fn record(&self, place: usize) -> Option<Record>
        ensures value { result ≡ record_at (model_of self.now) place }
        ensures bound { IfSome result (RecordBound (model_of self.now)) }
    {
        let [kind, value] = row_at(self.records, place)?;
        record_of(kind, value, self.counts.terminals)
    }

    /// The word at this index of the guards, or `None` where a guard ends there.
    #[tactic(auto, using(crate::proofs::Read::word_found, crate::proofs::Read::is_bounded))]
    pub fn guard_word(&self, index: usize) -> Option<Word>
        ensures value { result ≡ word_at (model_of self.now) index }
        ensures bound { IfSome result (WordBound (model_of self.now)) }
    {
        self.guards.get(index)
    }

    /// The words of the guard that begins at this index, in order.
    #[tactic(auto, using(crate::proofs::Read::guard_found, crate::proofs::Read::guard_bounded))]
    pub fn guard(&self, index: u16) -> Guard<'a>
        ensures value { left_of result ≡ guard_at (model_of self.now) index }
        ensures bound { All (WordBound (model_of self.now)) (left_of result) }
    {
        self.guards.guard(usize::from(index))
    }
}
