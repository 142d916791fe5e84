//! The tokens of one configuration, in the order of the unit.
ghost use Rattle.std.specs.Prelude.{◌≡◌, ◌+◌, Some};
ghost use Rattle.stacks.specs.Views.{items_of};
ghost use Rattle.delivery.specs.Bounds.{RecordBound};
ghost use Rattle.delivery.specs.Model.{record_at};
ghost use Rattle.delivery.specs.Views.{model_of};
ghost use Rattle.plain.specs.Branches.{token_count};
ghost use Rattle.plain.specs.Places.{At};
ghost use Rattle.plain.specs.Tokens.{token_of};

use crate::configuration::Configuration;
use crate::cursor::{Cursor, has_innermost};
use delivery::Record;

/// A token of a unit.
#[derive(Clone, Copy, Debug, PartialEq, Eq)]
pub struct Token {
    pub place: usize,
    pub terminal: u16,
}

/// The tokens that a configuration has from a place on, without the end. The conditionals open there have a frame each.
#[derive(Drop)]
pub struct Tokens<'a> {
    configuration: Configuration<'a>,
    cursor: Cursor,
    ghost at: { At (model_of configuration.delivery) configuration.number cursor.place (items_of cursor.frames) },
}

/// The token that a record is at a place, where the configuration has what is here.
fn token_of(place: usize, record: Record, here: bool) -> Option<Token>
    ensures { result ≡ token_of place «record» here }
{
    match record {
        Record::Token(terminal) if here => Some(Token { place, terminal }),
        _ => None,
    }
}

impl Configuration<'_> {
    /// Takes a cursor past the record at its place.
    fn pass(&self, cursor: &mut Cursor, record: Record)
        requires here { record_at (model_of self.now.delivery) cursor.old.place ≡ Some «record» }
        requires bound { RecordBound (model_of self.now.delivery) «record» }
        ensures place { cursor.new.place ≡ cursor.old.place + 1 }
        ensures at { At (model_of self.now.delivery) self.now.number cursor.old.place (items_of cursor.old.frames) → At (model_of self.now.delivery) self.now.number cursor.new.place (items_of cursor.new.frames) }
    {
        cursor.pass(&self.delivery, self.number, record);
    }
}

impl<'a> Tokens<'a> {
    ghost use Rattle.std.specs.Prelude.{◌≡◌, ◌+◌, Some};
    ghost use Rattle.std.specs.List.{cons_option};
    ghost use Rattle.delivery.specs.Bounds.{RecordBound};
    ghost use Rattle.delivery.specs.Model.{record_at};
    ghost use Rattle.delivery.specs.Views.{model_of};
    ghost use Rattle.plain.specs.Tokens.{tokens_ahead};
    ghost use Rattle.plain.specs.Walks.{tokens_left};

    /// All tokens of the configuration.
    pub fn new(configuration: Configuration<'a>) -> Tokens<'a>
        ensures configuration { result.configuration ≡ configuration.entry }
        ensures all { tokens_left result ≡ tokens_ahead (model_of configuration.entry.delivery) configuration.entry.number 0 }
    {
        Tokens {
            configuration,
            cursor: Cursor::new(),
        }
    }

    /// Goes past the record at this place, and answers it where it is a token that the configuration has.
    #[tactic(auto, using(crate::proofs::Passing::passed))]
    fn pass(&mut self, record: Record) -> Option<Token>
        requires here { record_at (model_of self.old.configuration.delivery) self.old.cursor.place ≡ Some «record» }
        requires bound { RecordBound (model_of self.old.configuration.delivery) «record» }
        ensures configuration { self.new.configuration ≡ self.old.configuration }
        ensures place { self.new.cursor.place ≡ self.old.cursor.place + 1 }
        ensures token { cons_option result (tokens_left self.new) ≡ tokens_left self.old }
    {
        let here = has_innermost(&self.cursor.frames);
        let token = token_of(self.cursor.place, record, here);
        self.configuration.pass(&mut self.cursor, record);
        token
    }
}

/// How many tokens the configuration has, without the end.
#[tactic(auto, using(crate::proofs::Passing::yields_left, crate::proofs::Passing::few, crate::proofs::Walking::counted))]
pub fn count_tokens(configuration: Configuration<'_>) -> usize
    ensures { result ≡ token_count (model_of configuration.entry.delivery) configuration.entry.number }
{
    Tokens::new(configuration).count()
}

impl Iterator for Tokens<'_> {
    ghost use Rattle.std.specs.Iterator.{item_count};
    ghost use Rattle.plain.specs.Walks.{Takes, tokens_left};

    type Item = Token;

    ghost next_gives = { Takes };

    ghost remaining = { item_count tokens_left };

    #[tactic(auto, using(crate::proofs::Walking::ahead_end))]
    fn next(&mut self) -> Option<Token> {
        while let Some(record) = self.configuration.delivery.record(self.cursor.place) {
            let token = self.pass(record);
            if token.is_some() {
                return token;
            }
        }
        None
    }
}
