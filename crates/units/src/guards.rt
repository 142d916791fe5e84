//! Guards: conditions on the switches, as words in postfix order up to a word 0.
ghost use Rattle.std.specs.Prelude.{◌≡◌, ◌/◌, ◌≤◌, length, drop, slice_index_or};
ghost use Rattle.std.specs.Iterator.{YieldsFirst, item_count};
ghost use Rattle.units.specs.Guards.{guard_valid, held_behind, leading, word_of};
ghost use Rattle.units.specs.GuardWords.{left_of, numbers_of, said_by};
ghost use Rattle.format.specs.Words.{words_in};

use format::{number_of, word_at, words_in};

/// The most operands that a guard may hold at once.
pub const OPERANDS: usize = 16;

/// A word of a guard.
#[derive(Clone, Copy, Debug, PartialEq, Eq)]
pub enum Word {
    /// Whether this switch is on.
    Switch(u16),
    Not,
    And,
    Or,
    /// Every configuration.
    Whole,
    /// No configuration.
    Nothing,
}

/// What the word says, where there are so many switches, or `None` where it is 0 or not allowed.
pub fn word_of(word: u16, switches: usize) -> Option<Word>
    ensures { result ≡ word_of switches word }
{
    match word {
        1..=24 if usize::from(word) <= switches => Some(Word::Switch(word - 1)),
        100 => Some(Word::Not),
        101 => Some(Word::And),
        102 => Some(Word::Or),
        103 => Some(Word::Whole),
        104 => Some(Word::Nothing),
        _ => None,
    }
}

/// How many operands are held behind this word, where `held` are before it, or `None` where it lacks one or holds too many.
fn held_behind(word: Word, held: usize) -> Option<usize>
    requires { held ≤ 16 }
    ensures { result ≡ held_behind word held }
{
    match word {
        Word::Switch(_) | Word::Whole | Word::Nothing if held < OPERANDS => Some(held + 1),
        Word::Not if held >= 1 => Some(held),
        Word::And | Word::Or if held >= 2 => Some(held - 1),
        _ => None,
    }
}

/// The guards of a unit: their words, and how many switches these may name.
#[derive(Clone, Copy, Debug, PartialEq, Eq)]
pub struct Guards<'a> {
    words: &'a [[u8; 2]],
    switches: usize,
}

/// The words from this index on.
fn words_from(words: &[[u8; 2]], index: usize) -> &[[u8; 2]]
    ensures { result.now ≡ drop index words.now }
{
    words.get(index..).unwrap_or(&[])
}

impl<'a> Guards<'a> {
    /// The guards in a part.
    pub fn new(part: &'a [u8], switches: usize) -> Guards<'a>
        ensures words { numbers_of result ≡ words_in part.now (length part.now / 2) }
        ensures switches { result.switches ≡ switches }
    {
        Guards {
            words: words_in(part),
            switches,
        }
    }

    /// The guards without the words in front of this index.
    #[tactic(auto, using(crate::proofs::Words::numbers_behind))]
    fn skip(&self, index: usize) -> Guards<'a>
        ensures words { numbers_of result ≡ drop index (numbers_of self.now) }
        ensures switches { result.switches ≡ self.now.switches }
    {
        Guards {
            words: words_from(self.words, index),
            switches: self.switches,
        }
    }

    /// What the word at this index says, or `None` where a guard ends there.
    #[tactic(auto, using(crate::proofs::Words::said_found, crate::proofs::Words::said_missing))]
    pub fn get(&self, index: usize) -> Option<Word>
        ensures { result ≡ slice_index_or (said_by self.now) index None }
    {
        word_of(word_at(self.words, index)?, self.switches)
    }

    /// The words of the guard that begins at this index.
    #[tactic(auto, using(crate::proofs::Words::said_behind))]
    pub fn guard(&self, index: usize) -> Guard<'a>
        ensures { left_of result ≡ leading (drop index (said_by self.now)) }
    {
        Guard(self.skip(index))
    }

    /// Whether the guard that begins at this index is valid.
    pub fn is_valid(&self, index: usize) -> bool
        ensures { result ≡ guard_valid self.now.switches 0 (drop index (numbers_of self.now)) }
    {
        self.skip(index).first_is_valid()
    }

    /// Whether the guard that begins at the first word is valid.
    fn first_is_valid(&self) -> bool
        ensures { result ≡ guard_valid self.now.switches 0 (numbers_of self.now) }
    {
        let mut held = 0;
        for word in self.words {
            let word = number_of(*word);
            if word == 0 {
                return held == 1;
            }
            let Some(word) = word_of(word, self.switches) else {
                return false;
            };
            let Some(behind) = held_behind(word, held) else {
                return false;
            };
            held = behind;
        }
        false
    }
}

/// The words of one guard, in order: those that lead what is left.
#[derive(Clone, Copy, Debug)]
pub struct Guard<'a>(Guards<'a>);

impl Iterator for Guard<'_> {
    type Item = Word;

    ghost next_gives = { YieldsFirst left_of };

    ghost remaining = { item_count left_of };

    fn next(&mut self) -> Option<Word> {
        let (first, rest) = self.0.words.split_first()?;
        let word = word_of(number_of(*first), self.0.switches)?;
        self.0.words = rest;
        Some(word)
    }
}
