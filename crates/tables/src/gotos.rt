//! The goto table: a word for each state and nonterminal.
ghost use Rattle.std.specs.Prelude.{◌≡◌, ◌*◌, length, nat_le, not, position};
ghost use Rattle.format.specs.Words.{u16_in};
ghost use Rattle.format.specs.Refusals.{refusal_in};
ghost use Rattle.tables.specs.Gotos.{goto_of, gotos_refusal};

use format::{Counts, Refusal, number_of};

/// The state to which the word goes, if it goes to one.
pub fn goto_of(word: u16) -> Option<u16>
    ensures { result ≡ goto_of word }
{
    word.checked_sub(1)
}

/// Whether the word goes to no state, or to one of so many.
fn is_allowed(word: [u8; 2], states: usize) -> bool
    ensures { result ≡ nat_le (u16_in word 0) states }
{
    usize::from(number_of(word)) <= states
}

/// The index of the first word that is not allowed.
fn first_beyond(words: &[[u8; 2]], states: usize) -> Option<usize>
    ensures { result ≡ position (λ word. not (nat_le (u16_in word 0) states)) words.now }
{
    words.iter().position(|word| !is_allowed(*word, states))
}

/// Whether each word goes to no state, or to one that there is: state by state, at each state nonterminal by nonterminal.
pub fn check_gotos(part: &[u8], counts: &Counts) -> Result<(), Refusal>
    requires { length part.now ≡ counts.now.states * counts.now.nonterminals * 2 }
    ensures { refusal_in result ≡ gotos_refusal part.now counts.now.states counts.now.nonterminals }
{
    let (words, _) = part.as_chunks::<2>();
    first_beyond(words, counts.states).map_or(Ok(()), |i| Err(Refusal::Goto(i)))
}
