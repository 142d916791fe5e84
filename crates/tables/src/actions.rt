//! The action table: a word for each state and terminal.
ghost use Rattle.std.specs.Prelude.{◌≡◌, ◌*◌, ◌%◌, ◌<◌, length, is_some, not, position};
ghost use Rattle.std.specs.List.{enumerate_from};
ghost use Rattle.format.specs.Words.{u16_in};
ghost use Rattle.format.specs.Refusals.{refusal_in};
ghost use Rattle.tables.specs.Actions.{action_of, actions_refusal};

use format::{Counts, Refusal, number_of};

/// What a parser does at a state and a terminal.
#[derive(Clone, Copy, Debug, PartialEq, Eq)]
pub enum Action {
    /// There is no action.
    None,
    /// Push this state, and go on to the next token.
    Shift(u16),
    /// Reduce by this production.
    Reduce(u16),
    Accept,
}

/// What the word says at this terminal, where there are so many states and productions, or `None` where it may not stand there.
pub fn action_of(word: u16, terminal: usize, states: usize, productions: usize) -> Option<Action>
    ensures { result ≡ action_of states productions terminal word }
{
    match word {
        0 => Some(Action::None),
        1..=256 if terminal != 0 && usize::from(word) <= states => Some(Action::Shift(word - 1)),
        1000..=1255 if usize::from(word - 1000) < productions => Some(Action::Reduce(word - 1000)),
        2000 if terminal == 0 => Some(Action::Accept),
        _ => None,
    }
}

/// The index of the first word that may not stand where it does.
fn first_misplaced(words: &[[u8; 2]], counts: &Counts) -> Option<usize>
    requires { 0 < counts.now.terminals }
    ensures { result ≡ position (λ p. not (is_some (action_of counts.now.states counts.now.productions (p.0 % counts.now.terminals) (u16_in p.1 0)))) (enumerate_from 0 words.now) }
{
    words.iter().enumerate().position(|(i, word)| {
        let word = number_of(*word);
        action_of(
            word,
            i % counts.terminals,
            counts.states,
            counts.productions,
        )
        .is_none()
    })
}

/// Whether each word is allowed, state by state, at each state terminal by terminal.
pub fn check_actions(part: &[u8], counts: &Counts) -> Result<(), Refusal>
    requires some { 0 < counts.now.terminals }
    requires long { length part.now ≡ counts.now.states * counts.now.terminals * 2 }
    ensures { refusal_in result ≡ actions_refusal part.now counts.now.states counts.now.terminals counts.now.productions }
{
    let (words, _) = part.as_chunks();
    first_misplaced(words, counts).map_or(Ok(()), |i| Err(Refusal::Action(i)))
}
