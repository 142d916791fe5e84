//! One action of an LR parser.
ghost use Rattle.std.specs.Prelude.{◌≡◌, Some};
ghost use Rattle.stacks.specs.Views.{items_of};
ghost use Rattle.delivery.specs.Views.{model_of};
ghost use Rattle.plain.specs.declared.automaton.Reason.TheVariants.{NoRoom};
ghost use Rattle.plain.specs.Acts.{shown_by};
ghost use Rattle.plain.specs.Automaton.{outcome, reason_number, reduced, top};

use delivery::{Action, Delivery, Production};
use stacks::{Full, Stack};
use std::error::Error;
use std::fmt;

/// How many states a stack holds at most.
pub const DEPTH: usize = 128;

/// Why a reading fails.
#[derive(Clone, Copy, Debug, PartialEq, Eq)]
pub enum Reason {
    /// The table has no action.
    NoAction,
    /// A reduction would leave no state.
    NoState,
    /// The table has no goto.
    NoGoto,
    /// The stack holds as many states as it may.
    NoRoom,
}

impl Reason {
    /// The number by which the reason is known.
    pub fn number(self) -> u8
        ensures { result ≡ reason_number self }
    {
        match self {
            Reason::NoAction => 1,
            Reason::NoState => 2,
            Reason::NoGoto => 3,
            Reason::NoRoom => 4,
        }
    }
}

impl fmt::Display for Reason {
    fn fmt<W: fmt::Write>(&self, f: &mut fmt::Formatter<W>) -> fmt::Result {
        match self {
            Reason::NoAction => f.write_str("the table has no action"),
            Reason::NoState => f.write_str("a reduction would leave no state"),
            Reason::NoGoto => f.write_str("the table has no goto"),
            Reason::NoRoom => f.write_str("the stack is full"),
        }
    }
}

impl Error for Reason {}

/// A push that finds no room.
impl From<Full> for Reason {
    ghost from_gives = { λ _ reason. reason ≡ NoRoom };

    fn from(_: Full) -> Reason {
        Reason::NoRoom
    }
}

/// What an action did; the stack shows the rest.
#[derive(Clone, Copy, Debug, PartialEq, Eq)]
pub enum Move {
    Shift,
    Reduce,
    Accept,
}

/// The state on top, or state 0 where the stack is empty.
fn top(stack: &Stack<u16, DEPTH>) -> u16
    ensures { result ≡ top (items_of stack.now) }
{
    stack.top().unwrap_or(0)
}

/// Drops the production's right side from the stack, and pushes the state to which what is left goes.
fn reduce(
    delivery: &Delivery<'_>,
    production: Production,
    stack: &mut Stack<u16, DEPTH>,
) -> Result<Move, Reason>
    ensures { shown_by result (items_of stack.new) ≡ reduced (model_of delivery.now) (items_of stack.old) (Some production) }
{
    let length = usize::from(production.length);
    if length >= stack.len() {
        return Err(Reason::NoState);
    }
    stack.cut(length);
    let state = delivery
        .goto(top(stack), production.left)
        .ok_or(Reason::NoGoto)?;
    stack.push(state)?;
    Ok(Move::Reduce)
}

/// Makes one action at this terminal. Where it fails, what the stack holds counts for nothing.
pub fn act(
    delivery: &Delivery<'_>,
    terminal: u16,
    stack: &mut Stack<u16, DEPTH>,
) -> Result<Move, Reason>
    ensures { shown_by result (items_of stack.new) ≡ outcome (model_of delivery.now) terminal (items_of stack.old) }
{
    match delivery.action(top(stack), terminal) {
        Action::None => Err(Reason::NoAction),
        Action::Shift(state) => {
            stack.push(state)?;
            Ok(Move::Shift)
        }
        Action::Reduce(number) => {
            let production = delivery.production(number).ok_or(Reason::NoAction)?;
            reduce(delivery, production, stack)
        }
        Action::Accept => Ok(Move::Accept),
    }
}
