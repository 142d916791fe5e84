//! Whether a guard holds in a configuration.
ghost use Rattle.std.specs.Prelude.{◌≡◌, ◌≤◌, true, false, length, drop, is_some, slice_index_or};
ghost use Rattle.stacks.specs.Views.{items_of};
ghost use Rattle.units.specs.Configurations.{on};
ghost use Rattle.units.specs.Guards.{held_behind};
ghost use Rattle.delivery.specs.Bounds.{Balanced};
ghost use Rattle.delivery.specs.Model.{guard_at};
ghost use Rattle.delivery.specs.Views.{model_of};
ghost use Rattle.plain.specs.Guards.{holds, worked};

use delivery::{Delivery, Word};
use stacks::Stack;
use units::OPERANDS;

/// Whether the switch is on in the configuration of this number.
#[tactic(auto, using(crate::proofs::Evaluated::off_above))]
fn is_on(switch: u16, number: u32) -> bool
    ensures { result ≡ on switch number }
{
    switch < 32 && (number >> switch) % 2 == 1
}

/// Takes off the two operands on top, and answers what `f` makes of them, the lower one first.
fn connect<F: Fn(bool, bool) -> bool>(operands: &mut Stack<bool, OPERANDS>, f: F) -> bool
    requires two { 2 ≤ length (items_of operands.old) }
    requires callable { F.IsAlwaysCallable f }
    ensures value { F.post f (slice_index_or (items_of operands.old) 1 false) (slice_index_or (items_of operands.old) 0 false) result }
    ensures left { items_of operands.new ≡ drop 2 (items_of operands.old) }
{
    let y = operands.pop().unwrap();
    let x = operands.pop().unwrap();
    f(x, y)
}

/// Works a word of a guard into the operands, for which there is room, in the configuration of this number.
fn work(operands: &mut Stack<bool, OPERANDS>, word: Word, number: u32)
    requires { is_some (held_behind word (length (items_of operands.old))) ≡ true }
    ensures { items_of operands.new ≡ worked number word (items_of operands.old) }
{
    let value = match word {
        Word::Switch(switch) => is_on(switch, number),
        Word::Whole => true,
        Word::Nothing => false,
        Word::Not => !operands.pop().unwrap(),
        Word::And => connect(operands, |x, y| x && y),
        Word::Or => connect(operands, |x, y| x || y),
    };
    operands.push(value).unwrap();
}

/// Whether the guard that begins at this word holds in the configuration of this number.
pub fn guard_holds(delivery: &Delivery<'_>, guard: u16, number: u32) -> bool
    requires { Balanced 0 (guard_at (model_of delivery.now) guard) }
    ensures { result ≡ holds (model_of delivery.now) number guard }
{
    let mut operands = Stack::new(false);
    for word in delivery.guard(guard) {
        work(&mut operands, word, number);
    }
    operands.top().unwrap_or(false)
}
