//! A reader of one configuration.
ghost use Rattle.std.specs.Prelude.{◌≡◌, [], ◌∷◌, IfOk};
ghost use Rattle.stacks.specs.Views.{items_of};
ghost use Rattle.delivery.specs.Model.{record_at};
ghost use Rattle.delivery.specs.Views.{model_of};
ghost use Rattle.plain.specs.Readings.{terminal_of};
ghost use Rattle.plain.specs.Standing.{Told, fault_in, fault_of};

use crate::automaton::{DEPTH, Move, Reason, act};
use crate::configuration::{Configuration, Fault};
use crate::cursor::Cursor;
use crate::tokens::count_tokens;
use delivery::{Delivery, Record};
use stacks::Stack;

/// Whether a reading goes on.
#[derive(Clone, Copy, Debug, PartialEq, Eq)]
pub enum Status {
    Standing,
    Accepted,
    Failed(Reason),
}

/// A reading of one configuration: the place at which it stands, and its stack of states. It is handed the delivery at each call, so it borrows nothing.
#[derive(Drop)]
pub struct Reader {
    configuration: u32,
    cursor: Cursor,
    stack: Stack<u16, DEPTH>,
    status: Status,
}

/// How far a reading came.
#[derive(Clone, Copy, Debug, PartialEq, Eq)]
pub enum Ending {
    Accepted,
    Failed(usize, Reason),
    /// Its budget was spent.
    Spent,
}

/// What is told of a reading: how many tokens the configuration has, without the end, how many actions were made, and the ending.
#[derive(Clone, Copy, Debug, PartialEq, Eq)]
pub struct Report {
    pub tokens: usize,
    pub actions: u64,
    pub ending: Ending,
}

/// The terminal at a place; the unit's end is terminal 0.
fn terminal_at(delivery: &Delivery<'_>, place: usize) -> u16
    ensures { result ≡ terminal_of (record_at (model_of delivery.now) place) }
{
    match delivery.record(place) {
        Some(Record::Token(terminal)) => terminal,
        _ => 0,
    }
}

/// State 0 alone.
fn first_stack() -> Stack<u16, DEPTH>
    ensures { items_of result ≡ 0 ∷ [] }
{
    let mut stack = Stack::new(0);
    stack.push(0).unwrap();
    stack
}

impl Reader {
    ghost use Rattle.std.specs.Prelude.{◌≡◌, ℕ, ◌+◌, ◌≤◌, true, false, IfOk, if◌then◌else◌};
    ghost use Rattle.delivery.specs.Views.{model_of};
    ghost use Rattle.plain.specs.Readers.{Placed, Stands, ending_of, shown, shown_after, shown_next};
    ghost use Rattle.plain.specs.Standing.{fault_in, fault_of, is_standing};

    /// A reading of this configuration that has made no action.
    fn start(configuration: &Configuration<'_>) -> Reader
        ensures same { result.configuration ≡ configuration.now.number }
        ensures stands { Stands (model_of configuration.now.delivery) 0 result }
    {
        let mut cursor = Cursor::new();
        cursor.seek(&configuration.delivery, configuration.number);
        Reader {
            configuration: configuration.number,
            cursor,
            stack: first_stack(),
            status: Status::Standing,
        }
    }

    /// A reading that has made no action.
    pub fn new(delivery: &Delivery<'_>, configuration: u32) -> Result<Reader, Fault>
        ensures refused { fault_in result ≡ fault_of (model_of delivery.now) configuration }
        ensures same { IfOk result (λ x. x.configuration ≡ configuration) }
        ensures stands { IfOk result (Stands (model_of delivery.now) 0) }
    {
        let configuration = Configuration::new(*delivery, configuration)?;
        Ok(Reader::start(&configuration))
    }

    /// Makes one action, or answers false where the reading is over.
    pub fn step(&mut self, delivery: &Delivery<'_>) -> bool
        ensures made { result ≡ is_standing self.old.status }
        ensures same { self.new.configuration ≡ self.old.configuration }
        ensures kept { result ≡ false → self.new ≡ self.old }
        ensures next { Placed (model_of delivery.now) self.old → Placed (model_of delivery.now) self.new × (result ≡ true → shown self.new ≡ shown_next (model_of delivery.now) self.old) }
        ensures stands { (j : ℕ) → Stands (model_of delivery.now) j self.old → Stands (model_of delivery.now) (j + (if result then 1 else 0)) self.new }
    {
        let Status::Standing = self.status else {
            return false;
        };
        let terminal = terminal_at(delivery, self.cursor.place);
        match act(delivery, terminal, &mut self.stack) {
            Ok(Move::Shift) => self.cursor.advance(delivery, self.configuration),
            Ok(Move::Reduce) => {}
            Ok(Move::Accept) => self.status = Status::Accepted,
            Err(reason) => self.status = Status::Failed(reason),
        }
        true
    }

    /// Makes as many actions as the budget allows, until the reading is over, and answers how many.
    pub fn run(&mut self, delivery: &Delivery<'_>, budget: u64) -> u64
        ensures few { result ≤ budget }
        ensures same { self.new.configuration ≡ self.old.configuration }
        ensures over { is_standing self.new.status ≡ true → result ≡ budget }
        ensures made { Placed (model_of delivery.now) self.old → Placed (model_of delivery.now) self.new × (shown self.new ≡ shown_after (model_of delivery.now) result self.old) }
        ensures stands { (j : ℕ) → Stands (model_of delivery.now) j self.old → Stands (model_of delivery.now) (j + result) self.new }
    {
        for made in 0..budget {
            if !self.step(delivery) {
                return made;
            }
        }
        budget
    }

    /// Whether the reading goes on.
    pub fn status(&self) -> Status
        ensures { result ≡ self.now.status }
    {
        self.status
    }

    /// The place at which the reading stands, or at which it ended.
    pub fn place(&self) -> usize
        ensures { result ≡ self.now.cursor.place }
    {
        self.cursor.place
    }

    /// How far a reading came that has spent its budget or is over.
    fn ending(&self) -> Ending
        ensures { result ≡ ending_of self.now }
    {
        match self.status {
            Status::Standing => Ending::Spent,
            Status::Accepted => Ending::Accepted,
            Status::Failed(reason) => Ending::Failed(self.cursor.place, reason),
        }
    }
}

/// Reads a configuration, with a budget of actions.
pub fn read(delivery: &Delivery<'_>, configuration: u32, budget: u64) -> Result<Report, Fault>
    ensures refused { fault_in result ≡ fault_of (model_of delivery.now) configuration }
    ensures told { IfOk result (Told (model_of delivery.now) configuration budget) }
{
    let chosen = Configuration::new(*delivery, configuration)?;
    let mut reader = Reader::start(&chosen);
    let actions = reader.run(delivery, budget);
    Ok(Report {
        tokens: count_tokens(chosen),
        actions,
        ending: reader.ending(),
    })
}
