//! The check of the records, from the first to the last.
ghost use Rattle.std.specs.Prelude.{◌≡◌, ◌*◌, ◌≤◌, length, is_ok, if◌then◌else◌, Some, None};
ghost use Rattle.format.specs.Refusals.{refusal_in};
ghost use Rattle.stacks.specs.Views.{items_of};
ghost use Rattle.units.specs.GuardWords.{numbers_of};
ghost use Rattle.units.specs.Records.{records_in};
ghost use Rattle.units.specs.Scans.{begin, begun, guard_good, nested, passed, scanned};

use crate::guards::Guards;
use crate::records::{Record, record_of};
use format::{Counts, Refusal, words_of};
use stacks::{Full, Stack};

/// The most conditionals that may be open at once.
pub const NESTING: usize = 64;

/// The most branches that a unit may have.
const BRANCHES: usize = 256;

/// A record may not stand where it does.
#[derive(Clone, Copy, Debug, PartialEq, Eq)]
struct Misplaced;

impl From<Full> for Misplaced {
    fn from(_full: Full) -> Misplaced {
        Misplaced
    }
}

/// How far the check has come.
#[derive(Drop)]
struct Scan {
    /// Whether the else of each open conditional has come, the innermost on top.
    nesting: Stack<bool, NESTING>,
    branches: usize,
    ghost few: { branches ≤ 256 },
}

/// Notes what the record opens and ends.
fn nest(nesting: &mut Stack<bool, NESTING>, record: Record) -> Result<(), Misplaced>
    ensures { nested «record» (items_of nesting.old) ≡ (if is_ok result then Some (items_of nesting.new) else None) }
{
    match record {
        Record::Token(_) => {}
        Record::If(_) => nesting.push(false)?,
        Record::Elif(_) => {
            if nesting.top() != Some(false) {
                return Err(Misplaced);
            }
        }
        Record::Else => {
            if nesting.pop() != Some(false) {
                return Err(Misplaced);
            }
            nesting.push(true)?;
        }
        Record::End => {
            nesting.pop().ok_or(Misplaced)?;
        }
    }
    Ok(())
}

/// Whether the guard that the record names, if it names one, is valid.
fn guard_good(record: Record, guards: &Guards<'_>) -> bool
    ensures { result ≡ guard_good (numbers_of guards.now) guards.now.switches «record» }
{
    match record {
        Record::If(guard) | Record::Elif(guard) => guards.is_valid(usize::from(guard)),
        Record::Token(_) | Record::Else | Record::End => true,
    }
}

/// How many branches the record begins.
fn begun_by(record: Record) -> usize
    ensures { result ≡ begun «record» }
{
    match record {
        Record::If(_) | Record::Elif(_) | Record::Else => 1,
        Record::Token(_) | Record::End => 0,
    }
}

impl Scan {
    ghost use Rattle.units.specs.Views.{led_to, state_of};

    /// Passes the record at this index, or refuses it.
    fn pass(&mut self, i: usize, record: Option<Record>, guards: &Guards<'_>) -> Result<(), Refusal>
        ensures { led_to self.new result ≡ passed (numbers_of guards.now) guards.now.switches i (state_of self.old) «record» }
    {
        let record = record.ok_or(Refusal::Record(i))?;
        nest(&mut self.nesting, record).map_err(|_| Refusal::Nesting(i))?;
        if !guard_good(record, guards) {
            return Err(Refusal::Guard(i));
        }
        let branches = self.branches + begun_by(record);
        if branches > BRANCHES {
            return Err(Refusal::Branch(i));
        }
        self.branches = branches;
        Ok(())
    }
}

/// Whether each record is allowed where it stands.
pub fn check_records(part: &[u8], guards: &Guards<'_>, counts: &Counts) -> Result<(), Refusal>
    requires { length part.now ≡ counts.now.records * 4 }
    ensures { refusal_in result ≡ scanned (numbers_of guards.now) guards.now.switches 0 begin (records_in part.now counts.now.terminals counts.now.records) }
{
    let mut scan = Scan {
        nesting: Stack::new(false),
        branches: 0,
    };
    let (rows, _) = part.as_chunks();
    for (i, row) in rows.iter().enumerate() {
        let [kind, value] = words_of(*row);
        scan.pass(i, record_of(kind, value, counts.terminals), guards)?;
    }
    if !scan.nesting.is_empty() {
        return Err(Refusal::Nesting(counts.records));
    }
    Ok(())
}
