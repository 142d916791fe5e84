//! The way of one configuration through a unit, from record to record and from token to token.
ghost use Rattle.std.specs.Prelude.{◌≡◌, ◌+◌, ◌<◌, ◌≤◌, ◌&&◌, [], length, Some};
ghost use Rattle.stacks.specs.Views.{items_of};
ghost use Rattle.delivery.specs.Bounds.{RecordBound};
ghost use Rattle.delivery.specs.Model.{finish, record_at};
ghost use Rattle.delivery.specs.Views.{model_of};
ghost use Rattle.plain.specs.Branches.{is_token};
ghost use Rattle.plain.specs.Frames.{framed, has_innermost};
ghost use Rattle.plain.specs.Places.{At, Found};

use crate::frame::Frame;
use crate::guards::guard_holds;
use delivery::{Delivery, Record};
use stacks::Stack;
use units::NESTING;

/// Whether the configuration has the innermost branch.
pub fn has_innermost(frames: &Stack<Frame, NESTING>) -> bool
    ensures { result ≡ has_innermost (items_of frames.now) }
{
    frames.top().is_none_or(|frame| frame.here)
}

/// Goes past a record. Where there is no room for its frame, what the frames hold counts for nothing.
fn pass(
    frames: &mut Stack<Frame, NESTING>,
    delivery: &Delivery<'_>,
    configuration: u32,
    record: Record,
)
    requires { RecordBound (model_of delivery.now) «record» }
    ensures { length (framed (model_of delivery.now) configuration «record» (items_of frames.old)) ≤ 64 → items_of frames.new ≡ framed (model_of delivery.now) configuration «record» (items_of frames.old) }
{
    let next = match record {
        Record::Token(_) => None,
        Record::If(guard) => {
            let holds = guard_holds(delivery, guard, configuration);
            Some(Frame::first(has_innermost(frames), holds))
        }
        Record::Elif(guard) => {
            let holds = guard_holds(delivery, guard, configuration);
            frames.pop().map(|frame| frame.later(holds))
        }
        Record::Else => frames.pop().map(Frame::last),
        Record::End => {
            frames.cut(1);
            None
        }
    };
    if let Some(frame) = next {
        let _ = frames.push(frame);
    }
}

/// Whether the record is a token that the configuration has.
fn is_present(record: Record, frames: &Stack<Frame, NESTING>) -> bool
    ensures { result ≡ (is_token «record» && has_innermost (items_of frames.now)) }
{
    match record {
        Record::Token(_) => has_innermost(frames),
        _ => false,
    }
}

/// A place in the unit, with a frame for each conditional open there. It is handed the delivery and the configuration at each call.
#[derive(Drop)]
pub struct Cursor {
    pub place: usize,
    pub frames: Stack<Frame, NESTING>,
}

impl Cursor {
    /// At the unit's first place.
    pub fn new() -> Cursor
        ensures place { result.place ≡ 0 }
        ensures frames { items_of result.frames ≡ [] }
    {
        Cursor {
            place: 0,
            frames: Stack::new(Frame::first(true, true)),
        }
    }

    /// Goes past the record at this place.
    pub fn pass(&mut self, delivery: &Delivery<'_>, configuration: u32, record: Record)
        requires here { record_at (model_of delivery.now) self.old.place ≡ Some «record» }
        requires bound { RecordBound (model_of delivery.now) «record» }
        ensures place { self.new.place ≡ self.old.place + 1 }
        ensures at { At (model_of delivery.now) configuration self.old.place (items_of self.old.frames) → At (model_of delivery.now) configuration self.new.place (items_of self.new.frames) }
    {
        pass(&mut self.frames, delivery, configuration, record);
        self.place += 1;
    }

    /// Goes on to the first token that the configuration has from this place on, or to the unit's end.
    pub fn seek(&mut self, delivery: &Delivery<'_>, configuration: u32)
        ensures { At (model_of delivery.now) configuration self.old.place (items_of self.old.frames) → Found (model_of delivery.now) configuration self.old.place self.new.place (items_of self.new.frames) }
    {
        while let Some(record) = delivery.record(self.place) {
            if is_present(record, &self.frames) {
                return;
            }
            self.pass(delivery, configuration, record);
        }
    }

    /// Goes on to the first token that the configuration has behind this place, or to the unit's end.
    pub fn advance(&mut self, delivery: &Delivery<'_>, configuration: u32)
        ensures { self.old.place < finish (model_of delivery.now) → At (model_of delivery.now) configuration self.old.place (items_of self.old.frames) → Found (model_of delivery.now) configuration (self.old.place + 1) self.new.place (items_of self.new.frames) }
    {
        if let Some(record) = delivery.record(self.place) {
            self.pass(delivery, configuration, record);
        }
        self.seek(delivery, configuration);
    }
}
