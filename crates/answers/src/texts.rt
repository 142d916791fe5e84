//! What is printed of an answer, without the last line's end.
ghost use Rattle.std.specs.Prelude.{◌≡◌, Some, IfOk, string_bytes};
ghost use Rattle.answers.specs.Texts.{reading_text, refused_text, text_of};

use crate::answer::{Reading, Refused};
use format::told;
use plain::Ending;
use std::alloc::{AllocError, Global};
use std::error::Error;
use std::fmt;

impl fmt::Display for Reading {
    ghost output = { λ reading. Some (reading_text reading) };

    fn fmt<W: fmt::Write>(&self, f: &mut fmt::Formatter<W>) -> fmt::Result {
        let report = self.report;
        let actions = report.actions;
        writeln!(f, "configuration {}", self.configuration)?;
        writeln!(f, "tokens {}", report.tokens)?;
        match report.ending {
            Ending::Accepted => write!(f, "accepted {actions}"),
            Ending::Failed(place, reason) => {
                write!(f, "failed {place} {} {actions}", reason.number())
            }
            Ending::Spent => write!(f, "spent {actions}"),
        }
    }
}

impl fmt::Display for Refused {
    ghost output = { λ refused. Some (refused_text refused) };

    fn fmt<W: fmt::Write>(&self, f: &mut fmt::Formatter<W>) -> fmt::Result {
        let (number, place) = match self {
            Refused::TooLong => return f.write_str("too long"),
            Refused::Delivery(refusal) => told(*refusal),
            Refused::Configuration(fault) => told(*fault),
        };
        write!(f, "refused {number} {place}")
    }
}

impl Error for Refused {}

/// An answer as it is printed, whichever it is: the reading, or why nothing was read.
#[derive(Clone, Copy, Debug, PartialEq, Eq)]
pub struct Answer(pub Result<Reading, Refused>);

impl fmt::Display for Answer {
    ghost output = { λ answer. Some (text_of answer.0) };

    fn fmt<W: fmt::Write>(&self, f: &mut fmt::Formatter<W>) -> fmt::Result {
        match self.0 {
            Ok(reading) => write!(f, "{reading}"),
            Err(refused) => write!(f, "{refused}"),
        }
    }
}

/// What is printed of an answer, as a string.
pub fn text_of(alloc: Global, answer: Result<Reading, Refused>) -> Result<String, AllocError>
    ensures { IfOk result (λ s. string_bytes s ≡ text_of answer) }
{
    Answer(answer).to_string(alloc)
}
