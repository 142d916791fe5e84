//! What a delivery and a configuration are answered.
ghost use Rattle.std.specs.Prelude.{◌≡◌};
ghost use Rattle.answers.specs.declared.answer.Refused.TheVariants.{Delivery, Configuration};
ghost use Rattle.answers.specs.Answered.{Answered};

use delivery::check;
use format::Refusal;
use plain::{Fault, Report, read};

/// The most bytes that a delivery may have here.
pub const LONGEST: usize = 65536;

/// The actions that a reading may make here.
const BUDGET: u64 = 1000000;

/// A configuration that was read.
#[derive(Clone, Copy, Debug, PartialEq, Eq)]
pub struct Reading {
    pub configuration: u32,
    pub report: Report,
}

/// Why nothing was read.
#[derive(Clone, Copy, Debug, PartialEq, Eq)]
pub enum Refused {
    /// There are more bytes than are read.
    TooLong,
    Delivery(Refusal),
    Configuration(Fault),
}

impl From<Refusal> for Refused {
    ghost from_gives = { λ refusal refused. refused ≡ Delivery refusal };

    fn from(refusal: Refusal) -> Refused {
        Refused::Delivery(refusal)
    }
}

impl From<Fault> for Refused {
    ghost from_gives = { λ fault refused. refused ≡ Configuration fault };

    fn from(fault: Fault) -> Refused {
        Refused::Configuration(fault)
    }
}

/// The reading of this configuration of the delivery in these bytes.
pub fn answer_for(bytes: &[u8], configuration: u32) -> Result<Reading, Refused>
    ensures { Answered bytes.now configuration result }
{
    if bytes.len() > LONGEST {
        return Err(Refused::TooLong);
    }
    let delivery = check(bytes)?;
    let report = read(&delivery, configuration, BUDGET)?;
    Ok(Reading {
        configuration,
        report,
    })
}
