//! A configuration of a delivery.
ghost use Rattle.std.specs.Prelude.{◌<◌, ◌^◌};
ghost use Rattle.delivery.specs.Views.{model_of};

use delivery::{Delivery, Numbered};
use std::error::Error;
use std::fmt;

/// Why a configuration is not read.
#[derive(Clone, Copy, Debug, PartialEq, Eq)]
pub enum Fault {
    /// The configuration's number is not below 2 to the number of switches.
    OutOfRange,
}

impl Numbered for Fault {
    ghost use Rattle.plain.specs.Standing.{numbered};

    ghost numbered = { numbered };

    fn number(self) -> u8 {
        match self {
            Fault::OutOfRange => 22,
        }
    }

    fn place(self) -> usize {
        match self {
            Fault::OutOfRange => 0,
        }
    }
}

impl fmt::Display for Fault {
    fn fmt<W: fmt::Write>(&self, f: &mut fmt::Formatter<W>) -> fmt::Result {
        match self {
            Fault::OutOfRange => f.write_str("the configuration is out of range"),
        }
    }
}

impl Error for Fault {}

/// A number below 2 to the number of the delivery's switches: the switches that are on, as bits.
#[derive(Clone, Copy, Debug, PartialEq, Eq)]
pub struct Configuration<'a> {
    pub(crate) delivery: Delivery<'a>,
    pub(crate) number: u32,
    ghost in_range: { number < 2 ^ (model_of delivery).switches },
}

impl<'a> Configuration<'a> {
    ghost use Rattle.std.specs.Prelude.{◌≡◌, IfOk};
    ghost use Rattle.delivery.specs.Views.{model_of};
    ghost use Rattle.plain.specs.Standing.{fault_in, fault_of};

    /// The configuration of this number, if there is one.
    pub fn new(delivery: Delivery<'a>, number: u32) -> Result<Configuration<'a>, Fault>
        ensures refused { fault_in result ≡ fault_of (model_of delivery.entry) number }
        ensures delivery { IfOk result (λ c. c.delivery ≡ delivery.entry) }
        ensures number { IfOk result (λ c. c.number ≡ number) }
    {
        if number >> delivery.counts().switches != 0 {
            return Err(Fault::OutOfRange);
        }
        Ok(Configuration { delivery, number })
    }
}
