// What a device is: its limits, its features and its downlevel flags; and the refusal of what needs one that it lacks.
#![tactic(auto)]

pub mod ceilings;
pub mod limits;

ghost use Rattle.std.specs.Prelude.{◌≡◌};
ghost use Rattle.faults.specs.Faults.{answer};
ghost use Rattle.device.specs.Lacking.{lacks, features_fault, flags_fault, missing_features_number, missing_flags_number};

use faults::{Fault, refuse_if};
use formats::features::{DownlevelFlags, Features};
use formats::flags::{Flags, NamedFlags};
use limits::Limits;
use std::error::Error;
use std::fmt;

// A set of flags that a style needs and that the device does not have whole.
#[derive(Clone, Copy, PartialEq, Eq, Debug)]
pub struct Missing<S>(pub S);

pub type MissingFeatures = Missing<Features>;

pub type MissingDownlevelFlags = Missing<DownlevelFlags>;

impl<S: NamedFlags> fmt::Display for Missing<S> {
    fn fmt<W: fmt::Write>(&self, f: &mut fmt::Formatter<W>) -> fmt::Result {
        write!(
            f,
            "the device lacks the {} that this needs: {}",
            S::KIND,
            self.0
        )
    }
}

impl<S: NamedFlags + fmt::Debug> Error for Missing<S> {}

impl Fault for Missing<Features> {
    ghost number_of = { missing_features_number };

    fn number(&self) -> u32 {
        23
    }
}

impl Fault for Missing<DownlevelFlags> {
    ghost number_of = { missing_flags_number };

    fn number(&self) -> u32 {
        24
    }
}

// Whether what is needed is held; if not, the refusal names all that was asked for.
fn require<S: Flags>(held: S, needed: S) -> Result<(), Missing<S>>
    ensures { result ≡ answer (lacks S.Flags.word held needed) tt }
{
    refuse_if(!held.contains(needed), Missing(needed))
}

#[derive(Clone, Copy)]
pub struct Device {
    pub limits: Limits,
    pub features: Features,
    pub downlevel: DownlevelFlags,
}

impl Device {
    // Whether the device has the features.
    pub fn require_features(&self, features: Features) -> Result<(), MissingFeatures>
        ensures { result ≡ answer (features_fault self.now features) tt }
    {
        require(self.features, features)
    }

    pub fn require_downlevel_flags(
        &self,
        flags: DownlevelFlags,
    ) -> Result<(), MissingDownlevelFlags>
        ensures { result ≡ answer (flags_fault self.now flags) tt }
    {
        require(self.downlevel, flags)
    }
}
