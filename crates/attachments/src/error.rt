// The faults of a list of color attachments.
ghost use Rattle.std.specs.Prelude.{◌≡◌};
ghost use Rattle.attachments.specs.Numbers.{number_of};
ghost use Rattle.attachments.specs.Words.{words};

use faults::Fault;
use std::error::Error;
use std::fmt;

#[derive(Clone, Copy, PartialEq, Eq, Debug)]
pub enum ColorAttachmentError {
    TooMany { given: u64, limit: u64 },
    NoByteCost { index: u64 },
    TooManyBytesPerSample { total: u64, limit: u64 },
}

impl Fault for ColorAttachmentError {
    ghost number_of = { number_of };

    fn number(&self) -> u32 {
        match self {
            ColorAttachmentError::TooMany { .. } => 2,
            ColorAttachmentError::NoByteCost { .. } => 15,
            ColorAttachmentError::TooManyBytesPerSample { .. } => 16,
        }
    }
}

impl fmt::Display for ColorAttachmentError {
    ghost output = { words };

    fn fmt<W: fmt::Write>(&self, f: &mut fmt::Formatter<W>) -> fmt::Result {
        match self {
            Self::TooMany { given, limit } => {
                write!(
                    f,
                    "{given} color targets are more than the limit of {limit}"
                )
            }
            Self::NoByteCost { index } => {
                write!(f, "color target {index} has a format without a byte cost")
            }
            Self::TooManyBytesPerSample { total, limit } => {
                write!(
                    f,
                    "the color targets take {total} bytes for a sample, more than the limit of {limit}"
                )
            }
        }
    }
}

impl Error for ColorAttachmentError {}
