// The faults of a vertex state, under the reference's names. Each keeps its values.
ghost use Rattle.std.specs.Prelude.{◌≡◌};
ghost use Rattle.vertex.specs.Numbers.{number_of};
ghost use Rattle.vertex.specs.Words.{words};
ghost use Rattle.vertex.specs.declared.error.VertexStateError.TheVariants.{MissingFeatures as Lacks};

use device::MissingFeatures;
use faults::Fault;
use std::error::Error;
use std::fmt;

#[derive(Clone, Copy, PartialEq, Eq, Debug)]
pub enum VertexStateError {
    AttributeRange {
        index: u64,
        given: u64,
        limit: u64,
    },
    TooManyVertexBuffers {
        given: u64,
        limit: u64,
    },
    VertexStrideTooLarge {
        index: u64,
        given: u64,
        limit: u64,
    },
    UnalignedVertexStride {
        index: u64,
        stride: u64,
    },
    VertexAttributeStrideTooLarge {
        location: u32,
        given: u64,
        limit: u64,
    },
    InvalidVertexAttributeOffset {
        location: u32,
        offset: u64,
    },
    VertexAttributeLocationTooLarge {
        given: u64,
        limit: u64,
    },
    ShaderLocationClash(u32),
    TooManyVertexAttributes {
        given: u64,
        limit: u64,
    },
    MissingFeatures(MissingFeatures),
}

// Written out: a derived `From` has no contract, and here clauses say which fault a `?` makes.
impl From<MissingFeatures> for VertexStateError {
    ghost from_gives = { λ e r. r ≡ Lacks e };

    fn from(e: MissingFeatures) -> VertexStateError {
        VertexStateError::MissingFeatures(e)
    }
}

impl Fault for VertexStateError {
    ghost number_of = { number_of };

    fn number(&self) -> u32 {
        match self {
            VertexStateError::AttributeRange { .. } => 1,
            VertexStateError::TooManyVertexBuffers { .. } => 3,
            VertexStateError::VertexStrideTooLarge { .. } => 4,
            VertexStateError::UnalignedVertexStride { .. } => 5,
            VertexStateError::VertexAttributeStrideTooLarge { .. } => 6,
            VertexStateError::InvalidVertexAttributeOffset { .. } => 7,
            VertexStateError::VertexAttributeLocationTooLarge { .. } => 8,
            VertexStateError::ShaderLocationClash(_) => 9,
            VertexStateError::TooManyVertexAttributes { .. } => 10,
            VertexStateError::MissingFeatures(e) => e.number(),
        }
    }
}

impl fmt::Display for VertexStateError {
    ghost output = { words };

    // An arm for each fault: the formatter breaks each text over lines, and parts would be no plainer.
    fn fmt<W: fmt::Write>(&self, f: &mut fmt::Formatter<W>) -> fmt::Result {
        match self {
            Self::AttributeRange {
                index,
                given,
                limit,
            } => write!(
                f,
                "vertex buffer {index} ends at attribute {given}, the list at {limit}"
            ),
            Self::TooManyVertexBuffers { given, limit } => write!(
                f,
                "{given} vertex buffers are more than the limit of {limit}"
            ),
            Self::VertexStrideTooLarge {
                index,
                given,
                limit,
            } => write!(
                f,
                "vertex buffer {index} has stride {given}, above the limit of {limit}"
            ),
            Self::UnalignedVertexStride { index, stride } => write!(
                f,
                "vertex buffer {index} has stride {stride}, which is no multiple of 4"
            ),
            Self::VertexAttributeStrideTooLarge {
                location,
                given,
                limit,
            } => write!(
                f,
                "attribute at location {location} ends at byte {given}, beyond {limit}"
            ),
            Self::InvalidVertexAttributeOffset { location, offset } => write!(
                f,
                "attribute at location {location} has offset {offset}, unaligned or not below 2^28"
            ),
            Self::VertexAttributeLocationTooLarge { given, limit } => write!(
                f,
                "location {given} is not below the limit of {limit}"
            ),
            Self::ShaderLocationClash(location) => write!(
                f,
                "two attributes have location {location}"
            ),
            Self::TooManyVertexAttributes { given, limit } => write!(
                f,
                "{given} vertex attributes are more than the limit of {limit}"
            ),
            Self::MissingFeatures(e) => write!(f, "{e}"),
        }
    }
}

impl Error for VertexStateError {}
