// The faults of one color target.
use adapter::samples::UnsupportedSampleCount;
use descriptor::blend::{BlendFactor, ColorWrites};
use formats::flags::Flags;
use formats::texture::TextureFormat;
use std::error::Error;
use std::fmt;

#[derive(Clone, Copy, PartialEq, Eq, Debug)]
pub enum ColorStateError {
    FormatNotRenderable(TextureFormat),
    FormatNotBlendable(TextureFormat),
    FormatNotColor(TextureFormat),
    InvalidSampleCount(UnsupportedSampleCount),
    InvalidWriteMask(ColorWrites),
    BlendFactorOnUnsupportedTarget { factor: BlendFactor, target: u64 },
    InvalidMinMaxBlendFactor { factor: BlendFactor, target: u64 },
}

impl fmt::Display for ColorStateError {
    fn fmt<W: fmt::Write>(&self, f: &mut fmt::Formatter<W>) -> fmt::Result {
        match self {
            Self::FormatNotRenderable(format) => write!(f, "{format:?} cannot be drawn on"),
            Self::FormatNotBlendable(format) => write!(f, "{format:?} cannot be blended"),
            Self::FormatNotColor(format) => write!(f, "{format:?} has no color"),
            Self::InvalidSampleCount(e) => write!(f, "{e}"),
            Self::InvalidWriteMask(mask) => write!(
                f,
                "write mask {} has a bit that is no channel's",
                mask.bits()
            ),
            Self::BlendFactorOnUnsupportedTarget { factor, target } => write!(
                f,
                "blend factor {factor:?} is for target 0 only, and not for target {target}"
            ),
            Self::InvalidMinMaxBlendFactor { factor, target } => write!(
                f,
                "blend factor {factor:?} of target {target} has to be One under Min or Max"
            ),
        }
    }
}

impl Error for ColorStateError {}
