// The faults of a depth-stencil state.
use adapter::samples::UnsupportedSampleCount;
use descriptor::primitive::PrimitiveTopology;
use formats::texture::TextureFormat;
use std::error::Error;
use std::fmt;

#[derive(Clone, Copy, PartialEq, Eq, Debug)]
pub enum DepthStencilStateError {
    FormatNotRenderable(TextureFormat),
    FormatNotDepthOrStencil(TextureFormat),
    FormatNotDepth(TextureFormat),
    FormatNotStencil(TextureFormat),
    InvalidSampleCount(UnsupportedSampleCount),
    DepthBiasWithIncompatibleTopology(PrimitiveTopology),
    MissingDepthCompare(TextureFormat),
    MissingDepthWriteEnabled(TextureFormat),
}

impl fmt::Display for DepthStencilStateError {
    fn fmt<W: fmt::Write>(&self, f: &mut fmt::Formatter<W>) -> fmt::Result {
        match self {
            Self::FormatNotRenderable(format) => write!(f, "{format:?} cannot be drawn on"),
            Self::FormatNotDepthOrStencil(format) => {
                write!(f, "{format:?} has neither depth nor stencil")
            }
            Self::FormatNotDepth(format) => {
                write!(f, "{format:?} has no depth, which is compared or written")
            }
            Self::FormatNotStencil(format) => {
                write!(f, "{format:?} has no stencil, which is compared or written")
            }
            Self::InvalidSampleCount(e) => write!(f, "{e}"),
            Self::DepthBiasWithIncompatibleTopology(topology) => {
                write!(f, "a depth bias is for triangles, and not for {topology:?}")
            }
            Self::MissingDepthCompare(format) => {
                write!(f, "depth_compare is missing, with the depth of {format:?}")
            }
            Self::MissingDepthWriteEnabled(format) => {
                write!(
                    f,
                    "depth_write_enabled is missing, with the depth of {format:?}"
                )
            }
        }
    }
}

impl Error for DepthStencilStateError {}
