// The fault of create.
ghost use Rattle.std.specs.Prelude.{◌≡◌};
ghost use Rattle.errors.specs.Numbers.{number_of};
ghost use Rattle.errors.specs.declared.create.CreateRenderPipelineError.TheVariants.{ColorAttachment as InAttachment, DepthStencilState as InDepthStencil, VertexState as InVertex, MissingFeatures as LacksFeatures, MissingDownlevelFlags as LacksFlags};

use crate::color::ColorStateError;
use crate::depth_stencil::DepthStencilStateError;
use attachments::error::ColorAttachmentError;
use descriptor::primitive::{IndexFormat, PrimitiveTopology};
use device::{MissingDownlevelFlags, MissingFeatures};
use faults::Fault;
use std::error::Error;
use std::fmt;
use vertex::error::VertexStateError;

#[derive(Clone, Copy, PartialEq, Eq, Debug)]
pub enum CreateRenderPipelineError {
    ColorAttachment(ColorAttachmentError),
    // The target's place, and what is wrong with it.
    ColorState(u64, ColorStateError),
    DepthStencilState(DepthStencilStateError),
    InvalidSampleCount(u32),
    VertexState(VertexStateError),
    StripIndexFormatForNonStripTopology {
        strip_index_format: IndexFormat,
        topology: PrimitiveTopology,
    },
    ConservativeRasterizationNonFillPolygonMode,
    MissingFeatures(MissingFeatures),
    MissingDownlevelFlags(MissingDownlevelFlags),
    DualSourceBlendingWithMultipleColorTargets {
        count: u64,
    },
    NoTargetSpecified,
}

// Written out: a derived `From` has no contract, and here clauses say which fault a `?` makes.
impl From<ColorAttachmentError> for CreateRenderPipelineError {
    ghost from_gives = { λ e r. r ≡ InAttachment e };

    fn from(e: ColorAttachmentError) -> CreateRenderPipelineError {
        CreateRenderPipelineError::ColorAttachment(e)
    }
}

impl From<DepthStencilStateError> for CreateRenderPipelineError {
    ghost from_gives = { λ e r. r ≡ InDepthStencil e };

    fn from(e: DepthStencilStateError) -> CreateRenderPipelineError {
        CreateRenderPipelineError::DepthStencilState(e)
    }
}

impl From<VertexStateError> for CreateRenderPipelineError {
    ghost from_gives = { λ e r. r ≡ InVertex e };

    fn from(e: VertexStateError) -> CreateRenderPipelineError {
        CreateRenderPipelineError::VertexState(e)
    }
}

impl From<MissingFeatures> for CreateRenderPipelineError {
    ghost from_gives = { λ e r. r ≡ LacksFeatures e };

    fn from(e: MissingFeatures) -> CreateRenderPipelineError {
        CreateRenderPipelineError::MissingFeatures(e)
    }
}

impl From<MissingDownlevelFlags> for CreateRenderPipelineError {
    ghost from_gives = { λ e r. r ≡ LacksFlags e };

    fn from(e: MissingDownlevelFlags) -> CreateRenderPipelineError {
        CreateRenderPipelineError::MissingDownlevelFlags(e)
    }
}

impl Fault for CreateRenderPipelineError {
    ghost number_of = { number_of };

    fn number(&self) -> u32 {
        match self {
            CreateRenderPipelineError::ColorAttachment(e) => e.number(),
            CreateRenderPipelineError::ColorState(..) => 13,
            CreateRenderPipelineError::DepthStencilState(_) => 17,
            CreateRenderPipelineError::InvalidSampleCount(_) => 19,
            CreateRenderPipelineError::VertexState(e) => e.number(),
            CreateRenderPipelineError::StripIndexFormatForNonStripTopology { .. } => 11,
            CreateRenderPipelineError::ConservativeRasterizationNonFillPolygonMode => 12,
            CreateRenderPipelineError::MissingFeatures(e) => e.number(),
            CreateRenderPipelineError::MissingDownlevelFlags(e) => e.number(),
            CreateRenderPipelineError::DualSourceBlendingWithMultipleColorTargets { .. } => 14,
            CreateRenderPipelineError::NoTargetSpecified => 18,
        }
    }
}

impl fmt::Display for CreateRenderPipelineError {
    fn fmt<W: fmt::Write>(&self, f: &mut fmt::Formatter<W>) -> fmt::Result {
        match self {
            Self::ColorAttachment(e) => write!(f, "{e}"),
            Self::ColorState(target, e) => write!(f, "color target {target}: {e}"),
            Self::DepthStencilState(e) => write!(f, "depth-stencil state: {e}"),
            Self::InvalidSampleCount(count) => write!(f, "{count} is no sample count"),
            Self::VertexState(e) => write!(f, "{e}"),
            Self::StripIndexFormatForNonStripTopology {
                strip_index_format,
                topology,
            } => write!(
                f,
                "strip_index_format {strip_index_format:?} is for strips, and not for {topology:?}"
            ),
            Self::ConservativeRasterizationNonFillPolygonMode => f.write_str(
                "conservative drawing is for polygons that are filled",
            ),
            Self::MissingFeatures(e) => write!(f, "{e}"),
            Self::MissingDownlevelFlags(e) => write!(f, "{e}"),
            Self::DualSourceBlendingWithMultipleColorTargets { count } => write!(
                f,
                "a second-source blend factor is for a style with one target, and not with {count}"
            ),
            Self::NoTargetSpecified => f.write_str(
                "there is nothing to draw on: no color target and no depth-stencil state",
            ),
        }
    }
}

impl Error for CreateRenderPipelineError {}
