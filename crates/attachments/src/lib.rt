// What a pipeline or a pass draws on: the formats of its attachments, and what the color ones cost.
#![tactic(auto)]

pub mod bytes;
pub mod error;

use formats::texture::TextureFormat;

// The formats of the attachments. A place past the last target is empty: an array and no Vec, since nothing here may allocate.
#[derive(Clone, Copy, PartialEq, Eq, Debug)]
pub struct AttachmentData {
    pub colors: [Option<TextureFormat>; 8],
    pub depth_stencil: Option<TextureFormat>,
}

// What a pipeline and a pass have to agree in.
#[derive(Clone, Copy, PartialEq, Eq, Debug)]
pub struct RenderPassContext {
    pub attachments: AttachmentData,
    pub sample_count: u32,
    // A number and no Option: a mask without a bit is none.
    pub multiview_mask: u32,
}
