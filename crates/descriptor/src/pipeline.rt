// The whole of a style.
use crate::blend::ColorTargetState;
use crate::depth_stencil::DepthStencilState;
use crate::primitive::PrimitiveState;
use crate::vertex::VertexState;

#[derive(Clone, Copy)]
pub struct MultisampleState {
    // The samples of a pixel.
    pub count: u32,
    // Which of them are written.
    pub mask: u64,
    pub alpha_to_coverage_enabled: bool,
}

#[derive(Clone, Copy)]
pub struct RenderPipelineDescriptor<'a> {
    pub vertex: VertexState<'a>,
    pub primitive: PrimitiveState,
    pub depth_stencil: Option<DepthStencilState>,
    pub multisample: MultisampleState,
    // A style without a fragment stage has none. A place of the list may be empty.
    pub targets: &'a [Option<ColorTargetState>],
    // The views that are drawn at once, a bit each. A number and no Option: a mask without a bit draws no view, and is none.
    pub multiview_mask: u32,
}
