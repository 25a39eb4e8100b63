// The depth-stencil state of a style: what is compared and written, and by how much depths are biased.
ghost use Rattle.std.specs.Prelude.{◌≡◌, ◌↔◌, not, IsTrue};
ghost use Rattle.descriptor.specs.DepthStencil.{is_always, compares_by_value, is_keep, is_replace, idle, face_needs_reference, writes_nothing, depth_enabled, depth_written, stencil_enabled, needs_reference, stencil_read_only, WritesStencil, nonzero, biased, clamped};

use crate::primitive::Face;
use formats::texture::TextureFormat;

#[derive(Clone, Copy, PartialEq, Eq, Debug)]
pub enum CompareFunction {
    Never,
    Less,
    Equal,
    LessEqual,
    Greater,
    NotEqual,
    GreaterEqual,
    Always,
}

impl CompareFunction {
    fn is_always(self) -> bool
        ensures { result ≡ is_always self }
    {
        self == CompareFunction::Always
    }

    // Whether the answer depends on the two values at all.
    fn needs_ref_value(self) -> bool
        ensures { result ≡ compares_by_value self }
    {
        !matches!(self, CompareFunction::Never | CompareFunction::Always)
    }
}

#[derive(Clone, Copy, PartialEq, Eq, Debug)]
pub enum StencilOperation {
    Keep,
    Zero,
    Replace,
    Invert,
    IncrementClamp,
    DecrementClamp,
    IncrementWrap,
    DecrementWrap,
}

impl StencilOperation {
    pub fn is_keep(self) -> bool
        ensures { result ≡ is_keep self }
    {
        self == StencilOperation::Keep
    }

    fn is_replace(self) -> bool
        ensures { result ≡ is_replace self }
    {
        self == StencilOperation::Replace
    }
}

// What is done with the stencil of a pixel under one face of a primitive.
#[derive(Clone, Copy, PartialEq, Eq, Debug)]
pub struct StencilFaceState {
    pub compare: CompareFunction,
    pub fail_op: StencilOperation,
    pub depth_fail_op: StencilOperation,
    pub pass_op: StencilOperation,
}

impl StencilFaceState {
    pub const IGNORE: StencilFaceState = StencilFaceState {
        compare: CompareFunction::Always,
        fail_op: StencilOperation::Keep,
        depth_fail_op: StencilOperation::Keep,
        pass_op: StencilOperation::Keep,
    };

    // Whether no operation writes.
    fn is_read_only(&self) -> bool
        ensures { result ≡ writes_nothing self.now }
    {
        self.fail_op.is_keep() && self.depth_fail_op.is_keep() && self.pass_op.is_keep()
    }

    // Whether it neither compares nor writes.
    fn is_idle(&self) -> bool
        ensures { result ≡ idle self.now }
    {
        self.compare.is_always() && self.is_read_only()
    }

    // Whether the pass's stencil reference plays a part.
    fn needs_ref_value(&self) -> bool
        ensures { result ≡ face_needs_reference self.now }
    {
        self.compare.needs_ref_value()
            || self.fail_op.is_replace()
            || self.depth_fail_op.is_replace()
            || self.pass_op.is_replace()
    }
}

#[derive(Clone, Copy, PartialEq, Eq, Debug)]
pub struct StencilState {
    pub front: StencilFaceState,
    pub back: StencilFaceState,
    pub read_mask: u32,
    pub write_mask: u32,
}

impl StencilState {
    // Whether a face is not idle. The masks play no part.
    pub fn is_enabled(&self) -> bool
        ensures { result ≡ stencil_enabled self.now }
    {
        !self.front.is_idle() || !self.back.is_idle()
    }

    // Whether nothing is written, a face that is culled left aside.
    pub fn is_read_only(&self, cull_mode: Option<Face>) -> bool
        ensures { result ≡ stencil_read_only cull_mode self.now }
    {
        if self.write_mask == 0 {
            return true;
        }
        let front_ro = cull_mode == Some(Face::Front) || self.front.is_read_only();
        let back_ro = cull_mode == Some(Face::Back) || self.back.is_read_only();
        front_ro && back_ro
    }

    // Whether the pass's stencil reference plays a part at a face.
    pub fn needs_ref_value(&self) -> bool
        ensures { result ≡ needs_reference self.now }
    {
        self.front.needs_ref_value() || self.back.needs_ref_value()
    }
}

// By comparison alone: a NaN is not equal to 0.0, and minus zero is.
fn is_nonzero(x: f32) -> bool
    ensures { result ≡ nonzero x }
{
    x != 0.0
}

// What is added to the depths of a style.
#[derive(Clone, Copy)]
pub struct DepthBiasState {
    pub constant: i32,
    pub slope_scale: f32,
    pub clamp: f32,
}

impl DepthBiasState {
    // Whether a number of the three is not 0.
    pub fn is_enabled(&self) -> bool
        ensures { result ≡ biased self.now }
    {
        self.constant != 0 || is_nonzero(self.slope_scale) || is_nonzero(self.clamp)
    }

    // Whether the clamp is not 0.
    pub fn is_clamped(&self) -> bool
        ensures { result ≡ clamped self.now }
    {
        is_nonzero(self.clamp)
    }
}

#[derive(Clone, Copy)]
pub struct DepthStencilState {
    pub format: TextureFormat,
    // A format without depth may leave these two out.
    pub depth_write_enabled: Option<bool>,
    pub depth_compare: Option<CompareFunction>,
    pub stencil: StencilState,
    pub bias: DepthBiasState,
}

impl DepthStencilState {
    // Whether depths are not written.
    pub fn is_depth_read_only(&self) -> bool
        ensures { result ≡ not (depth_written self.now) }
    {
        self.depth_write_enabled != Some(true)
    }

    // Whether depths are written, or compared by other than Always.
    pub fn is_depth_enabled(&self) -> bool
        ensures { result ≡ depth_enabled self.now }
    {
        self.depth_compare
            .is_some_and(|compare| !compare.is_always())
            || !self.is_depth_read_only()
    }

    // Whether the stencil is not written, a face that is culled left aside.
    pub fn is_stencil_read_only(&self, cull_mode: Option<Face>) -> bool
        ensures value { result ≡ stencil_read_only cull_mode self.now.stencil }
        ensures exactly { IsTrue (not result) ↔ WritesStencil cull_mode self.now.stencil }
    {
        self.stencil.is_read_only(cull_mode)
    }
}
