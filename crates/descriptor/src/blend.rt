// A color target of a style: its format, which channels are written, and how a color is blended with the one that is there.
ghost use Rattle.std.specs.Prelude.{◌≡◌, ◌↔◌, IsTrue, refl};
ghost use Rattle.descriptor.specs.Blend.{factor_place, operation_place, same_factor, same_operation, second_source, is_min_max, is_one, is_constant, uses_constant, reads_second, unknown_bits, writes_like, Alike};
ghost use Rattle.std.specs.Cmp.{partial_equiv_from_equiv};
ghost use Rattle.descriptor.specs.BlendLaws.{same_factor_equiv, same_operation_equiv, same_component_equiv, same_state_equiv};

use formats::flags::Flags;
use formats::texture::TextureFormat;

#[derive(Clone, Copy, Debug)]
pub enum BlendFactor {
    Zero,
    One,
    Src,
    OneMinusSrc,
    SrcAlpha,
    OneMinusSrcAlpha,
    Dst,
    OneMinusDst,
    DstAlpha,
    OneMinusDstAlpha,
    SrcAlphaSaturated,
    Constant,
    OneMinusConstant,
    Src1,
    OneMinusSrc1,
    Src1Alpha,
    OneMinusSrc1Alpha,
}

impl BlendFactor {
    fn place(self) -> usize
        ensures { result ≡ factor_place self }
    {
        self as usize
    }

    // Whether it reads the second color that a shader gives.
    pub fn ref_second_blend_source(self) -> bool
        ensures { result ≡ second_source self }
    {
        matches!(
            self,
            BlendFactor::Src1
                | BlendFactor::OneMinusSrc1
                | BlendFactor::Src1Alpha
                | BlendFactor::OneMinusSrc1Alpha
        )
    }

    pub fn is_one(self) -> bool
        ensures { result ≡ is_one self }
    {
        self == BlendFactor::One
    }

    // Whether it is the pass's blend constant, or what is left of one.
    fn is_constant(self) -> bool
        ensures { result ≡ is_constant self }
    {
        matches!(self, BlendFactor::Constant | BlendFactor::OneMinusConstant)
    }
}

// Written out, as that of operations: by it callers know factors and operations by their places.
impl PartialEq for BlendFactor {
    ghost eq = { λ a b. same_factor a b };

    ghost laws = { partial_equiv_from_equiv same_factor_equiv };

    fn eq(&self, other: &BlendFactor) -> bool {
        self.place() == other.place()
    }
}

impl Eq for BlendFactor {
    ghost laws = { same_factor_equiv };
}

#[derive(Clone, Copy, Debug)]
pub enum BlendOperation {
    Add,
    Subtract,
    ReverseSubtract,
    Min,
    Max,
}

impl BlendOperation {
    fn place(self) -> usize
        ensures { result ≡ operation_place self }
    {
        self as usize
    }

    pub fn is_min_max(self) -> bool
        ensures { result ≡ is_min_max self }
    {
        matches!(self, BlendOperation::Min | BlendOperation::Max)
    }
}

impl PartialEq for BlendOperation {
    ghost eq = { λ a b. same_operation a b };

    ghost laws = { partial_equiv_from_equiv same_operation_equiv };

    fn eq(&self, other: &BlendOperation) -> bool {
        self.place() == other.place()
    }
}

impl Eq for BlendOperation {
    ghost laws = { same_operation_equiv };
}

#[derive(Clone, Copy, PartialEq, Eq, Debug)]
pub struct BlendComponent {
    pub src_factor: BlendFactor,
    pub dst_factor: BlendFactor,
    pub operation: BlendOperation,
}

impl BlendComponent {
    // Whether a factor is the pass's blend constant, or what is left of one.
    pub fn uses_constant(&self) -> bool
        ensures { result ≡ uses_constant self.now }
    {
        self.src_factor.is_constant() || self.dst_factor.is_constant()
    }

    // Whether a factor reads the second color that a shader gives.
    pub fn ref_second_blend_source(&self) -> bool
        ensures { result ≡ reads_second self.now }
    {
        self.src_factor.ref_second_blend_source() || self.dst_factor.ref_second_blend_source()
    }
}

#[derived]
impl PartialEq for BlendComponent {
    ghost laws = { partial_equiv_from_equiv same_component_equiv };
}

#[derived]
impl Eq for BlendComponent {
    ghost laws = { same_component_equiv };
}

#[derive(Clone, Copy, PartialEq, Eq, Debug)]
pub struct BlendState {
    pub color: BlendComponent,
    pub alpha: BlendComponent,
}

#[derived]
impl PartialEq for BlendState {
    ghost laws = { partial_equiv_from_equiv same_state_equiv };
}

#[derived]
impl Eq for BlendState {
    ghost laws = { same_state_equiv };
}

// The channels that a target writes, a bit each. A struct of its own, as `Features` is.
#[derive(Clone, Copy, PartialEq, Eq, Debug)]
pub struct ColorWrites {
    bits: u32,
}

impl ColorWrites {
    pub const RED: ColorWrites = ColorWrites { bits: 1 << 0 };

    pub const GREEN: ColorWrites = ColorWrites { bits: 1 << 1 };

    pub const BLUE: ColorWrites = ColorWrites { bits: 1 << 2 };

    pub const ALPHA: ColorWrites = ColorWrites { bits: 1 << 3 };

    pub const ALL: ColorWrites = ColorWrites { bits: 15 };

    // Whether a bit is set that is no channel's.
    pub fn contains_unknown_bits(self) -> bool
        ensures { result ≡ unknown_bits self }
    {
        self.bits > Self::ALL.bits
    }
}

impl Flags for ColorWrites {
    ghost word = { λ s. s.bits };

    ghost of_word = { λ n. record { bits = n } };

    ghost word_kept = { λ n. refl };

    ghost word_alone = { λ s. refl };

    fn bits(self) -> u32 {
        self.bits
    }

    fn from_bits_retain(bits: u32) -> ColorWrites {
        ColorWrites { bits }
    }
}

#[derive(Clone, Copy, PartialEq, Eq, Debug)]
pub struct ColorTargetState {
    pub format: TextureFormat,
    pub blend: Option<BlendState>,
    pub write_mask: ColorWrites,
}

impl ColorTargetState {
    // Whether the two write the same channels, blended in the same way.
    pub fn writes_like(&self, other: &ColorTargetState) -> bool
        ensures value { result ≡ writes_like self.now other.now }
        ensures exactly { IsTrue result ↔ Alike self.now other.now }
    {
        self.write_mask == other.write_mask && self.blend == other.blend
    }
}
