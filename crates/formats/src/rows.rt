// The table of the texture formats.
ghost use Rattle.std.specs.Prelude.{◌≡◌};
ghost use Rattle.formats.specs.Texture as table;

use crate::features::Features;
use crate::flags::Flags;
use crate::texture::{FormatAspects, TargetCost, TextureFormat};

// Which devices have something: none, all, or those with the features.
#[derive(Clone, Copy, PartialEq, Eq, Debug)]
pub enum Given {
    Never,
    Always,
    With(Features),
}

impl Given {
    // Whether a device with these features has it.
    pub fn is_given(self, features: Features) -> bool
        ensures { result ≡ table.given features self }
    {
        match self {
            Given::Never => false,
            Given::Always => true,
            Given::With(needed) => features.contains(needed),
        }
    }
}

// What can be done with a format. Of the counts above one, the table knows only four samples.
#[derive(Clone, Copy)]
pub struct Uses {
    pub renderable: Given,
    pub blendable: Given,
    pub multisample_x4: Given,
}

const DRAWN: Uses = Uses {
    renderable: Given::Always,
    blendable: Given::Never,
    multisample_x4: Given::Never,
};

const SAMPLED: Uses = Uses {
    renderable: Given::Always,
    blendable: Given::Never,
    multisample_x4: Given::Always,
};

const BLENDED: Uses = Uses {
    renderable: Given::Always,
    blendable: Given::Always,
    multisample_x4: Given::Always,
};

const FLOAT32: Uses = Uses {
    renderable: Given::Always,
    blendable: Given::With(Features::FLOAT32_BLENDABLE),
    multisample_x4: Given::Never,
};

const FLOAT32_SAMPLED: Uses = Uses {
    renderable: Given::Always,
    blendable: Given::With(Features::FLOAT32_BLENDABLE),
    multisample_x4: Given::Always,
};

const RG11B10UFLOAT: Uses = Uses {
    renderable: Given::With(Features::RG11B10UFLOAT_RENDERABLE),
    blendable: Given::With(Features::RG11B10UFLOAT_RENDERABLE),
    multisample_x4: Given::With(Features::RG11B10UFLOAT_RENDERABLE),
};

const UNUSED: Uses = Uses {
    renderable: Given::Never,
    blendable: Given::Never,
    multisample_x4: Given::Never,
};

#[derive(Clone, Copy)]
pub struct Row {
    pub aspects: FormatAspects,
    pub cost: Option<TargetCost>,
    pub required_features: Features,
    pub uses: Uses,
}

fn colored(cost: Option<TargetCost>, uses: Uses) -> Row
    ensures { result ≡ table.colored cost uses }
{
    Row {
        aspects: FormatAspects {
            color: true,
            depth: false,
            stencil: false,
        },
        cost,
        required_features: Features::empty(),
        uses,
    }
}

fn target(pixel_byte_cost: u32, component_alignment: u32, uses: Uses) -> Row
    ensures { result ≡ table.target pixel_byte_cost component_alignment uses }
{
    let cost = TargetCost {
        pixel_byte_cost,
        component_alignment,
    };
    colored(Some(cost), uses)
}

fn depth_stencil(depth: bool, stencil: bool, required_features: Features) -> Row
    ensures { result ≡ table.depth_stencil_row depth stencil required_features }
{
    Row {
        aspects: FormatAspects {
            color: false,
            depth,
            stencil,
        },
        cost: None,
        required_features,
        uses: SAMPLED,
    }
}

// The table, with the laws that hold of every row.
pub fn row_of(format: TextureFormat) -> Row
    ensures rule { result ≡ table.row_of format }
    ensures apart { table.ColorApart result.aspects }
    ensures multiple { table.Multiple result.cost }
    ensures small { table.Small result.cost }
{
    let none = Features::empty();
    let combined = Features::DEPTH32FLOAT_STENCIL8;
    match format {
        TextureFormat::R8Unorm => target(1, 1, BLENDED),
        TextureFormat::R8Uint | TextureFormat::R8Sint => target(1, 1, SAMPLED),
        TextureFormat::Rg8Unorm => target(2, 1, BLENDED),
        TextureFormat::Rg8Uint | TextureFormat::Rg8Sint => target(2, 1, SAMPLED),
        TextureFormat::Rgba8Uint | TextureFormat::Rgba8Sint => target(4, 1, SAMPLED),
        TextureFormat::Rgba8Unorm | TextureFormat::Rgba8UnormSrgb => target(8, 1, BLENDED),
        TextureFormat::Bgra8Unorm | TextureFormat::Bgra8UnormSrgb => target(8, 1, BLENDED),
        TextureFormat::R16Uint | TextureFormat::R16Sint => target(2, 2, SAMPLED),
        TextureFormat::R16Float => target(2, 2, BLENDED),
        TextureFormat::Rg16Uint | TextureFormat::Rg16Sint => target(4, 2, SAMPLED),
        TextureFormat::Rg16Float => target(4, 2, BLENDED),
        TextureFormat::Rgba16Uint | TextureFormat::Rgba16Sint => target(8, 2, SAMPLED),
        TextureFormat::Rgba16Float => target(8, 2, BLENDED),
        TextureFormat::R32Uint | TextureFormat::R32Sint => target(4, 4, DRAWN),
        TextureFormat::R32Float => target(4, 4, FLOAT32_SAMPLED),
        TextureFormat::Rg32Uint | TextureFormat::Rg32Sint => target(8, 4, DRAWN),
        TextureFormat::Rg32Float => target(8, 4, FLOAT32),
        TextureFormat::Rgba32Uint | TextureFormat::Rgba32Sint => target(16, 4, DRAWN),
        TextureFormat::Rgba32Float => target(16, 4, FLOAT32),
        TextureFormat::Rgb10a2Uint => target(8, 4, SAMPLED),
        TextureFormat::Rgb10a2Unorm => target(8, 4, BLENDED),
        TextureFormat::Rg11b10Ufloat => target(8, 4, RG11B10UFLOAT),
        TextureFormat::Rgb9e5Ufloat => colored(None, UNUSED),
        TextureFormat::Stencil8 => depth_stencil(false, true, none),
        TextureFormat::Depth16Unorm | TextureFormat::Depth24Plus => depth_stencil(
            true, false, none,
        ),
        TextureFormat::Depth24PlusStencil8 => depth_stencil(true, true, none),
        TextureFormat::Depth32Float => depth_stencil(true, false, none),
        TextureFormat::Depth32FloatStencil8 => depth_stencil(true, true, combined),
    }
}
