// The texture formats: what each holds, what a color target of it costs, and what can be done with it, from one table.
ghost use Rattle.std.specs.Prelude.{◌≡◌, ◌↔◌, IsTrue};
ghost use Rattle.formats.specs.Texture.{aspects_of, cost_of, required_of, guaranteed, place_of, same_format, ColorApart, Multiple, Small, OnlyFour};
ghost use Rattle.std.specs.Cmp.Rules.{comparing};
ghost use Rattle.std.proofs.Common.{rules};
ghost use Rattle.std.specs.Cmp as Keys;

use crate::features::Features;
use crate::format_features::{TextureFormatFeatureFlags, TextureFormatFeatures};
use crate::rows::row_of;

#[derive(Clone, Copy, Debug)]
pub enum TextureFormat {
    R8Unorm,
    R8Uint,
    R8Sint,
    Rg8Unorm,
    Rg8Uint,
    Rg8Sint,
    Rgba8Uint,
    Rgba8Sint,
    Rgba8Unorm,
    Rgba8UnormSrgb,
    Bgra8Unorm,
    Bgra8UnormSrgb,
    R16Uint,
    R16Sint,
    R16Float,
    Rg16Uint,
    Rg16Sint,
    Rg16Float,
    Rgba16Uint,
    Rgba16Sint,
    Rgba16Float,
    R32Uint,
    R32Sint,
    R32Float,
    Rg32Uint,
    Rg32Sint,
    Rg32Float,
    Rgba32Uint,
    Rgba32Sint,
    Rgba32Float,
    Rgb10a2Uint,
    Rgb10a2Unorm,
    Rg11b10Ufloat,
    Rgb9e5Ufloat,
    Stencil8,
    Depth16Unorm,
    Depth24Plus,
    Depth24PlusStencil8,
    Depth32Float,
    Depth32FloatStencil8,
}

// What a texture of a format holds.
#[derive(Clone, Copy, PartialEq, Eq, Debug)]
pub struct FormatAspects {
    pub color: bool,
    pub depth: bool,
    pub stencil: bool,
}

// What a color target of a format costs, in bytes for one sample.
#[derive(Clone, Copy, PartialEq, Eq, Debug)]
pub struct TargetCost {
    pub pixel_byte_cost: u32,
    pub component_alignment: u32,
}

impl TextureFormat {
    pub const ALL: [TextureFormat; 40] = [
        TextureFormat::R8Unorm,
        TextureFormat::R8Uint,
        TextureFormat::R8Sint,
        TextureFormat::Rg8Unorm,
        TextureFormat::Rg8Uint,
        TextureFormat::Rg8Sint,
        TextureFormat::Rgba8Uint,
        TextureFormat::Rgba8Sint,
        TextureFormat::Rgba8Unorm,
        TextureFormat::Rgba8UnormSrgb,
        TextureFormat::Bgra8Unorm,
        TextureFormat::Bgra8UnormSrgb,
        TextureFormat::R16Uint,
        TextureFormat::R16Sint,
        TextureFormat::R16Float,
        TextureFormat::Rg16Uint,
        TextureFormat::Rg16Sint,
        TextureFormat::Rg16Float,
        TextureFormat::Rgba16Uint,
        TextureFormat::Rgba16Sint,
        TextureFormat::Rgba16Float,
        TextureFormat::R32Uint,
        TextureFormat::R32Sint,
        TextureFormat::R32Float,
        TextureFormat::Rg32Uint,
        TextureFormat::Rg32Sint,
        TextureFormat::Rg32Float,
        TextureFormat::Rgba32Uint,
        TextureFormat::Rgba32Sint,
        TextureFormat::Rgba32Float,
        TextureFormat::Rgb10a2Uint,
        TextureFormat::Rgb10a2Unorm,
        TextureFormat::Rg11b10Ufloat,
        TextureFormat::Rgb9e5Ufloat,
        TextureFormat::Stencil8,
        TextureFormat::Depth16Unorm,
        TextureFormat::Depth24Plus,
        TextureFormat::Depth24PlusStencil8,
        TextureFormat::Depth32Float,
        TextureFormat::Depth32FloatStencil8,
    ];

    fn place(self) -> usize
        ensures { result ≡ place_of self }
    {
        self as usize
    }

    pub fn aspects(self) -> FormatAspects
        ensures rule { result ≡ aspects_of self }
        ensures apart { ColorApart result }
    {
        row_of(self).aspects
    }

    // None where no color target has the format.
    pub fn target_cost(self) -> Option<TargetCost>
        ensures rule { result ≡ cost_of self }
        ensures multiple { Multiple result }
        ensures small { Small result }
    {
        row_of(self).cost
    }

    // The features without which there is no texture of the format.
    pub fn required_features(self) -> Features
        ensures { result ≡ required_of self }
    {
        row_of(self).required_features
    }

    // What can be done with the format on every device with these features.
    pub fn guaranteed_format_features(self, device_features: Features) -> TextureFormatFeatures
        ensures rule { result ≡ guaranteed device_features self }
        ensures four { OnlyFour result.flags }
    {
        let uses = row_of(self).uses;
        TextureFormatFeatures {
            renderable: uses.renderable.is_given(device_features),
            flags: TextureFormatFeatureFlags {
                blendable: uses.blendable.is_given(device_features),
                multisample_x2: false,
                multisample_x4: uses.multisample_x4.is_given(device_features),
                multisample_x8: false,
                multisample_x16: false,
            },
        }
    }
}

// Written out: a derived equality has no clause, and no body that a must-fail edit can turn.
impl PartialEq for TextureFormat {
    ghost eq = { λ a b. same_format a b };

    ghost laws = { Keys.partial_equiv_from_equiv (Prim.search (comparing, rules)) };

    fn eq(&self, other: &TextureFormat) -> bool
        ensures value { result ≡ same_format self.now other.now }
        ensures exactly { IsTrue result ↔ (self.now ≡ other.now) }
    {
        self.place() == other.place()
    }
}

impl Eq for TextureFormat {
    ghost laws = { Prim.search (comparing, rules) };
}

#[cfg(test)]
mod tests {
    use super::*;

    // No format is left out of the list.
    #[test]
    fn all(rt: HostRuntime) {
        for (place, format) in TextureFormat::ALL.iter().enumerate() {
            assert_eq!(rt; format.place(), place);
        }
    }
}
