// The adapter that can do what WebGPU guarantees, and no more.
ghost use Rattle.formats.specs.Texture.{guaranteed};

use crate::Adapter;
use formats::features::Features;
use formats::format_features::TextureFormatFeatures;
use formats::texture::TextureFormat;

#[derive(Clone, Copy)]
pub struct GuaranteedAdapter {
    pub features: Features,
}

impl Adapter for GuaranteedAdapter {
    ghost answers = { λ a. guaranteed a.features };

    fn get_texture_format_features(&self, format: TextureFormat) -> TextureFormatFeatures {
        format.guaranteed_format_features(self.features)
    }
}
