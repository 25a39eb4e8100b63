// What can be done with a texture format on a machine: adapters, by what they answer of each format, and the answer that a device uses.
#![tactic(auto)]

ghost use Rattle.std.specs.Prelude.{◌≡◌};
ghost use Rattle.formats.specs.declared.texture.TextureFormat.{TextureFormat};
ghost use Rattle.formats.specs.declared.format_features.TextureFormatFeatures.{TextureFormatFeatures};
ghost use Rattle.adapter.specs.Used.{answer_used, asks_adapter, SameForSameMap};

use device::{Device, MissingFeatures};
use formats::features::{DownlevelFlags, Features};
use formats::flags::Flags;
use formats::format_features::TextureFormatFeatures;
use formats::texture::TextureFormat;

pub mod guaranteed;
pub mod listed;
pub mod samples;

// An adapter is its map from formats to answers. Asking changes nothing.
pub trait Adapter {
    ghost answers: { Self → TextureFormat → TextureFormatFeatures };

    fn get_texture_format_features(&self, format: TextureFormat) -> TextureFormatFeatures
        ensures { result ≡ answers self.now format };
}

// Whether the device relies on its adapter, and not on what WebGPU guarantees.
fn asks_adapter(device: &Device) -> bool
    ensures { result ≡ asks_adapter device.now }
{
    device
        .features
        .contains(Features::TEXTURE_ADAPTER_SPECIFIC_FORMAT_FEATURES)
        || !device
            .downlevel
            .contains(DownlevelFlags::WEBGPU_TEXTURE_FORMAT_SUPPORT)
}

// What the device can do with the format, if it has the features that the format itself needs.
pub fn describe_format_features<A: Adapter>(
    device: &Device,
    adapter: &A,
    format: TextureFormat,
) -> Result<TextureFormatFeatures, MissingFeatures>
    ensures value { result ≡ answer_used device.now (A.Adapter.answers adapter.now) format }
    ensures law { SameForSameMap device.now (A.Adapter.answers adapter.now) format result }
{
    device.require_features(format.required_features())?;
    if asks_adapter(device) {
        Ok(adapter.get_texture_format_features(format))
    } else {
        Ok(format.guaranteed_format_features(device.features))
    }
}
