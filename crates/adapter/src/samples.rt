// The sample counts that a format can have on a device, and the refusal of a count that it cannot.
ghost use Rattle.std.specs.Prelude.{◌≡◌};
ghost use Rattle.faults.specs.Faults.{answer};
ghost use Rattle.adapter.specs.Counts.{counts_fault};

use crate::Adapter;
use device::Device;
use formats::format_features::TextureFormatFeatures;
use formats::texture::TextureFormat;
use std::error::Error;
use std::fmt;

// The sums are those of the counts that WebGPU guarantees for the format, and of those that the adapter has.
#[derive(Clone, Copy, PartialEq, Eq, Debug)]
pub struct UnsupportedSampleCount {
    pub count: u32,
    pub format: TextureFormat,
    pub guaranteed: u32,
    pub supported: u32,
}

impl fmt::Display for UnsupportedSampleCount {
    fn fmt<W: fmt::Write>(&self, f: &mut fmt::Formatter<W>) -> fmt::Result {
        write!(
            f,
            "{:?} cannot have {} samples; the counts that are guaranteed sum up to {}, those of the adapter to {}",
            self.format, self.count, self.guaranteed, self.supported
        )
    }
}

impl Error for UnsupportedSampleCount {}

// A count above one is one that the format can have, by `features`; else the refusal tells which it can have.
// In place: as a call it makes the judging of an accepted depth-stencil state take half as long again.
#[inline(always)]
pub fn require_sample_count<A: Adapter>(
    device: &Device,
    adapter: &A,
    count: u32,
    format: TextureFormat,
    features: &TextureFormatFeatures,
) -> Result<(), UnsupportedSampleCount>
    ensures { result ≡ answer (counts_fault device.now (A.Adapter.answers adapter.now) count format features.now.flags) tt }
{
    // No `refuse_if`: the adapter is asked only where there is a refusal.
    if count > 1 && !features.flags.sample_count_supported(count) {
        return Err(UnsupportedSampleCount {
            count,
            format,
            guaranteed: format
                .guaranteed_format_features(device.features)
                .flags
                .supported_sample_counts(),
            supported: adapter
                .get_texture_format_features(format)
                .flags
                .supported_sample_counts(),
        });
    }
    Ok(())
}
