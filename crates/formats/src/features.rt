// What a device can do beyond the least: a set of features and a set of downlevel flags.
ghost use Rattle.std.specs.Prelude.{refl};

use crate::flags::{Flags, NamedFlags};
use std::fmt;

// The names of the flags of a set that are in the list, with a bar between two.
fn write_names<S: Flags, W: fmt::Write>(
    flags: S,
    named: &[(S, &str)],
    f: &mut fmt::Formatter<W>,
) -> fmt::Result {
    let held = named.iter().filter(|(flag, _)| flags.contains(*flag));
    for (i, (_, name)) in held.enumerate() {
        if i > 0 {
            f.write_str(" | ")?;
        }
        f.write_str(name)?;
    }
    Ok(())
}

// A struct of its own, and none with a type parameter: `Flags` says why.
#[derive(Clone, Copy, PartialEq, Eq, Debug)]
pub struct Features {
    bits: u32,
}

impl Features {
    pub const DEPTH_CLIP_CONTROL: Features = Features { bits: 1 << 0 };

    pub const POLYGON_MODE_LINE: Features = Features { bits: 1 << 1 };

    pub const POLYGON_MODE_POINT: Features = Features { bits: 1 << 2 };

    pub const CONSERVATIVE_RASTERIZATION: Features = Features { bits: 1 << 3 };

    pub const VERTEX_ATTRIBUTE_64BIT: Features = Features { bits: 1 << 4 };

    pub const DUAL_SOURCE_BLENDING: Features = Features { bits: 1 << 5 };

    pub const FLOAT32_BLENDABLE: Features = Features { bits: 1 << 6 };

    pub const RG11B10UFLOAT_RENDERABLE: Features = Features { bits: 1 << 7 };

    pub const DEPTH32FLOAT_STENCIL8: Features = Features { bits: 1 << 8 };

    pub const TEXTURE_ADAPTER_SPECIFIC_FORMAT_FEATURES: Features = Features { bits: 1 << 9 };

    pub const MULTIVIEW: Features = Features { bits: 1 << 10 };

    pub const SELECTIVE_MULTIVIEW: Features = Features { bits: 1 << 11 };
}

// The features that have a name, in the order of their bits.
const NAMED: [(Features, &str); 12] = [
    (Features::DEPTH_CLIP_CONTROL, "DEPTH_CLIP_CONTROL"),
    (Features::POLYGON_MODE_LINE, "POLYGON_MODE_LINE"),
    (Features::POLYGON_MODE_POINT, "POLYGON_MODE_POINT"),
    (
        Features::CONSERVATIVE_RASTERIZATION,
        "CONSERVATIVE_RASTERIZATION",
    ),
    (Features::VERTEX_ATTRIBUTE_64BIT, "VERTEX_ATTRIBUTE_64BIT"),
    (Features::DUAL_SOURCE_BLENDING, "DUAL_SOURCE_BLENDING"),
    (Features::FLOAT32_BLENDABLE, "FLOAT32_BLENDABLE"),
    (
        Features::RG11B10UFLOAT_RENDERABLE,
        "RG11B10UFLOAT_RENDERABLE",
    ),
    (Features::DEPTH32FLOAT_STENCIL8, "DEPTH32FLOAT_STENCIL8"),
    (
        Features::TEXTURE_ADAPTER_SPECIFIC_FORMAT_FEATURES,
        "TEXTURE_ADAPTER_SPECIFIC_FORMAT_FEATURES",
    ),
    (Features::MULTIVIEW, "MULTIVIEW"),
    (Features::SELECTIVE_MULTIVIEW, "SELECTIVE_MULTIVIEW"),
];

impl Flags for Features {
    ghost word = { λ s. s.bits };

    ghost of_word = { λ n. record { bits = n } };

    ghost word_kept = { λ n. refl };

    ghost word_alone = { λ s. refl };

    fn bits(self) -> u32 {
        self.bits
    }

    fn from_bits_retain(bits: u32) -> Features {
        Features { bits }
    }
}

impl NamedFlags for Features {
    const KIND: &'static str = "feature";
}

impl fmt::Display for Features {
    fn fmt<W: fmt::Write>(&self, f: &mut fmt::Formatter<W>) -> fmt::Result {
        write_names(*self, &NAMED, f)
    }
}

// A struct of its own, as `Features` is.
#[derive(Clone, Copy, PartialEq, Eq, Debug)]
pub struct DownlevelFlags {
    bits: u32,
}

impl DownlevelFlags {
    pub const INDEPENDENT_BLEND: DownlevelFlags = DownlevelFlags { bits: 1 << 0 };

    pub const DEPTH_BIAS_CLAMP: DownlevelFlags = DownlevelFlags { bits: 1 << 1 };

    pub const WEBGPU_TEXTURE_FORMAT_SUPPORT: DownlevelFlags = DownlevelFlags { bits: 1 << 2 };

    pub const ALL: DownlevelFlags = DownlevelFlags { bits: 7 };
}

// The flags that have a name, in the order of their bits.
const NAMED_FLAGS: [(DownlevelFlags, &str); 3] = [
    (DownlevelFlags::INDEPENDENT_BLEND, "INDEPENDENT_BLEND"),
    (DownlevelFlags::DEPTH_BIAS_CLAMP, "DEPTH_BIAS_CLAMP"),
    (
        DownlevelFlags::WEBGPU_TEXTURE_FORMAT_SUPPORT,
        "WEBGPU_TEXTURE_FORMAT_SUPPORT",
    ),
];

impl Flags for DownlevelFlags {
    ghost word = { λ s. s.bits };

    ghost of_word = { λ n. record { bits = n } };

    ghost word_kept = { λ n. refl };

    ghost word_alone = { λ s. refl };

    fn bits(self) -> u32 {
        self.bits
    }

    fn from_bits_retain(bits: u32) -> DownlevelFlags {
        DownlevelFlags { bits }
    }
}

impl NamedFlags for DownlevelFlags {
    const KIND: &'static str = "downlevel flag";
}

impl fmt::Display for DownlevelFlags {
    fn fmt<W: fmt::Write>(&self, f: &mut fmt::Formatter<W>) -> fmt::Result {
        write_names(*self, &NAMED_FLAGS, f)
    }
}

#[cfg(test)]
mod tests {
    use super::*;
    use std::test::Fail;

    // The place of each name.
    #[test]
    fn places(rt: HostRuntime) {
        for (place, (feature, _)) in NAMED.iter().enumerate() {
            assert!(rt; place < 12);
            assert_eq!(rt; feature.bits, 1 << place);
        }
        assert_eq!(rt; DownlevelFlags::INDEPENDENT_BLEND.bits, 1);
        assert_eq!(rt; DownlevelFlags::DEPTH_BIAS_CLAMP.bits, 2);
        assert_eq!(rt; DownlevelFlags::WEBGPU_TEXTURE_FORMAT_SUPPORT.bits, 4);
    }

    #[test]
    fn all_flags(rt: HostRuntime) {
        let all = NAMED_FLAGS.iter().fold(
            DownlevelFlags::empty(),
            |flags, (flag, _)| flags.union(*flag),
        );
        assert_eq!(rt; all, DownlevelFlags::ALL);
    }

    #[test]
    fn names(rt: HostRuntime) -> Result<(), Fail> {
        let both = Features::from_bits_retain(0x8000_0c00);
        assert_eq!(rt;
            both.to_string(rt.alloc())?.as_str(),
            "MULTIVIEW | SELECTIVE_MULTIVIEW"
        );
        Ok(())
    }
}
