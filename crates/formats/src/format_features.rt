// What can be done with textures of a format: what the table grants, and what an adapter answers.
ghost use Rattle.std.specs.Prelude.{◌≡◌, ◌≤◌, if◌then◌else◌};
ghost use Rattle.formats.specs.Samples.{supports, sum_of_counts};

// One sample is always supported, and has no flag.
#[derive(Clone, Copy, PartialEq, Eq, Debug)]
pub struct TextureFormatFeatureFlags {
    pub blendable: bool,
    pub multisample_x2: bool,
    pub multisample_x4: bool,
    pub multisample_x8: bool,
    pub multisample_x16: bool,
}

#[derive(Clone, Copy, PartialEq, Eq, Debug)]
pub struct TextureFormatFeatures {
    pub renderable: bool,
    pub flags: TextureFormatFeatureFlags,
}

impl TextureFormatFeatureFlags {
    // Whether a texture can have so many samples.
    pub fn sample_count_supported(self, count: u32) -> bool
        ensures { result ≡ supports self count }
    {
        // A match: each count has a flag of its own, and `matches!` would be no plainer.
        match count {
            1 => true,
            2 => self.multisample_x2,
            4 => self.multisample_x4,
            8 => self.multisample_x8,
            16 => self.multisample_x16,
            _ => false,
        }
    }

    // The count if it is supported, else 0.
    fn count_or_zero(self, count: u32) -> u32
        ensures value { result ≡ (if supports self count then count else 0) }
        ensures most { result ≤ count }
    {
        if self.sample_count_supported(count) {
            count
        } else {
            0
        }
    }

    // The sum of the counts that are supported, 1 among them. No chain over a list of them, which takes nearly four times as long.
    pub fn supported_sample_counts(self) -> u32
        ensures { result ≡ sum_of_counts self }
    {
        self.count_or_zero(1)
            + self.count_or_zero(2)
            + self.count_or_zero(4)
            + self.count_or_zero(8)
            + self.count_or_zero(16)
    }
}

#[cfg(test)]
mod tests {
    use super::*;

    const TWO_AND_EIGHT: TextureFormatFeatureFlags = TextureFormatFeatureFlags {
        blendable: true,
        multisample_x2: true,
        multisample_x4: false,
        multisample_x8: true,
        multisample_x16: false,
    };

    #[test]
    fn counts(rt: HostRuntime) {
        assert!(rt; TWO_AND_EIGHT.sample_count_supported(1));
        assert!(rt; TWO_AND_EIGHT.sample_count_supported(8));
        assert!(rt; !TWO_AND_EIGHT.sample_count_supported(0));
        assert!(rt; !TWO_AND_EIGHT.sample_count_supported(3));
        assert!(rt; !TWO_AND_EIGHT.sample_count_supported(4));
        assert!(rt; !TWO_AND_EIGHT.sample_count_supported(32));
        assert_eq!(rt; TWO_AND_EIGHT.supported_sample_counts(), 11);
    }
}
