// How the preview writes what it knows of a format.
use device::MissingFeatures;
use faults::Fault;
use formats::format_features::TextureFormatFeatures;
use formats::texture::{FormatAspects, TargetCost};
use std::fmt;

#[derive(Clone, Copy)]
pub struct Aspects(pub FormatAspects);

impl fmt::Display for Aspects {
    fn fmt<W: fmt::Write>(&self, f: &mut fmt::Formatter<W>) -> fmt::Result {
        if self.0.color {
            f.write_str("color")?;
        }
        if self.0.depth {
            f.write_str("depth")?;
        }
        if self.0.depth && self.0.stencil {
            f.write_str(", ")?;
        }
        if self.0.stencil {
            f.write_str("stencil")?;
        }
        Ok(())
    }
}

#[derive(Clone, Copy)]
pub struct Cost(pub Option<TargetCost>);

impl fmt::Display for Cost {
    fn fmt<W: fmt::Write>(&self, f: &mut fmt::Formatter<W>) -> fmt::Result {
        let Some(cost) = self.0 else {
            return f.write_str("none");
        };
        write!(
            f,
            "{}, aligned to {}",
            cost.pixel_byte_cost, cost.component_alignment
        )
    }
}

#[derive(Clone, Copy)]
pub struct Uses(pub Result<TextureFormatFeatures, MissingFeatures>);

impl fmt::Display for Uses {
    fn fmt<W: fmt::Write>(&self, f: &mut fmt::Formatter<W>) -> fmt::Result {
        let features = match self.0 {
            Ok(features) => features,
            Err(fault) => return write!(f, "fault {}, lacks {}", fault.number(), fault.0),
        };
        if !features.renderable {
            return f.write_str("not renderable");
        }
        f.write_str("renderable")?;
        if features.flags.blendable {
            f.write_str(", blendable")?;
        }
        for count in [2, 4, 8, 16] {
            if features.flags.sample_count_supported(count) {
                write!(f, ", {count} samples")?;
            }
        }
        Ok(())
    }
}
