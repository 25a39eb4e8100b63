// The targets one by one: the write mask, what can be done with the format, the sample count, and the blending.
ghost use Rattle.std.specs.Prelude.{◌≡◌};
ghost use Rattle.faults.specs.Faults.{answer, first_of};
ghost use Rattle.targets.specs.Order.{mask_verdict, uses_verdicts, count_fault, state_verdicts, target_verdicts};
ghost use Rattle.targets.specs.Rules.{TargetsJudged};

use crate::blending::Target;
use crate::fault::fault_at;
use adapter::samples::require_sample_count;
use adapter::{Adapter, describe_format_features};
use descriptor::blend::ColorTargetState;
use device::Device;
use errors::color::ColorStateError;
use errors::create::CreateRenderPipelineError;
use faults::refuse_if;
use formats::format_features::TextureFormatFeatures;
use formats::texture::TextureFormat;

impl Target<'_> {
    fn check_write_mask(&self, state: &ColorTargetState) -> Result<(), CreateRenderPipelineError>
        ensures { result ≡ answer (mask_verdict self.now.index state.now) tt }
    {
        refuse_if(
            state.write_mask.contains_unknown_bits(),
            fault_at(
                self.index,
                ColorStateError::InvalidWriteMask(state.write_mask),
            ),
        )
    }

    // What is asked of the format: that it can be drawn on, be blended if it is, and has color.
    fn check_uses(
        &self,
        state: &ColorTargetState,
        features: &TextureFormatFeatures,
    ) -> Result<(), CreateRenderPipelineError>
        ensures { result ≡ answer (first_of (uses_verdicts self.now.index state.now features.now)) tt }
    {
        let format = state.format;
        refuse_if(
            !features.renderable,
            fault_at(self.index, ColorStateError::FormatNotRenderable(format)),
        )?;
        refuse_if(
            state.blend.is_some() && !features.flags.blendable,
            fault_at(self.index, ColorStateError::FormatNotBlendable(format)),
        )?;
        refuse_if(
            !format.aspects().color,
            fault_at(self.index, ColorStateError::FormatNotColor(format)),
        )
    }
}

// What all targets of a style are judged by.
#[derive(Drop)]
struct Judge<'a, A> {
    device: &'a Device,
    adapter: &'a A,
    count: u32,
}

impl<'a, A: Adapter> Judge<'a, A> {
    // The sample count is one that the format can have, by `features`.
    fn check_sample_count(
        &self,
        index: u64,
        format: TextureFormat,
        features: &TextureFormatFeatures,
    ) -> Result<(), CreateRenderPipelineError>
        ensures { result ≡ answer (count_fault self.now.device.now (A.Adapter.answers self.now.adapter.now) self.now.count index format features.now.flags) tt }
    {
        require_sample_count(self.device, self.adapter, self.count, format, features).map_err(
            |e| fault_at(index, ColorStateError::InvalidSampleCount(e)),
        )
    }

    fn check_state(
        &self,
        index: u64,
        state: &ColorTargetState,
    ) -> Result<(), CreateRenderPipelineError>
        ensures { result ≡ answer (first_of (state_verdicts self.now.device.now (A.Adapter.answers self.now.adapter.now) self.now.count index state.now)) tt }
    {
        let target = Target {
            device: self.device,
            index,
        };
        target.check_write_mask(state)?;
        let features = describe_format_features(self.device, self.adapter, state.format)?;
        target.check_uses(state, &features)?;
        self.check_sample_count(index, state.format, &features)?;
        target.check_blend(state.blend)
    }

    // An index and what stands there, as `enumerate` gives them: a struct of the two would be no plainer.
    fn check_target(
        &self,
        index: u64,
        state: Option<ColorTargetState>,
    ) -> Result<(), CreateRenderPipelineError>
        ensures { result ≡ answer (first_of (target_verdicts self.now.device.now (A.Adapter.answers self.now.adapter.now) self.now.count index state)) tt }
    {
        match state {
            Some(s) => self.check_state(index, &s),
            None => Ok(()),
        }
    }
}

// Target by target, each that is not empty by all its rules, in order.
pub fn check_color_states<A: Adapter>(
    device: &Device,
    adapter: &A,
    count: u32,
    targets: &[Option<ColorTargetState>],
) -> Result<(), CreateRenderPipelineError>
    ensures { TargetsJudged device.now (A.Adapter.answers adapter.now) count targets.now result }
{
    let judge = Judge {
        device,
        adapter,
        count,
    };
    for (i, target) in targets.iter().enumerate() {
        judge.check_target(i as u64, *target)?;
    }
    Ok(())
}
