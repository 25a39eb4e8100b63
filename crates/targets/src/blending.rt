// The blending of one target: color before alpha, and of each the source factor before the destination's.
ghost use Rattle.std.specs.Prelude.{◌≡◌};
ghost use Rattle.faults.specs.Faults.{answer, first_of};
ghost use Rattle.targets.specs.Order.{second_verdicts, min_max_verdict, factor_verdicts, component_verdicts, blend_verdicts};

use crate::fault::fault_at;
use descriptor::blend::{BlendComponent, BlendFactor, BlendOperation, BlendState};
use device::Device;
use errors::color::ColorStateError;
use errors::create::CreateRenderPipelineError;
use faults::refuse_if;
use formats::features::Features;

// A target by its index, on the device that it is for.
#[derive(Clone, Copy)]
pub(crate) struct Target<'a> {
    pub device: &'a Device,
    pub index: u64,
}

impl Target<'_> {
    // A factor that reads the second color is for a device with that feature, and for target 0.
    fn check_second_source(&self, factor: BlendFactor) -> Result<(), CreateRenderPipelineError>
        ensures { result ≡ answer (first_of (second_verdicts self.now.device.now self.now.index factor)) tt }
    {
        if !factor.ref_second_blend_source() {
            return Ok(());
        }
        self.device
            .require_features(Features::DUAL_SOURCE_BLENDING)?;
        refuse_if(
            self.index != 0,
            fault_at(
                self.index,
                ColorStateError::BlendFactorOnUnsupportedTarget {
                    factor,
                    target: self.index,
                },
            ),
        )
    }

    // Min and Max take no factor but One.
    fn check_min_max(
        &self,
        operation: BlendOperation,
        factor: BlendFactor,
    ) -> Result<(), CreateRenderPipelineError>
        ensures { result ≡ answer (min_max_verdict self.now.index operation factor) tt }
    {
        refuse_if(
            operation.is_min_max() && !factor.is_one(),
            fault_at(
                self.index,
                ColorStateError::InvalidMinMaxBlendFactor {
                    factor,
                    target: self.index,
                },
            ),
        )
    }

    #[tactic(auto, using(faults::proofs::Verdicts::verdict_cases))]
    fn check_factor(
        &self,
        operation: BlendOperation,
        factor: BlendFactor,
    ) -> Result<(), CreateRenderPipelineError>
        ensures { result ≡ answer (first_of (factor_verdicts self.now.device.now self.now.index operation factor)) tt }
    {
        self.check_second_source(factor)?;
        self.check_min_max(operation, factor)
    }

    #[tactic(auto, using(faults::proofs::Verdicts::verdict_cases))]
    fn check_component(&self, component: &BlendComponent) -> Result<(), CreateRenderPipelineError>
        ensures { result ≡ answer (first_of (component_verdicts self.now.device.now self.now.index component.now)) tt }
    {
        self.check_factor(component.operation, component.src_factor)?;
        self.check_factor(component.operation, component.dst_factor)
    }

    pub(crate) fn check_blend(
        &self,
        blend: Option<BlendState>,
    ) -> Result<(), CreateRenderPipelineError>
        ensures { result ≡ answer (first_of (blend_verdicts self.now.device.now self.now.index blend)) tt }
    {
        let Some(b) = blend else {
            return Ok(());
        };
        self.check_component(&b.color)?;
        self.check_component(&b.alpha)
    }
}
