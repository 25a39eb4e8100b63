// What the targets of a style ask of each other.
ghost use Rattle.std.specs.Prelude.{◌≡◌};
ghost use Rattle.targets.specs.Order.{like_first, alike_targets, reads_second_at, reads_second_any};
ghost use Rattle.targets.specs.Rules.{IndependentJudged, DualJudged};

use descriptor::blend::ColorTargetState;
use device::Device;
use errors::create::CreateRenderPipelineError;
use faults::refuse_if;
use formats::features::DownlevelFlags;

// Whether a target, if it is not empty, writes like the first that is not.
fn writes_like_first(first: Option<ColorTargetState>, target: Option<ColorTargetState>) -> bool
    ensures { result ≡ like_first first target }
{
    // A match of both at once: a closure in a closure would be no plainer.
    match (first, target) {
        (Some(f), Some(t)) => f.writes_like(&t),
        _ => true,
    }
}

// Whether all targets that are not empty write the same channels, blended in the same way.
fn write_alike(targets: &[Option<ColorTargetState>]) -> bool
    ensures { result ≡ alike_targets targets.now }
{
    let Some(first) = targets.iter().find(|target| target.is_some()) else {
        return true;
    };
    targets
        .iter()
        .all(|target| writes_like_first(*first, *target))
}

// Targets that write or blend each in its own way are for a device with that flag.
pub fn check_independent_blend(
    device: &Device,
    targets: &[Option<ColorTargetState>],
) -> Result<(), CreateRenderPipelineError>
    ensures { IndependentJudged device.now targets.now result }
{
    if !write_alike(targets) {
        device.require_downlevel_flags(DownlevelFlags::INDEPENDENT_BLEND)?;
    }
    Ok(())
}

fn reads_second_source(target: Option<ColorTargetState>) -> bool
    ensures { result ≡ reads_second_at target }
{
    let blend = target.and_then(|t| t.blend);
    blend.is_some_and(|b| b.color.ref_second_blend_source() || b.alpha.ref_second_blend_source())
}

// Whether the blending of a target reads the second color.
fn read_second_source(targets: &[Option<ColorTargetState>]) -> bool
    ensures { result ≡ reads_second_any targets.now }
{
    targets.iter().any(|target| reads_second_source(*target))
}

// The second color is for a style with one target: no other may stand beside it, not even an empty one.
pub fn check_dual_source_blending(
    targets: &[Option<ColorTargetState>],
) -> Result<(), CreateRenderPipelineError>
    ensures { DualJudged targets.now result }
{
    let count = targets.len() as u64;
    refuse_if(
        count > 1 && read_second_source(targets),
        CreateRenderPipelineError::DualSourceBlendingWithMultipleColorTargets { count },
    )
}
