// The judging of a depth-stencil state, in the reference's order.
#![tactic(auto)]

ghost use Rattle.std.specs.Prelude.{◌≡◌};
ghost use Rattle.faults.specs.Faults.{answer, first_of};
ghost use Rattle.depth_stencil.specs.Order.{aspect_verdict, depth_verdicts, no_stencil_verdict, count_fault, clamp_verdict, topology_verdict, state_verdicts};
ghost use Rattle.depth_stencil.specs.Rules.{DepthStencilJudged};

use adapter::samples::require_sample_count;
use adapter::{Adapter, describe_format_features};
use descriptor::depth_stencil::DepthStencilState;
use descriptor::primitive::PrimitiveTopology;
use device::Device;
use errors::create::CreateRenderPipelineError;
use errors::depth_stencil::DepthStencilStateError;
use faults::refuse_if;
use formats::features::DownlevelFlags;
use formats::format_features::TextureFormatFeatures;
use formats::texture::TextureFormat;

// Its format has depth or stencil.
fn check_aspects(ds: &DepthStencilState) -> Result<(), DepthStencilStateError>
    ensures { result ≡ answer (aspect_verdict ds.now) tt }
{
    let aspects = ds.format.aspects();
    refuse_if(
        !aspects.depth && !aspects.stencil,
        DepthStencilStateError::FormatNotDepthOrStencil(ds.format),
    )
}

// Depth is there if it is enabled; and if it is there, what is done with it is told.
fn check_depth(ds: &DepthStencilState) -> Result<(), DepthStencilStateError>
    ensures { result ≡ answer (first_of (depth_verdicts ds.now)) tt }
{
    if !ds.format.aspects().depth {
        if ds.is_depth_enabled() {
            return Err(DepthStencilStateError::FormatNotDepth(ds.format));
        }
        return Ok(());
    }
    let Some(depth_write_enabled) = ds.depth_write_enabled else {
        return Err(DepthStencilStateError::MissingDepthWriteEnabled(ds.format));
    };
    let depth_compare_required = depth_write_enabled
        || !ds.stencil.front.depth_fail_op.is_keep()
        || !ds.stencil.back.depth_fail_op.is_keep();
    if depth_compare_required && ds.depth_compare.is_none() {
        return Err(DepthStencilStateError::MissingDepthCompare(ds.format));
    }
    Ok(())
}

fn check_stencil(ds: &DepthStencilState) -> Result<(), DepthStencilStateError>
    ensures { result ≡ answer (no_stencil_verdict ds.now) tt }
{
    refuse_if(
        ds.stencil.is_enabled() && !ds.format.aspects().stencil,
        DepthStencilStateError::FormatNotStencil(ds.format),
    )
}

// The sample count is one that the format can have, by `features`.
fn check_sample_count<A: Adapter>(
    device: &Device,
    adapter: &A,
    count: u32,
    format: TextureFormat,
    features: &TextureFormatFeatures,
) -> Result<(), DepthStencilStateError>
    ensures { result ≡ answer (count_fault device.now (A.Adapter.answers adapter.now) count format features.now.flags) tt }
{
    require_sample_count(device, adapter, count, format, features).map_err(
        DepthStencilStateError::InvalidSampleCount,
    )
}

fn check_clamp(device: &Device, ds: &DepthStencilState) -> Result<(), CreateRenderPipelineError>
    ensures { result ≡ answer (clamp_verdict device.now ds.now) tt }
{
    if ds.bias.is_clamped() {
        device.require_downlevel_flags(DownlevelFlags::DEPTH_BIAS_CLAMP)?;
    }
    Ok(())
}

fn check_topology(
    topology: PrimitiveTopology,
    ds: &DepthStencilState,
) -> Result<(), CreateRenderPipelineError>
    ensures { result ≡ answer (topology_verdict topology ds.now) tt }
{
    refuse_if(
        ds.bias.is_enabled() && !topology.is_triangles(),
        DepthStencilStateError::DepthBiasWithIncompatibleTopology(topology).into(),
    )
}

// A struct of what is passed would serve two functions of this file alone, and be no plainer.
fn check_state<A: Adapter>(
    device: &Device,
    adapter: &A,
    count: u32,
    topology: PrimitiveTopology,
    ds: &DepthStencilState,
) -> Result<(), CreateRenderPipelineError>
    ensures { result ≡ answer (first_of (state_verdicts device.now (A.Adapter.answers adapter.now) count topology ds.now)) tt }
{
    check_aspects(ds)?;
    let features = describe_format_features(device, adapter, ds.format)?;
    refuse_if(
        !features.renderable,
        DepthStencilStateError::FormatNotRenderable(ds.format),
    )?;
    check_depth(ds)?;
    check_stencil(ds)?;
    check_sample_count(device, adapter, count, ds.format, &features)?;
    check_clamp(device, ds)?;
    check_topology(topology, ds)
}

// The depth-stencil state of a style, by all its rules, in order. A style may have none.
pub fn check_depth_stencil_state<A: Adapter>(
    device: &Device,
    adapter: &A,
    count: u32,
    topology: PrimitiveTopology,
    depth_stencil: Option<DepthStencilState>,
) -> Result<(), CreateRenderPipelineError>
    ensures { DepthStencilJudged device.now (A.Adapter.answers adapter.now) count topology depth_stencil result }
{
    match depth_stencil {
        Some(ds) => check_state(device, adapter, count, topology, &ds),
        None => Ok(()),
    }
}
