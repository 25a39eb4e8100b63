// The preview: judges a catalogue of vertex layouts for a panel, and prints of each what was judged and the verdict;
// then it prints which texture formats the panel can draw on.
#![tactic(auto)]

mod catalogue;
mod cells;

use adapter::guaranteed::GuaranteedAdapter;
use adapter::listed::ListedAdapter;
use adapter::{Adapter, describe_format_features};
use catalogue::{ACCEPTED, ASKED, LISTED_ROWS, REFUSED, Sample, WIDE};
use cells::{Aspects, Cost, Uses};
use descriptor::vertex::{VertexAttribute, VertexBufferLayout, VertexState};
use device::Device;
use device::ceilings::RequiredLimits;
use device::limits::Limits;
use faults::Fault;
use formats::features::{DownlevelFlags, Features};
use formats::flags::Flags;
use formats::texture::TextureFormat;
use std::{fmt, io};
use vertex::layout::check_vertex_state;
use vertex::step::VertexStep;

// The panel's own limits.
const PANEL: RequiredLimits = RequiredLimits {
    max_color_attachments: 8,
    max_vertex_buffers: 8,
    max_vertex_attributes: 16,
    max_vertex_buffer_array_stride: 2_048,
    max_color_attachment_bytes_per_sample: 32,
};

// A machine with the longest strides, for what only such a one can refuse.
const WORKSHOP: RequiredLimits = RequiredLimits {
    max_color_attachments: 8,
    max_vertex_buffers: 16,
    max_vertex_attributes: 32,
    max_vertex_buffer_array_stride: 536_870_912,
    max_color_attachment_bytes_per_sample: 128,
};

// One buffer more than any device may have.
const ABOVE: RequiredLimits = RequiredLimits {
    max_vertex_buffers: 17,
    ..PANEL
};

fn show_slot(rt: &HostRuntime, index: usize, slot: Option<VertexBufferLayout>) -> io::Result<()> {
    let Some(slot) = slot else {
        return println!(rt; "   buffer {index}: empty");
    };
    println!(rt;
        "   buffer {index}: stride {}, by {}, attributes: {} from place {}",
        slot.array_stride, slot.step_mode, slot.count, slot.first
    )
}

fn show_attribute(rt: &HostRuntime, index: usize, a: &VertexAttribute) -> io::Result<()> {
    println!(rt;
        "   attribute {index}: {:?} at {}, location {}",
        a.format, a.offset, a.shader_location
    )
}

fn show_state(rt: &HostRuntime, vertex: &VertexState) -> io::Result<()> {
    for (i, slot) in vertex.buffers.iter().enumerate() {
        show_slot(rt, i, *slot)?;
    }
    for (i, a) in vertex.attributes.iter().enumerate() {
        show_attribute(rt, i, a)?;
    }
    Ok(())
}

fn show_step(rt: &HostRuntime, index: usize, step: &VertexStep) -> io::Result<()> {
    println!(rt;
        "     step {index}: stride {}, last_stride {}, by {}",
        step.stride, step.last_stride, step.mode
    )
}

fn show_refusal<E: Fault + fmt::Display>(rt: &HostRuntime, fault: &E) -> io::Result<()> {
    println!(rt; "   refused, fault {}: {fault}", fault.number())
}

// Judges a layout, and prints it with its verdict: the steps that are kept, or the fault's number and words.
fn judge(rt: &HostRuntime, device: &Device, sample: &Sample) -> io::Result<()> {
    println!(rt; "-- {}", sample.name)?;
    show_state(rt, &sample.vertex)?;
    match check_vertex_state(device, &sample.vertex) {
        Ok(steps) => {
            println!(rt; "   accepted")?;
            for (i, step) in steps.iter().enumerate() {
                if let Some(step) = step {
                    show_step(rt, i, step)?;
                }
            }
            Ok(())
        }
        Err(fault) => show_refusal(rt, &fault),
    }
}

fn judge_all(rt: &HostRuntime, device: &Device, samples: &[Sample]) -> io::Result<()> {
    for sample in samples {
        judge(rt, device, sample)?;
    }
    Ok(())
}

// Asks for a device with these limits and features, and prints what comes of it.
fn ask(
    rt: &HostRuntime,
    name: &str,
    required: &RequiredLimits,
    features: Features,
) -> io::Result<Option<Device>> {
    println!(rt;
        "== {name}: {} vertex buffers, {} vertex attributes, strides to {}",
        required.max_vertex_buffers,
        required.max_vertex_attributes,
        required.max_vertex_buffer_array_stride
    )?;
    match Limits::new(required) {
        Ok(limits) => Ok(Some(Device {
            limits,
            features,
            downlevel: DownlevelFlags::ALL,
        })),
        Err(fault) => {
            show_refusal(rt, &fault)?;
            Ok(None)
        }
    }
}

// Each format with what the device can do with it, as it is and with more features.
fn show_table<A: Adapter>(
    rt: &HostRuntime,
    adapter: &A,
    device: &Device,
    more: &Device,
) -> io::Result<()> {
    println!(rt; "| Format | Aspects | Byte cost | Without the features | With the features |")?;
    for format in TextureFormat::ALL {
        let aspects = Aspects(format.aspects());
        let cost = Cost(format.target_cost());
        let without = Uses(describe_format_features(device, adapter, format));
        let with = Uses(describe_format_features(more, adapter, format));
        println!(rt; "| {format:?} | {aspects} | {cost} | {without} | {with} |")?;
    }
    Ok(())
}

// What the device can do with the formats that are asked for.
fn show_formats<A: Adapter>(
    rt: &HostRuntime,
    name: &str,
    adapter: &A,
    device: &Device,
    asked: &[TextureFormat],
) -> io::Result<()> {
    println!(rt; "-- {name}")?;
    for format in asked {
        let uses = Uses(describe_format_features(device, adapter, *format));
        println!(rt; "   {format:?}: {uses}")?;
    }
    Ok(())
}

// The formats of the panel, by the table.
fn show_panel_formats(rt: &HostRuntime, panel: &Device) -> io::Result<()> {
    let adapter = GuaranteedAdapter {
        features: panel.features,
    };
    let features = Features::FLOAT32_BLENDABLE.union(Features::RG11B10UFLOAT_RENDERABLE);
    println!(rt; "== the texture formats of the panel, without and with {features}")?;
    let more = Device { features, ..*panel };
    show_table(rt, &adapter, panel, &more)?;
    let combined = Device {
        features: Features::DEPTH32FLOAT_STENCIL8,
        ..*panel
    };
    show_formats(
        rt,
        "the panel, with DEPTH32FLOAT_STENCIL8",
        &adapter,
        &combined,
        &[TextureFormat::Depth32FloatStencil8],
    )
}

// The formats of a machine that lists its own, where the device goes by the list and where it goes by the table.
fn show_listed_formats(rt: &HostRuntime, panel: &Device) -> io::Result<()> {
    println!(rt; "== a machine that lists its texture formats")?;
    let adapter = ListedAdapter { rows: &LISTED_ROWS };
    let specific = Device {
        features: Features::TEXTURE_ADAPTER_SPECIFIC_FORMAT_FEATURES,
        ..*panel
    };
    let downlevel = Device {
        downlevel: DownlevelFlags::INDEPENDENT_BLEND,
        ..*panel
    };
    show_formats(
        rt,
        "with TEXTURE_ADAPTER_SPECIFIC_FORMAT_FEATURES, by the list",
        &adapter,
        &specific,
        &ASKED,
    )?;
    show_formats(
        rt,
        "without WEBGPU_TEXTURE_FORMAT_SUPPORT, by the list",
        &adapter,
        &downlevel,
        &ASKED,
    )?;
    show_formats(rt, "as the panel, by the table", &adapter, panel, &ASKED)
}

fn main(rt: HostRuntime) -> io::Result<()> {
    let none = Features::empty();
    if let Some(device) = ask(&rt, "the panel", &PANEL, none)? {
        judge_all(&rt, &device, &ACCEPTED)?;
        judge_all(&rt, &device, &REFUSED)?;
        show_panel_formats(&rt, &device)?;
        show_listed_formats(&rt, &device)?;
    }
    if let Some(device) = ask(
        &rt,
        "a workshop machine",
        &WORKSHOP,
        Features::VERTEX_ATTRIBUTE_64BIT,
    )? {
        judge_all(&rt, &device, &WIDE)?;
    }
    let _ = ask(&rt, "a machine above its ceiling", &ABOVE, none)?;
    Ok(())
}
