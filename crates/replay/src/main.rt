// Replays vertex states, one to a line of standard input, and prints the answer to each on a line of its own.
//
// A line has decimal numbers: max_vertex_buffers, max_vertex_attributes, max_vertex_buffer_array_stride, the features' word;
// the number of slots, and of each 0 where it is empty, else 1, array_stride, step_mode (0 Vertex, 1 Instance), first, count;
// the number of attributes, and of each its format's place in the table, offset, shader_location.
//
// An answer has 0 and then, of each slot, 0 where it is empty, else 1, stride, last_stride, mode; or the fault's number and its values.
#![tactic(auto)]

use anyhow::{Context, anyhow};
use descriptor::vertex::{VertexAttribute, VertexBufferLayout, VertexState, VertexStepMode};
use device::Device;
use device::ceilings::RequiredLimits;
use device::limits::Limits;
use faults::Fault;
use formats::features::{DownlevelFlags, Features};
use formats::flags::Flags;
use formats::vertex::VertexFormat;
use std::alloc::Global;
use std::io::BufRead;
use std::num::ParseIntError;
use std::{io, slice};
use vertex::error::VertexStateError;
use vertex::layout::check_vertex_state;
use vertex::step::VertexStep;

// The numbers of a line. The whole line is read before any number of it is used.
// They are collected with the error of std, so that no number passes through the room that an anyhow::Error has for its words.
fn read_numbers(heap: Global, text: &str) -> anyhow::Result<Vec<u64>> {
    Ok(
        text.split_whitespace()
            .map(|word| word.parse::<u64>())
            .collect::<Result<Vec<u64>, ParseIntError>>(heap)??,
    )
}

// The numbers of a line that are still to be read.
#[derive(Drop)]
struct Numbers<'a> {
    rest: slice::Iter<'a, u64>,
}

impl<'a> Numbers<'a> {
    // The next number, of 64 bits or of 32.
    fn next_u64(&mut self) -> anyhow::Result<u64> {
        // No `context`, by which each number would pass through the room of an error.
        let Some(number) = self.rest.next() else {
            return Err(anyhow!("a number is missing"));
        };
        Ok(*number)
    }

    fn next_u32(&mut self) -> anyhow::Result<u32> {
        Ok(u32::try_from(self.next_u64()?)?)
    }

    // A count, and then as many items.
    fn list<T: Drop, F: FnMut(&mut Numbers<'a>) -> anyhow::Result<T>>(
        &mut self,
        heap: Global,
        mut item: F,
    ) -> anyhow::Result<Vec<T>>
        requires { F.IsAlwaysCallable item }
    {
        let mut items = Vec::new(heap);
        for _ in 0..self.next_u64()? {
            items.push(item(self)?)?;
        }
        Ok(items)
    }

    fn slot(&mut self) -> anyhow::Result<Option<VertexBufferLayout>> {
        if self.next_u64()? == 0 {
            return Ok(None);
        }
        Ok(Some(VertexBufferLayout {
            array_stride: self.next_u64()?,
            // By hand: any number but 0 is Instance, and both the type and the trait of a conversion are of other crates.
            step_mode: match self.next_u64()? {
                0 => VertexStepMode::Vertex,
                _ => VertexStepMode::Instance,
            },
            first: self.next_u32()?,
            count: self.next_u32()?,
        }))
    }

    fn attribute(&mut self) -> anyhow::Result<VertexAttribute> {
        let place = usize::try_from(self.next_u64()?)?;
        Ok(VertexAttribute {
            format: *VertexFormat::ALL
                .get(place)
                .context("there is no such format")?,
            offset: self.next_u64()?,
            shader_location: self.next_u32()?,
        })
    }

    fn device(&mut self) -> anyhow::Result<Device> {
        let required = RequiredLimits {
            max_color_attachments: 8,
            max_vertex_buffers: self.next_u32()?,
            max_vertex_attributes: self.next_u32()?,
            max_vertex_buffer_array_stride: self.next_u32()?,
            max_color_attachment_bytes_per_sample: 128,
        };
        let features = Features::from_bits_retain(self.next_u32()?);
        let limits = Limits::new(&required).map_err(|_| anyhow!("a limit above its ceiling"))?;
        Ok(Device {
            limits,
            features,
            downlevel: DownlevelFlags::ALL,
        })
    }
}

fn show_step(rt: &HostRuntime, step: Option<VertexStep>) -> io::Result<()> {
    let Some(step) = step else {
        return print!(rt; " 0");
    };
    let mode = u8::from(step.mode == VertexStepMode::Instance);
    print!(rt; " 1 {} {} {mode}", step.stride, step.last_stride)
}

fn show_fault(rt: &HostRuntime, fault: &VertexStateError) -> io::Result<()> {
    // Once for all arms.
    let number = fault.number();
    match fault {
        VertexStateError::AttributeRange {
            index,
            given,
            limit,
        }
        | VertexStateError::VertexStrideTooLarge {
            index,
            given,
            limit,
        } => println!(rt; "{number} {index} {given} {limit}"),
        VertexStateError::TooManyVertexBuffers { given, limit }
        | VertexStateError::VertexAttributeLocationTooLarge { given, limit }
        | VertexStateError::TooManyVertexAttributes { given, limit } => println!(rt;
            "{number} {given} {limit}"
        ),
        VertexStateError::UnalignedVertexStride { index, stride } => println!(rt;
            "{number} {index} {stride}"
        ),
        VertexStateError::VertexAttributeStrideTooLarge {
            location,
            given,
            limit,
        } => println!(rt; "{number} {location} {given} {limit}"),
        VertexStateError::InvalidVertexAttributeOffset { location, offset } => println!(rt;
            "{number} {location} {offset}"
        ),
        VertexStateError::ShaderLocationClash(location) => println!(rt; "{number} {location}"),
        VertexStateError::MissingFeatures(_) => println!(rt; "{number}"),
    }
}

fn show_answer(rt: &HostRuntime, device: &Device, vertex: &VertexState) -> io::Result<()> {
    match check_vertex_state(device, vertex) {
        Ok(steps) => {
            print!(rt; "0")?;
            for step in steps.iter().take(vertex.buffers.len()) {
                show_step(rt, *step)?;
            }
            println!(rt; "")
        }
        Err(fault) => show_fault(rt, &fault),
    }
}

fn replay(rt: &HostRuntime, text: &str) -> anyhow::Result<()> {
    let read = read_numbers(rt.alloc(), text)?;
    let mut numbers = Numbers { rest: read.iter() };
    let device = numbers.device()?;
    let buffers = numbers.list(rt.alloc(), Numbers::slot)?;
    let attributes = numbers.list(rt.alloc(), Numbers::attribute)?;
    let vertex = VertexState {
        buffers: &buffers,
        attributes: &attributes,
    };
    Ok(show_answer(rt, &device, &vertex)?)
}

fn main(rt: HostRuntime) -> anyhow::Result<()> {
    for line in io::BufReader::new(rt.alloc(), rt.stdin())?.lines(rt.alloc()) {
        replay(&rt, &line?)?;
    }
    Ok(())
}
