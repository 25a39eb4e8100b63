// The limits that a caller asks for, and the refusal of one above its ceiling.
ghost use Rattle.std.specs.Prelude.{◌≡◌, Some};
ghost use Rattle.device.specs.Ceilings.{above_ceiling, Limited, Taken, failed_limit_number};
ghost use Rattle.device.specs.Words.{limit_words, failed_limit_words};

use crate::limits::Limits;
use faults::{Fault, first_fault};
use std::error::Error;
use std::fmt;

#[derive(Clone, Copy, PartialEq, Eq, Debug)]
pub enum LimitName {
    MaxColorAttachments,
    MaxVertexBuffers,
    MaxVertexAttributes,
    MaxVertexBufferArrayStride,
    MaxColorAttachmentBytesPerSample,
}

// A limit that was asked for above its ceiling.
#[derive(Clone, Copy, PartialEq, Eq, Debug)]
pub struct FailedLimit {
    pub name: LimitName,
    pub requested: u64,
    pub allowed: u64,
}

impl Fault for FailedLimit {
    ghost number_of = { failed_limit_number };

    fn number(&self) -> u32 {
        22
    }
}

impl fmt::Display for LimitName {
    ghost output = { λ n. Some (limit_words n) };

    fn fmt<W: fmt::Write>(&self, f: &mut fmt::Formatter<W>) -> fmt::Result {
        match self {
            LimitName::MaxColorAttachments => f.write_str("max_color_attachments"),
            LimitName::MaxVertexBuffers => f.write_str("max_vertex_buffers"),
            LimitName::MaxVertexAttributes => f.write_str("max_vertex_attributes"),
            LimitName::MaxVertexBufferArrayStride => f.write_str("max_vertex_buffer_array_stride"),
            LimitName::MaxColorAttachmentBytesPerSample => f.write_str(
                "max_color_attachment_bytes_per_sample",
            ),
        }
    }
}

impl fmt::Display for FailedLimit {
    ghost output = { λ e. Some (failed_limit_words e) };

    fn fmt<W: fmt::Write>(&self, f: &mut fmt::Formatter<W>) -> fmt::Result {
        write!(
            f,
            "the limit {} is {}, above its ceiling of {}",
            self.name, self.requested, self.allowed
        )
    }
}

impl Error for FailedLimit {}

// The limits that a caller asks for.
#[derive(Clone, Copy)]
pub struct RequiredLimits {
    pub max_color_attachments: u32,
    pub max_vertex_buffers: u32,
    pub max_vertex_attributes: u32,
    pub max_vertex_buffer_array_stride: u32,
    pub max_color_attachment_bytes_per_sample: u32,
}

fn check_ceiling(name: LimitName, requested: u32, allowed: u32) -> Option<FailedLimit>
    ensures { result ≡ above_ceiling name requested allowed }
{
    (requested > allowed).then_some(FailedLimit {
        name,
        requested: u64::from(requested),
        allowed: u64::from(allowed),
    })
}

impl Limits {
    // The limits asked for, or the first of them, in the order of the record, that is above its ceiling.
    pub fn new(required: &RequiredLimits) -> Result<Limits, FailedLimit>
        ensures value { Limited required.now result }
        ensures exactly { Taken required.now result }
    {
        // Verdicts and no `?`: what is proved of the first fault of a list stands on this call.
        let verdicts = [
            check_ceiling(
                LimitName::MaxColorAttachments,
                required.max_color_attachments,
                8,
            ),
            check_ceiling(LimitName::MaxVertexBuffers, required.max_vertex_buffers, 16),
            check_ceiling(
                LimitName::MaxVertexAttributes,
                required.max_vertex_attributes,
                32,
            ),
            check_ceiling(
                LimitName::MaxVertexBufferArrayStride,
                required.max_vertex_buffer_array_stride,
                536_870_912,
            ),
            check_ceiling(
                LimitName::MaxColorAttachmentBytesPerSample,
                required.max_color_attachment_bytes_per_sample,
                128,
            ),
        ];
        if let Some(fault) = first_fault(&verdicts) {
            return Err(fault);
        }
        Ok(Limits {
            max_color_attachments: required.max_color_attachments,
            max_vertex_buffers: required.max_vertex_buffers,
            max_vertex_attributes: required.max_vertex_attributes,
            max_vertex_buffer_array_stride: required.max_vertex_buffer_array_stride,
            max_color_attachment_bytes_per_sample: required.max_color_attachment_bytes_per_sample,
        })
    }
}
