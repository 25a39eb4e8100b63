// The first round over the attributes of a slot: the end, the offset and the location of each.
ghost use Rattle.std.specs.Prelude.{◌≡◌};
ghost use Rattle.faults.specs.Faults.{answer, first_of};
ghost use Rattle.descriptor.specs.Vertex.{attribute_end};
ghost use Rattle.vertex.specs.Order.{attribute_verdicts, attributes_verdicts, last_stride_of, stride_verdicts, reach};

use crate::error::VertexStateError;
use descriptor::vertex::{VertexAttribute, VertexBufferLayout};
use device::Device;
use faults::refuse_if;

// How far the attributes of a slot may reach: its stride, or the stride limit, so that 32 bits hold it.
pub(crate) fn check_stride(
    device: &Device,
    index: u64,
    s: &VertexBufferLayout,
) -> Result<u32, VertexStateError>
    ensures { result ≡ answer (first_of (stride_verdicts device.now index s.now)) (reach device.now s.now) }
{
    let limit = device.limits.max_vertex_buffer_array_stride;
    refuse_if(
        s.array_stride > u64::from(limit),
        VertexStateError::VertexStrideTooLarge {
            index,
            given: s.array_stride,
            limit: u64::from(limit),
        },
    )?;
    refuse_if(
        s.array_stride % 4 != 0,
        VertexStateError::UnalignedVertexStride {
            index,
            stride: s.array_stride,
        },
    )?;
    if s.array_stride == 0 {
        Ok(limit)
    } else {
        // `as`, proved to lose nothing: `try_from` would have an error that cannot come.
        Ok(s.array_stride as u32)
    }
}

// A device, and how far the attributes of a slot may reach.
#[derive(Clone, Copy)]
pub(crate) struct Reach<'a> {
    pub(crate) device: &'a Device,
    pub(crate) most: u32,
}

impl Reach<'_> {
    // The end of an attribute.
    fn check_attribute(&self, a: &VertexAttribute) -> Result<u64, VertexStateError>
        ensures { result ≡ answer (first_of (attribute_verdicts self.now.device.now self.now.most a.now)) (attribute_end a.now) }
    {
        let location = a.shader_location;
        let end = a.end();
        let most = u64::from(self.most);
        refuse_if(
            end > most,
            VertexStateError::VertexAttributeStrideTooLarge {
                location,
                given: end,
                limit: most,
            },
        )?;
        refuse_if(
            a.offset % a.format.size().min(4) != 0,
            VertexStateError::InvalidVertexAttributeOffset {
                location,
                offset: a.offset,
            },
        )?;
        let limit = self.device.limits.max_vertex_attributes;
        refuse_if(
            location >= limit,
            VertexStateError::VertexAttributeLocationTooLarge {
                given: u64::from(location),
                limit: u64::from(limit),
            },
        )?;
        Ok(end)
    }

    // The greatest end of the attributes of one slot, or 0.
    pub(crate) fn check_attributes(&self, part: &[VertexAttribute]) -> Result<u64, VertexStateError>
        ensures { result ≡ answer (first_of (attributes_verdicts self.now.device.now self.now.most part.now)) (last_stride_of part.now) }
    {
        let mut last_stride = 0;
        // A loop: by `try_fold` the answer stays unproved, as no lemma of std follows its run through the verdicts.
        for a in part {
            let end = self.check_attribute(a)?;
            last_stride = last_stride.max(end);
        }
        Ok(last_stride)
    }
}
