// The judging of a vertex state: the range of each slot, their number, slot by slot the stride and two rounds of its
// attributes, and the number of attributes.
ghost use Rattle.std.specs.Prelude.{◌≡◌, ◌^◌, ◌<◌, ◌≤◌, length, sum_by, OnOk};
ghost use Rattle.faults.specs.Faults.{answer, first_of};
ghost use Rattle.vertex.specs.Claims.{claimed, InList};
ghost use Rattle.vertex.specs.Order.{mark_all, mark_slot, part_verdicts, part_step, slot_verdicts, slots_verdicts, step_of, steps_of, unused, range_verdict, buffers_verdict, count_of, total_verdict};
ghost use Rattle.vertex.specs.Rules.{InRange, RangesJudged, VertexJudged, VertexKept};

use crate::error::VertexStateError;
use crate::locations::Locations;
use crate::reach::{Reach, check_stride};
use crate::step::VertexStep;
use descriptor::vertex::{VertexAttribute, VertexBufferLayout, VertexState};
use device::Device;
use faults::refuse_if;

// A slot's part stays in a list of `available` attributes.
// An index and what stands there, as `enumerate` gives them: a struct of the two would be no plainer.
fn check_range(
    available: u64,
    index: u64,
    slot: Option<VertexBufferLayout>,
) -> Result<(), VertexStateError>
    ensures { result ≡ answer (range_verdict available index slot) tt }
{
    let Some(s) = slot else {
        return Ok(());
    };
    let end = s.attributes_end();
    refuse_if(
        end > available,
        VertexStateError::AttributeRange {
            index,
            given: end,
            limit: available,
        },
    )
}

// Each slot's part stays in the attribute list. At create, rules on the targets stand between this one and the others.
pub fn check_attribute_ranges(vertex: &VertexState) -> Result<(), VertexStateError>
    ensures { RangesJudged vertex.now result }
{
    let available = vertex.attributes.len() as u64;
    // A loop: by `try_for_each` the answer stays unproved, as no lemma of std follows its run through the verdicts.
    for (i, slot) in vertex.buffers.iter().enumerate() {
        check_range(available, i as u64, *slot)?;
    }
    Ok(())
}

fn check_buffer_count(
    device: &Device,
    slots: &[Option<VertexBufferLayout>],
) -> Result<(), VertexStateError>
    ensures { result ≡ answer (buffers_verdict device.now slots.now) tt }
{
    let given = slots.len() as u64;
    let limit = u64::from(device.limits.max_vertex_buffers);
    refuse_if(
        given > limit,
        VertexStateError::TooManyVertexBuffers { given, limit },
    )
}

fn attribute_count(slot: &Option<VertexBufferLayout>) -> u64
    ensures value { result ≡ count_of slot.now }
    ensures bound { result < 2 ^ 32 }
{
    slot.map_or(0, |s| u64::from(s.count))
}

// A vertex state beside the device that is to take it: its slots are few enough, and the part of each stays in the attribute list.
#[derive(Clone, Copy)]
struct Bounded<'a> {
    device: &'a Device,
    vertex: VertexState<'a>,
    ghost few: { length vertex.buffers.now ≤ 16 },
    ghost ranged: { InRange vertex.buffers.now vertex.attributes.now },
}

impl Bounded<'_> {
    // A slot beside its part of the attribute list.
    fn judge_part(
        &self,
        locations: &mut Locations,
        index: u64,
        s: &VertexBufferLayout,
        part: &[VertexAttribute],
    ) -> Result<VertexStep, VertexStateError>
        ensures verdict { result ≡ answer (first_of (part_verdicts self.now.device.now index (claimed locations.old.places) s.now part.now)) (part_step s.now part.now) }
        ensures after { OnOk result (claimed locations.new.places ≡ mark_all (claimed locations.old.places) part.now) }
    {
        let most = check_stride(self.device, index, s)?;
        let reach = Reach {
            device: self.device,
            most,
        };
        let last_stride = reach.check_attributes(part)?;
        locations.claim_attributes(self.device, part)?;
        Ok(VertexStep {
            stride: s.array_stride,
            last_stride,
            mode: s.step_mode,
        })
    }

    // A slot, empty or not.
    fn judge_slot(
        &self,
        locations: &mut Locations,
        index: u64,
        slot: Option<VertexBufferLayout>,
    ) -> Result<Option<VertexStep>, VertexStateError>
        requires { InList self.now.vertex.attributes.now slot }
        ensures verdict { result ≡ answer (first_of (slot_verdicts self.now.device.now self.now.vertex.attributes.now index (claimed locations.old.places) slot)) (step_of self.now.vertex.attributes.now slot) }
        ensures after { OnOk result (claimed locations.new.places ≡ mark_slot self.now.vertex.attributes.now (claimed locations.old.places) slot) }
    {
        let Some(s) = slot else {
            return Ok(None);
        };
        let first = s.first as usize;
        let part = &self.vertex.attributes[first..first + s.count as usize];
        let step = self.judge_part(locations, index, &s, part)?;
        Ok(Some(step))
    }

    // Slot by slot, beside the locations that the slots before have claimed.
    fn judge_slots(&self) -> Result<[Option<VertexStep>; 16], VertexStateError>
        ensures { result ≡ answer (first_of (slots_verdicts self.now.device.now self.now.vertex.attributes.now 0 unused self.now.vertex.buffers.now)) (steps_of self.now.vertex.buffers.now self.now.vertex.attributes.now) }
    {
        let mut steps = [None; 16];
        let mut locations = Locations::new();
        // A loop that fills an array, and no chain into a Vec, since nothing here may allocate.
        for (i, slot) in self.vertex.buffers.iter().enumerate() {
            steps[i] = self.judge_slot(&mut locations, i as u64, *slot)?;
        }
        Ok(steps)
    }

    // How many attributes the slots mark together.
    fn total_attributes(&self) -> u64
        ensures { result ≡ sum_by count_of self.now.vertex.buffers.now }
    {
        self.vertex.buffers.iter().map(attribute_count).sum()
    }

    fn check_attribute_count(&self) -> Result<(), VertexStateError>
        ensures { result ≡ answer (total_verdict self.now.device.now self.now.vertex.buffers.now) tt }
    {
        let given = self.total_attributes();
        let limit = u64::from(self.device.limits.max_vertex_attributes);
        refuse_if(
            given > limit,
            VertexStateError::TooManyVertexAttributes { given, limit },
        )
    }
}

// A vertex state by all its rules, in order; where it is accepted, the steps that a pipeline keeps.
pub fn check_vertex_state(
    device: &Device,
    vertex: &VertexState,
) -> Result<[Option<VertexStep>; 16], VertexStateError>
    ensures judged { VertexJudged device.now vertex.now result }
    ensures kept { VertexKept vertex.now result }
{
    check_attribute_ranges(vertex)?;
    check_buffer_count(device, vertex.buffers)?;
    let bounded = Bounded {
        device,
        vertex: *vertex,
    };
    let steps = bounded.judge_slots()?;
    bounded.check_attribute_count()?;
    Ok(steps)
}
