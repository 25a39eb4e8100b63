// The second round over the attributes: each claims its location, beside those that the ones before have claimed.
ghost use Rattle.std.specs.Prelude.{◌≡◌, ◌<◌, All, OnOk};
ghost use Rattle.faults.specs.Faults.{answer, first_of};
ghost use Rattle.vertex.specs.Claims.{claimed, Roomy};
ghost use Rattle.vertex.specs.Order.{far_verdict, format_verdict, claim_verdicts, claims_verdicts, mark, mark_all, unused};

use crate::error::VertexStateError;
use descriptor::vertex::VertexAttribute;
use device::Device;
use faults::refuse_if;
use formats::features::Features;
use formats::vertex::VertexFormat;
use keyed::{Entry, insert};

// The locations that attributes have claimed. There is always room for a new one: 32 places, and locations below 32.
// An array and no map of std's, since nothing here may allocate.
#[derive(Drop)]
pub(crate) struct Locations {
    places: [Option<Entry<u32, VertexFormat>>; 32],
    ghost roomy: { Roomy places },
}

impl Locations {
    pub(crate) fn new() -> Locations
        ensures { claimed result.places ≡ unused }
    {
        Locations { places: [None; 32] }
    }

    // The second round at one attribute.
    fn claim_attribute(
        &mut self,
        device: &Device,
        a: &VertexAttribute,
    ) -> Result<(), VertexStateError>
        requires { a.now.shader_location < 32 }
        ensures verdict { result ≡ answer (first_of (claim_verdicts device.now (claimed self.old.places) a.now)) tt }
        ensures after { OnOk result (claimed self.new.places ≡ mark (claimed self.old.places) a.now) }
    {
        check_far_offset(a)?;
        check_format(device, a)?;
        let Ok(earlier) = insert(&mut self.places, a.shader_location, a.format) else {
            unreachable()
        };
        refuse_if(
            earlier.is_some(),
            VertexStateError::ShaderLocationClash(a.shader_location),
        )
    }

    // The second round at the attributes of one slot.
    pub(crate) fn claim_attributes(
        &mut self,
        device: &Device,
        part: &[VertexAttribute],
    ) -> Result<(), VertexStateError>
        requires { All (λ a. a.shader_location < 32) part.now }
        ensures verdict { result ≡ answer (first_of (claims_verdicts device.now (claimed self.old.places) part.now)) tt }
        ensures after { OnOk result (claimed self.new.places ≡ mark_all (claimed self.old.places) part.now) }
    {
        // A loop: the closure of `try_for_each` would have to repeat the clauses of `claim_attribute`.
        for a in part {
            self.claim_attribute(device, a)?;
        }
        Ok(())
    }
}

fn check_far_offset(a: &VertexAttribute) -> Result<(), VertexStateError>
    ensures { result ≡ answer (far_verdict a.now) tt }
{
    refuse_if(
        a.offset >= 0x1000_0000,
        VertexStateError::InvalidVertexAttributeOffset {
            location: a.shader_location,
            offset: a.offset,
        },
    )
}

fn check_format(device: &Device, a: &VertexAttribute) -> Result<(), VertexStateError>
    ensures { result ≡ answer (format_verdict device.now a.now) tt }
{
    if a.format.is_64bit() {
        device.require_features(Features::VERTEX_ATTRIBUTE_64BIT)?;
    }
    Ok(())
}
