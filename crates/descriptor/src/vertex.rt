// The vertex state of a style: slots, and the one attribute list of which each slot marks a part.
ghost use Rattle.std.specs.Prelude.{◌≡◌, Some};
ghost use Rattle.descriptor.specs.Vertex.{attribute_end, capped, part_end, step_mode_words};

use formats::vertex::VertexFormat;
use std::fmt;

#[derive(Clone, Copy, PartialEq, Eq, Debug)]
pub enum VertexStepMode {
    Vertex,
    Instance,
}

impl fmt::Display for VertexStepMode {
    ghost output = { λ m. Some (step_mode_words m) };

    fn fmt<W: fmt::Write>(&self, f: &mut fmt::Formatter<W>) -> fmt::Result {
        match self {
            VertexStepMode::Vertex => f.write_str("vertex"),
            VertexStepMode::Instance => f.write_str("instance"),
        }
    }
}

#[derive(Clone, Copy, PartialEq, Eq, Debug)]
pub struct VertexAttribute {
    pub format: VertexFormat,
    pub offset: u64,
    pub shader_location: u32,
}

impl VertexAttribute {
    // The byte after its last, from the start of its element; where that needs more than 64 bits, the greatest number of 64 bits.
    pub fn end(&self) -> u64
        ensures { result ≡ capped (attribute_end self.now) }
    {
        self.offset.saturating_add(self.format.size())
    }
}

// A slot that is not empty. Its attributes are `count` of the list, from place `first` on.
// Two numbers and no slice: by the rule book a part may leave the list, and the refusal of that is one of the faults.
#[derive(Clone, Copy, PartialEq, Eq, Debug)]
pub struct VertexBufferLayout {
    pub array_stride: u64,
    pub step_mode: VertexStepMode,
    pub first: u32,
    pub count: u32,
}

impl VertexBufferLayout {
    // The place after the slot's last attribute.
    pub fn attributes_end(&self) -> u64
        ensures { result ≡ part_end self.now }
    {
        u64::from(self.first) + u64::from(self.count)
    }
}

#[derive(Clone, Copy)]
pub struct VertexState<'a> {
    pub buffers: &'a [Option<VertexBufferLayout>],
    pub attributes: &'a [VertexAttribute],
}
