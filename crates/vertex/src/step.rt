// What is kept of an accepted slot.
use descriptor::vertex::VertexStepMode;

#[derive(Clone, Copy, PartialEq, Eq, Debug)]
pub struct VertexStep {
    // The bytes from one element to the next.
    pub stride: u64,
    // The bytes that an element needs: the greatest end of its attributes, or 0.
    pub last_stride: u64,
    // Whether an element is a vertex or an instance.
    pub mode: VertexStepMode,
}
