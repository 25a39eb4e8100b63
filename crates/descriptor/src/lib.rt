// The plain records of a style, under the reference's names, and the small questions that rules ask of them.
#![tactic(auto)]

pub mod blend;
pub mod depth_stencil;
pub mod pipeline;
pub mod primitive;
pub mod vertex;
