// What create answers where it refuses a style, under the reference's names: a fault of a state inside the fault of create.
#![tactic(auto)]

pub mod color;
pub mod create;
pub mod depth_stencil;
