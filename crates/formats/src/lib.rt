// The formats of vertices and textures, and the sets of features and downlevel flags by which a device says what it can do.
#![tactic(auto)]

pub mod features;
pub mod flags;
pub mod format_features;
mod rows;
pub mod texture;
pub mod vertex;
