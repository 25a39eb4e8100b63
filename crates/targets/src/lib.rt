// The color targets of a style, judged in the reference's order: how they are written side by side, each target with its
// format and its blending, and the second source of blending.
#![tactic(auto)]

pub mod beside;
mod blending;
mod fault;
pub mod state;
