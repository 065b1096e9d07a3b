// The work of the crate `advice` laid out: its tables, what loads ask of arcs, and the arcs of a network that can matter. Whoever asks for advice judges
// it, so nothing is promised but that each call is safe and ends. All numbers go round at 2^32.
#![tactic(auto)]

pub mod arcs;
pub mod given;
pub mod laying;
pub mod numbers;
mod sparing;
