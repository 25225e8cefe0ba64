// The records of `cardline` that call no card, each by the line that it prints: what is looked at and
// set (kinds 07 to 0A and 0F), and the calls of the wire (0B to 0D); and the lines that no other program has.
// No call has a `requires`: a line is written as far as there is room, and none is longer than `ROOMY`.
//
// Offers: `ROOMY`; `look_line`, `set_map`, `sizes_looked`; `wire_line`, `space`; `lines`.
#![tactic(auto)]

pub mod lines;
mod looks;
mod wires;

pub use looks::{look_line, set_map, sizes_looked};
pub use wires::{space, wire_line};

// Room for the longest line.
pub const ROOMY: usize = 131136;
