// What Rust's `as`, f32 and Duration do, worked out here, and the product modulo 2^64.
// Every function is total: it has an answer at every value of its types.
#![tactic(auto)]

pub mod duration;
pub mod float;
pub mod integer;
