// The lists of calls that the benchmark plays, and the checksum over what they answer. No part of the port; docs/PERFORMANCE.md says what is measured.
#![tactic(auto)]

pub mod call;
pub mod player;
