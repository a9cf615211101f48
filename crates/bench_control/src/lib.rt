// The benchmark's lists of calls of congestion control on its parts; the crate bench_control_c is the static library.
#![tactic(auto)]

pub mod call;
pub mod left;
pub mod parts;
pub mod single;
