// The lists of the crate bench_control behind C functions: a static library of its own, as bench_parts is.
#![tactic(auto)]

use bench_control::parts;
use bench_control::single::{self, Part};

// The checksum of a list on the parts of a controller.
#[unsafe(no_mangle)]
pub extern "C" fn bench_control_parts(list: &[u64], other: bool) -> u64 {
    parts::run(list, other)
}

// The checksum of a list on a part alone: 0 an estimator, 1 a processor, else decreases.
// Stays: [1] the C interface: what calls it passes the part as a number, which is made an enum at once.
#[unsafe(no_mangle)]
pub extern "C" fn bench_control_single(list: &[u64], part: u8) -> u64 {
    single::run(list, Part::from(part))
}
