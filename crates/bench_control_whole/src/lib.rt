// The lists of bench_control on one controller that is moved whole at each call: a static library of its own, as bench_whole is.
#![tactic(auto)]

pub mod whole;

// The checksum of all answers of a list.
#[unsafe(no_mangle)]
pub extern "C" fn bench_control_whole(list: &[u64], other: bool) -> u64 {
    whole::run(list, other)
}
