// The benchmark's lists on one pacer that is moved whole at each call: a static library of its own, as bench_parts is.
#![tactic(auto)]

pub mod whole;

// The checksum of all answers of a list.
// Stays: [2] the C interface: each library has one function, under a name of its own.
#[unsafe(no_mangle)]
pub extern "C" fn bench_whole(list: &[u64], pool: &mut [u8], bytes: &[u8], rate_bps: u32) -> u64 {
    whole::run(list, pool, bytes, rate_bps)
}
