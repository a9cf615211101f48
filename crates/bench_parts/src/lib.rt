// The benchmark's lists on four pacers called in place: a static library of its own, so that what it calls is compiled into it.
#![tactic(auto)]

pub mod parts;

// The checksum of all answers of a list.
// Stays: [2] the C interface: each library has one function, under a name of its own.
#[unsafe(no_mangle)]
pub extern "C" fn bench_parts(list: &[u64], pool: &mut [u8], bytes: &[u8], rate_bps: u32) -> u64 {
    parts::run(list, pool, bytes, rate_bps)
}
