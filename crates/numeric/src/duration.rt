// Seconds and nanoseconds, as Rust's Duration has them. A duration here is a u64 of nanoseconds.
ghost use Rattle.std.specs.Prelude.{◌≡◌, ◌+◌, ◌*◌, ◌%◌, ◌^◌};
ghost use Rattle.std.specs.Float.Ieee.Nearest.{closest};
ghost use Rattle.numeric.specs.Duration.{seconds_of, nanos_of};

use crate::float::f64_of_u64;

// Elapsed seconds for a credit: Rust's `Duration::as_secs_f64`, whole seconds plus the rest over 10^9, each rounded.
pub fn as_secs_f64(nanos: u64) -> f64
    ensures { result ≡ seconds_of nanos }
{
    f64_of_u64(nanos / 1000000000) + f64_of_u64(nanos % 1000000000) / 1000000000.0
}

// A wait in nanoseconds, to the nearest, ties to even: Rust's `Duration::from_secs_f64`.
// Where that panics it answers 0 below zero and for a NaN; from 2^32 seconds on it answers the largest u64.
#[tactic(auto, using(crate::proofs::Nanoseconds::waits))]
pub fn from_secs_f64(secs: f64) -> u64
    ensures { result ≡ nanos_of secs }
{
    if secs >= 4294967296.0 {
        u64::MAX
    } else if secs >= 4.656612873077393e-10 {
        let bits = secs.to_bits();
        nearest_scaled(bits, 1054 - bits / 4503599627370496)
    } else {
        0
    }
}

// A float's digits times 5^9 over 2^(12 + shift), to the nearest whole number, a tie to the even one; shift counts modulo 64.
// The product has up to 74 binary digits, so it is worked out in two parts.
#[tactic(auto, using(crate::proofs::Closest::even_bit, crate::proofs::Closest::odd_bit, crate::proofs::Closest::tie_bit))]
fn nearest_scaled(bits: u64, shift: u64) -> u64
    ensures { result ≡ closest ((4503599627370496 + bits % 4503599627370496) * 1953125) (2 ^ (12 + shift % 64)) }
{
    let digits = 4503599627370496 + bits % 4503599627370496;
    let low = digits % 2048 * 1953125;
    let high = digits / 2048 * 1953125 + low / 2048;
    let unit = power_of_two(shift);
    let halves = high / unit;
    if halves % 2 == 0 {
        halves / 2
    } else if high % unit != 0 || low % 2048 != 0 {
        halves / 2 + 1
    } else {
        halves / 2 + halves / 2 % 2
    }
}

// 2^exponent, the exponent taken modulo 64.
fn power_of_two(exponent: u64) -> u64
    ensures { result ≡ 2 ^ (exponent % 64) }
{
    1 << (exponent % 64)
}
