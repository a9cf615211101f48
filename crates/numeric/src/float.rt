// Conversions between integers and floats, and f32's max, clamp and absolute value.
// The project's scope asks that these be worked out here and not taken from std: "Rust's `as` from integer to f32 rounds to nearest, ties to even; from float
// to integer it truncates. Both are worked out here, as are clamp, max, absolute value".
ghost use Rattle.std.specs.Prelude.{◌≡◌, pos};
ghost use Rattle.std.specs.Float.Ieee as Ieee;
ghost use Rattle.std.specs.Float.{binary32, binary64};
ghost use Rattle.numeric.specs.Float.{scaled, max_of, clamp_of, abs_of};

// The nearest f32 of a rate, ties to even: Rust's `n as f32`.
// Each half of n is a float exactly, and so is the upper half times 2^16; only the sum rounds.
// Stays: [2] it and `f64_of_u64` are a line each; a generic one would need a trait for the cast, the sum, the product and the constant.
#[tactic(auto, using(crate::proofs::Nearest::halves, crate::proofs::Literals::two_to_16_f32))]
pub fn f32_of_u32(n: u32) -> f32
    ensures { result ≡ Ieee.of_int binary32 (pos n) }
{
    ((n / 65536) as f32) * 65536.0 + ((n % 65536) as f32)
}

// The nearest f64 of a count of bytes or nanoseconds, ties to even: Rust's `n as f64`.
// Stays: [2] as `f32_of_u32`.
#[tactic(auto, using(crate::proofs::Nearest::halves, crate::proofs::Literals::two_to_32_f64))]
pub fn f64_of_u64(n: u64) -> f64
    ensures { result ≡ Ieee.of_int binary64 (pos n) }
{
    ((n / 4294967296) as f64) * 4294967296.0 + ((n % 4294967296) as f64)
}

// The whole part of a rate or a share: Rust's `x as u32`, which cuts the fraction, stops at the ends of u32 and gives 0 for a NaN.
// From 1 on, x is its digits under a leading one, put at the top of a word and shifted down by what the exponent's field says.
// Stays: [2] by way of the f64 (`u64_of_f64(x.into()).min(u32::MAX as u64) as u32`, which proves) it hides which bits are read, and a decrease takes 1.6 ns more in 6.7.
#[tactic(auto, using(crate::proofs::Truncation::cuts))]
pub fn u32_of_f32(x: f32) -> u32
    ensures { result ≡ Ieee.to_unsigned 32 x }
{
    if x >= 4294967296.0 {
        u32::MAX
    } else if x >= 1.0 {
        let bits = x.to_bits();
        let exponent = bits / 8388608;
        let digits = 8388608 + bits % 8388608;
        (digits * 256) >> (158 - exponent)
    } else {
        0
    }
}

// The whole part of a credit: Rust's `x as u64`, cut and stopped likewise.
// Stays: [2] the digits, exponents and widths of the two formats all differ; one function over both would take five numbers along.
#[tactic(auto, using(crate::proofs::Truncation::cuts))]
pub fn u64_of_f64(x: f64) -> u64
    ensures { result ≡ Ieee.to_unsigned 64 x }
{
    if x >= 18446744073709551616.0 {
        u64::MAX
    } else if x >= 1.0 {
        let bits = x.to_bits();
        let exponent = bits / 4503599627370496;
        let digits = 4503599627370496 + bits % 4503599627370496;
        (digits * 2048) >> (1086 - exponent)
    } else {
        0
    }
}

// A factor of a rate: the nearest f32 of the rate times the factor in f32, cut to a whole number. Rust's `(n as f32 * factor) as u32`.
#[tactic(auto, unfolding(crate::specs::Float::scaled))]
pub fn scaled_u32(n: u32, factor: f32) -> u32
    ensures { result ≡ scaled n factor }
{
    u32_of_f32(f32_of_u32(n) * factor)
}

// The larger of two, as Rust's `f32::max`: a NaN gives way to the other. Of two equal zeros it is the first.
pub fn max_f32(x: f32, y: f32) -> f32
    ensures { result ≡ max_of x y }
{
    if x < y || x.is_nan() { y } else { x }
}

// A score held to its range, as Rust's `f32::clamp` where low is at most high; a NaN stays.
pub fn clamp_f32(x: f32, low: f32, high: f32) -> f32
    ensures { result ≡ clamp_of x low high }
{
    if x < low {
        low
    } else if x > high {
        high
    } else {
        x
    }
}

// The size of a difference, as Rust's `f32::abs`: the sign bit is cleared, that of -0.0 too. A NaN stays one.
#[tactic(auto, using(crate::proofs::Absolute::abs_pattern, crate::proofs::Absolute::abs_bits, crate::proofs::Absolute::abs_nan))]
pub fn abs_f32(x: f32) -> f32
    ensures { result ≡ abs_of x }
{
    if x.is_nan() {
        x
    } else {
        f32::from_bits(x.to_bits() % 0x8000_0000)
    }
}
