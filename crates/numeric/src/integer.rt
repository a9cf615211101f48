// The product that wraps where the language's own would overflow.
ghost use Rattle.std.specs.Prelude.{◌≡◌, ◌*◌, ◌%◌, ◌^◌};

// The product modulo 2^64, for the key hash: Rust's `wrapping_mul`.
// Of the four products of halves, the two mixed ones count only modulo 2^32 and the upper one not at all.
#[tactic(auto, using(crate::proofs::Products::wrapped))]
pub fn wrapping_mul(a: u64, b: u64) -> u64
    ensures { result ≡ a * b % 2 ^ 64 }
{
    let mixed = (a / 4294967296) * (b % 4294967296) % 4294967296
        + (a % 4294967296) * (b / 4294967296) % 4294967296;
    std::num::wrapping_add_u64(
        mixed % 4294967296 * 4294967296,
        (a % 4294967296) * (b % 4294967296),
    )
}
