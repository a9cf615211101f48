// The static library for the counter's Rust and for C: it exports the three functions of the crate bowunte under their names.
#![tactic(auto)]

ghost use Rattle.std.specs.Prelude.{◌≡◌, length};
ghost use Rattle.queue.specs.Coalescing.{fnv1a};
ghost use Rattle.control.specs.RateController.{decreased};
ghost use Rattle.tape.specs.Run.{tape_text};
ghost use Rattle.bowunte.specs.Doors.{hash_answer, decrease_answer, tape_answer, out_left, lines_left_by};

// Stays: [1] the C interface: C gets the answer as a number.
// The FNV-1a hash, 64 bits, of the bytes; 8 where `out` is shorter than 8 bytes.
#[unsafe(no_mangle)]
pub extern "C" fn bowunte_key_hash(bytes: &[u8], out: &mut [u8]) -> u32
    ensures value { result ≡ hash_answer (length out.old) }
    ensures out_after { out.new ≡ out_left (hash_answer (length out.old)) out.old (fnv1a bytes.now) }
{
    bowunte::bowunte_key_hash(bytes, out)
}

// Stays: [1] the C interface: C gets the answer as a number.
// A rate after a decrease by a factor, not below the least rate; 2, 6 or 8 where it is turned down.
#[unsafe(no_mangle)]
pub extern "C" fn bowunte_rate_decrease(
    rate: u32,
    factor: f32,
    least_rate: u32,
    out: &mut [u8],
) -> u32
    ensures value { result ≡ decrease_answer rate factor least_rate (length out.old) }
    ensures out_after { out.new ≡ out_left (decrease_answer rate factor least_rate (length out.old)) out.old (decreased rate factor least_rate) }
{
    bowunte::bowunte_rate_decrease(rate, factor, least_rate, out)
}

// Stays: [1] the C interface: C gets the answer as a number.
// The lines of a tape, and their length; 8 where `lines` is shorter than 24 bytes and 192 for each word, or `out` than 8.
#[unsafe(no_mangle)]
pub extern "C" fn bowunte_tape_run(bytes: &[u8], lines: &mut [u8], out: &mut [u8]) -> u32
    ensures value { result ≡ tape_answer (length bytes.now) (length lines.old) (length out.old) }
    ensures lines_after { lines.new ≡ lines_left_by (tape_answer (length bytes.now) (length lines.old) (length out.old)) bytes.now lines.old }
    ensures out_after { out.new ≡ out_left (tape_answer (length bytes.now) (length lines.old) (length out.old)) out.old (length (tape_text bytes.now)) }
{
    bowunte::bowunte_tape_run(bytes, lines, out)
}
