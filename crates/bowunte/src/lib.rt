// The three functions on numbers and byte slices that the crate bowunte_c hands to the counter's Rust and to C. Each returns the answer number
// and writes its result, 8 little-endian bytes, to a lent slice, which is left as it is where the call is turned down.
#![tactic(auto)]

ghost use Rattle.std.specs.Prelude.{◌≡◌, length};
ghost use Rattle.config.specs.Refusal.{verdict_of};
ghost use Rattle.queue.specs.Coalescing.{fnv1a};
ghost use Rattle.control.specs.RateController.{decreased};
ghost use Rattle.tape.specs.Run.{tape_text};
ghost use Rattle.bowunte.specs.Doors.{shown, told_or, told_number, told_left, result_checks, rate_out, decrease_checks, tape_checks, hash_answer, decrease_answer, tape_answer, out_left, lines_left_by};

use config::answer::Numbered;
use config::config::factor_out;
use config::refusal::{ACCEPTED, LARGEST_RATE, Refusal};
use control::rate_controller::decrease;
use queue::coalescing::hash_bytes;

// The bytes of a result.
const RESULT_BYTES: usize = 8;

// A result as 8 little-endian bytes, in a slice that has room for them.
#[tactic(auto, unfolding(crate::specs::Doors::shown))]
fn put_result(out: &mut [u8], number: u64)
    ensures { out.new ≡ shown out.old number }
{
    if RESULT_BYTES <= out.len() {
        out[..RESULT_BYTES].copy_from_slice(&number.to_le_bytes());
    }
}

// The answer number, and the result written where the call was accepted.
fn tell(answer: Result<u64, Refusal>, out: &mut [u8]) -> u32
    ensures value { result ≡ told_number answer }
    ensures out_after { out.new ≡ told_left answer out.old }
{
    match answer {
        Ok(number) => {
            put_result(out, number);
            u32::from(ACCEPTED)
        }
        Err(refusal) => u32::from(refusal.number()),
    }
}

// The check of a slice for a result: 8.
#[tactic(auto, unfolding(config::specs::Refusal::verdict_of))]
fn check_result(room: usize) -> Result<(), Refusal>
    ensures { result ≡ verdict_of (result_checks room) }
{
    Refusal::BufferTooShort.when(room < RESULT_BYTES)
}

// Whether a rate is not from the least rate, itself at least 1, to 1,000,000,000.
#[tactic(auto, unfolding(crate::specs::Doors::rate_out))]
fn rate_out(rate: u32, least_rate: u32) -> bool
    ensures { result ≡ rate_out rate least_rate }
{
    least_rate < 1 || rate < least_rate || LARGEST_RATE < rate
}

fn hash(bytes: &[u8], room: usize) -> Result<u64, Refusal>
    ensures { result ≡ told_or (verdict_of (result_checks room)) (fnv1a bytes.now) }
{
    check_result(room)?;
    Ok(hash_bytes(bytes))
}

// The checks of a decrease are 2, 6 and 8.
#[tactic(auto, unfolding(config::specs::Refusal::verdict_of))]
fn decreased_rate(rate: u32, factor: f32, least_rate: u32, room: usize) -> Result<u64, Refusal>
    ensures { result ≡ told_or (verdict_of (decrease_checks rate factor least_rate room)) (decreased rate factor least_rate) }
{
    Refusal::SettingsBeyond.when(factor_out(factor))?;
    Refusal::RateBeyond.when(rate_out(rate, least_rate))?;
    check_result(room)?;
    Ok(u64::from(decrease(rate, factor, least_rate)))
}

#[tactic(auto, unfolding(config::specs::Refusal::verdict_of, crate::specs::Doors::tape_answer, crate::specs::Doors::lines_left_by, tape::specs::Run::ran_tape, tape::specs::Run::lines_left))]
fn run_tape(bytes: &[u8], lines: &mut [u8], room: usize) -> Result<u64, Refusal>
    ensures value { result ≡ told_or (verdict_of (tape_checks (length bytes.now) (length lines.old) room)) (length (tape_text bytes.now)) }
    ensures lines_after { lines.new ≡ lines_left_by (tape_answer (length bytes.now) (length lines.old) room) bytes.now lines.old }
{
    check_result(room)?;
    tape::run::run(bytes, lines)
}

// Stays: [1] the C interface: bowunte_c hands the number on to C.
// The FNV-1a hash, 64 bits, of the bytes; 8 where `out` is shorter than 8 bytes.
#[tactic(auto, using(crate::proofs::Results::told_number_is, crate::proofs::Results::told_left_is), unfolding(crate::specs::Doors::hash_answer))]
pub fn bowunte_key_hash(bytes: &[u8], out: &mut [u8]) -> u32
    ensures value { result ≡ hash_answer (length out.old) }
    ensures out_after { out.new ≡ out_left (hash_answer (length out.old)) out.old (fnv1a bytes.now) }
{
    tell(hash(bytes, out.len()), out)
}

// Stays: [1] the C interface: bowunte_c hands the number on to C.
// A rate after a decrease by a factor, not below the least rate; 2, 6 or 8 where it is turned down.
#[tactic(auto, using(crate::proofs::Results::told_number_is, crate::proofs::Results::told_left_is), unfolding(crate::specs::Doors::decrease_answer))]
pub fn bowunte_rate_decrease(rate: u32, factor: f32, least_rate: u32, out: &mut [u8]) -> u32
    ensures value { result ≡ decrease_answer rate factor least_rate (length out.old) }
    ensures out_after { out.new ≡ out_left (decrease_answer rate factor least_rate (length out.old)) out.old (decreased rate factor least_rate) }
{
    tell(decreased_rate(rate, factor, least_rate, out.len()), out)
}

// Stays: [1] the C interface: bowunte_c hands the number on to C.
// The lines of a tape, and their length; 8 where `lines` is shorter than 24 bytes and 192 for each word, or `out` than 8.
#[tactic(auto, using(crate::proofs::Results::told_number_is, crate::proofs::Results::told_left_is), unfolding(crate::specs::Doors::tape_answer))]
pub fn bowunte_tape_run(bytes: &[u8], lines: &mut [u8], out: &mut [u8]) -> u32
    ensures value { result ≡ tape_answer (length bytes.now) (length lines.old) (length out.old) }
    ensures lines_after { lines.new ≡ lines_left_by (tape_answer (length bytes.now) (length lines.old) (length out.old)) bytes.now lines.old }
    ensures out_after { out.new ≡ out_left (tape_answer (length bytes.now) (length lines.old) (length out.old)) out.old (length (tape_text bytes.now)) }
{
    tell(run_tape(bytes, lines, out.len()), out)
}
