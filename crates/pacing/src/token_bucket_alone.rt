// A token bucket used alone: the public calls on it, under a call count and a last time of its own.
ghost use Rattle.std.specs.Prelude.{◌≡◌};
ghost use Rattle.config.specs.Refusal.{verdict_of};
ghost use Rattle.pacing.specs.TokenBucketAlone.{rate_out, is_beyond, making_checks, byte_checks, rate_checks, capacity_checks, made_alone, refilled_alone, tried_alone, forced_alone, rated_alone, resized_alone, told_alone};

use crate::token_bucket::TokenBucket;
use config::alone::{Alone, Left};
use config::ledger::{Ledger, check_time};
use config::refusal::{LARGEST_RATE, Refusal};

// Whether a rate lies outside 1 to 1,000,000,000.
pub(crate) fn rate_out(rate_bps: u32) -> bool
    ensures { result ≡ rate_out rate_bps }
{
    rate_bps < 1 || LARGEST_RATE < rate_bps
}

// Whether a capacity or a byte count lies beyond 1,000,000,000.
fn is_beyond(bytes: u64) -> bool
    ensures { result ≡ is_beyond bytes }
{
    u64::from(LARGEST_RATE) < bytes
}

// 6 or 7, for a rate and a capacity at a time.
fn check_making(time: u64, rate_bps: u32, capacity: u64) -> Result<(), Refusal>
    ensures { result ≡ verdict_of (making_checks time rate_bps capacity) }
{
    Refusal::RateBeyond.when(rate_out(rate_bps) || is_beyond(capacity))?;
    check_time(time)
}

// 6, 7, 17 or 11, for a byte count at a time.
fn check_bytes(ledger: Ledger, time: u64, bytes: u64) -> Result<(), Refusal>
    ensures { result ≡ verdict_of (byte_checks ledger time bytes) }
{
    Refusal::RateBeyond.when(is_beyond(bytes))?;
    ledger.check_timed(time)
}

// 6, 7, 17 or 11, for a rate at a time.
fn check_rate(ledger: Ledger, time: u64, rate_bps: u32) -> Result<(), Refusal>
    ensures { result ≡ verdict_of (rate_checks ledger time rate_bps) }
{
    Refusal::RateBeyond.when(rate_out(rate_bps))?;
    ledger.check_timed(time)
}

// 6 or 17, for a capacity.
fn check_capacity(ledger: Ledger, capacity: u64) -> Result<(), Refusal>
    ensures { result ≡ verdict_of (capacity_checks ledger capacity) }
{
    Refusal::RateBeyond.when(is_beyond(capacity))?;
    ledger.check_counted()
}

// A full bucket: rate 1 to 1,000,000,000, capacity at most 1,000,000,000.
pub fn new(time: u64, rate_bps: u32, capacity: u64) -> Result<Alone<TokenBucket>, Refusal>
    ensures { result ≡ made_alone time rate_bps capacity }
{
    check_making(time, rate_bps, capacity)?;
    Ok(Alone::new(time, TokenBucket::new(time, rate_bps, capacity)))
}

pub fn refill(alone: Alone<TokenBucket>, time: u64) -> Left<Alone<TokenBucket>, ()>
    ensures { result ≡ refilled_alone alone time }
{
    let ledger = alone.ledger;
    alone.after(
        ledger.check_timed(time),
        ledger.moved(time),
        |bucket| (bucket.refill(time), ()),
    )
}

// Whether the tokens were there and were taken.
// Stays: [2, 5] the public calls on a bucket are those of the Rust, each by a time and a count of bytes; what they share is `after`, and the step is all that differs.
pub fn try_consume(
    alone: Alone<TokenBucket>,
    time: u64,
    bytes: u64,
) -> Left<Alone<TokenBucket>, bool>
    ensures { result ≡ tried_alone alone time bytes }
{
    let ledger = alone.ledger;
    alone.after(
        check_bytes(ledger, time, bytes),
        ledger.moved(time),
        |bucket| bucket.try_consume(time, bytes),
    )
}

pub fn force_consume(
    alone: Alone<TokenBucket>,
    time: u64,
    bytes: u64,
) -> Left<Alone<TokenBucket>, ()>
    ensures { result ≡ forced_alone alone time bytes }
{
    let ledger = alone.ledger;
    alone.after(
        check_bytes(ledger, time, bytes),
        ledger.moved(time),
        |bucket| (bucket.force_consume(time, bytes), ()),
    )
}

pub fn set_rate(alone: Alone<TokenBucket>, time: u64, rate_bps: u32) -> Left<Alone<TokenBucket>, ()>
    ensures { result ≡ rated_alone alone time rate_bps }
{
    let ledger = alone.ledger;
    alone.after(
        check_rate(ledger, time, rate_bps),
        ledger.moved(time),
        |bucket| (bucket.set_rate(time, rate_bps), ()),
    )
}

// Takes no time, as the Rust's reads no clock.
pub fn set_capacity(alone: Alone<TokenBucket>, capacity: u64) -> Left<Alone<TokenBucket>, ()>
    ensures { result ≡ resized_alone alone capacity }
{
    let ledger = alone.ledger;
    alone.after(
        check_capacity(ledger, capacity),
        ledger.counted(),
        |bucket| (bucket.set_capacity(capacity), ()),
    )
}

// The nanoseconds until the tokens are there.
pub fn time_until_available(
    alone: Alone<TokenBucket>,
    time: u64,
    bytes: u64,
) -> Left<Alone<TokenBucket>, u64>
    ensures { result ≡ told_alone alone time bytes }
{
    let ledger = alone.ledger;
    alone.after(
        check_bytes(ledger, time, bytes),
        ledger.moved(time),
        |bucket| bucket.time_until_available(time, bytes),
    )
}
