// A writer pacer used alone, with its own call count and last time: the public calls.
ghost use Rattle.std.specs.Prelude.{◌≡◌, length};
ghost use Rattle.config.specs.Refusal.{verdict_of};
ghost use Rattle.config.specs.declared.config.Priority.TheVariants.{P2};
ghost use Rattle.pacing.specs.WriterPacerAlone.{default_key, making_checks, hand_in_checks, send_checks, made_alone, handed_alone, pool_handed, sent_alone, rated_alone};

use crate::send_action::{SendAction, store};
use crate::token_bucket_alone::rate_out;
use crate::writer_pacer::{PacerConfig, WriterPacer};
use config::alone::{Alone, Left};
use config::config::{CongestionConfig, Priority};
use config::ledger::{Ledger, check_time};
use config::refusal::Refusal;
use queue::entry::InstanceKey;
use queue::fate::Fate;
use queue::pool;
use queue::pool::{limits_of, slots};

// 3, 7, 8, 17, 11 or 13, for a hand-in of `length` bytes; the pool must have `slots` slots.
pub fn check_hand_in(
    ledger: Ledger,
    enabled: bool,
    slots: usize,
    pool_length: usize,
    time: u64,
    length: usize,
) -> Result<(), Refusal>
    ensures { result ≡ verdict_of (hand_in_checks ledger enabled slots pool_length time length) }
{
    Refusal::RecordTooLong.when(pool::SLOT < length)?;
    check_send(ledger, slots, pool_length, time)?;
    Refusal::Disabled.when(!enabled)
}

// 7, 8, 17 or 11, for a send attempt.
pub fn check_send(
    ledger: Ledger,
    slots: usize,
    pool_length: usize,
    time: u64,
) -> Result<(), Refusal>
    ensures { result ≡ verdict_of (send_checks ledger slots pool_length time) }
{
    check_time(time)?;
    Refusal::BufferTooShort.when(pool::is_short(pool_length, slots))?;
    ledger.check_timed(time)
}

// 1, 2, 6 or 7, for settings and an initial rate at a time.
fn check_making(config: CongestionConfig, time: u64, rate_bps: u32) -> Result<(), Refusal>
    ensures { result ≡ verdict_of (making_checks config time rate_bps) }
{
    config.check()?;
    Refusal::RateBeyond.when(rate_out(rate_bps))?;
    check_time(time)
}

// A pacer, and what it reads of the settings; its pool has the pacer's slots alone.
#[derive(Clone, Copy)]
pub struct ConfiguredPacer {
    pub config: PacerConfig,
    pub pacer: WriterPacer<128, 512, 128>,
}

// A pacer with empty queues and a full bucket; its first rate is 1 to 1,000,000,000.
#[tactic(auto, using(crate::proofs::Making::made_always), unfolding(crate::specs::WriterPacerAlone::made_alone))]
pub fn with_rate(
    time: u64,
    config: CongestionConfig,
    initial_rate_bps: u32,
) -> Result<Alone<ConfiguredPacer>, Refusal>
    ensures { result ≡ made_alone time config initial_rate_bps }
{
    check_making(config, time, initial_rate_bps)?;
    let limits = limits_of(config);
    // There is room for the limits of settings that are taken, so that this refuses nothing.
    let pacer = WriterPacer::new(time, limits, initial_rate_bps).ok_or(Refusal::SettingsBeyond)?;
    let config = PacerConfig::from(config);
    Ok(Alone::new(time, ConfiguredPacer { config, pacer }))
}

// A record of a class; P2's go under the key of the topic "default".
// Stays: [5] the public calls are those of the Rust, each by a time, the pool that is lent to it and a sample.
pub fn enqueue(
    mut alone: Alone<ConfiguredPacer>,
    time: u64,
    pool: &mut [u8],
    class: Priority,
    sample: &[u8],
) -> Left<Alone<ConfiguredPacer>, Fate>
    ensures value { result ≡ handed_alone alone (length pool.old) time class default_key (length sample.now) }
    ensures pool_after { pool.new ≡ pool_handed alone pool.old time class default_key sample.now }
{
    let key = InstanceKey::keyless(b"default");
    let answer = hand_in(&mut alone, time, pool, class, key, sample);
    Left {
        state: alone,
        answer,
    }
}

// A P2 record under a key.
pub fn enqueue_p2_keyed(
    mut alone: Alone<ConfiguredPacer>,
    time: u64,
    pool: &mut [u8],
    key: InstanceKey,
    sample: &[u8],
) -> Left<Alone<ConfiguredPacer>, Fate>
    ensures value { result ≡ handed_alone alone (length pool.old) time P2 key (length sample.now) }
    ensures pool_after { pool.new ≡ pool_handed alone pool.old time P2 key sample.now }
{
    let answer = hand_in(&mut alone, time, pool, Priority::P2, key, sample);
    Left {
        state: alone,
        answer,
    }
}

// A record of a class, in place: its bytes go to its slot in the pool, and turned down all is left as it was. The key is P2's.
fn hand_in(
    alone: &mut Alone<ConfiguredPacer>,
    time: u64,
    pool: &mut [u8],
    class: Priority,
    key: InstanceKey,
    sample: &[u8],
) -> Result<Fate, Refusal>
    ensures value { handed_alone alone.old (length pool.old) time class key (length sample.now) ≡ record { state = alone.new; answer = result } }
    ensures pool_after { pool.new ≡ pool_handed alone.old pool.old time class key sample.now }
{
    let config = alone.inner.config;
    check_hand_in(
        alone.ledger,
        config.enabled,
        slots(config.limits),
        pool.len(),
        time,
        sample.len(),
    )?;
    alone.ledger = alone.ledger.moved(time);
    let kept = alone.inner.pacer.hand_in(class, key, sample.len() as u64);
    store(pool, config.limits, 0, class, kept, sample);
    Ok(kept.fate)
}

// What is to be sent next; `send_action::sent_bytes` shows the bytes of a sent record.
pub fn try_send(
    mut alone: Alone<ConfiguredPacer>,
    time: u64,
    pool: &[u8],
) -> Left<Alone<ConfiguredPacer>, SendAction>
    ensures { result ≡ sent_alone alone (length pool.now) time }
{
    let answer = send(&mut alone, time, pool.len());
    Left {
        state: alone,
        answer,
    }
}

// A send attempt in place, from a pool of so many bytes; turned down all is left as it was.
#[tactic(auto, unfolding(crate::specs::WriterPacerAlone::sent_alone))]
fn send(
    alone: &mut Alone<ConfiguredPacer>,
    time: u64,
    pool_length: usize,
) -> Result<SendAction, Refusal>
    ensures { sent_alone alone.old pool_length time ≡ record { state = alone.new; answer = result } }
{
    let config = alone.inner.config;
    check_send(alone.ledger, slots(config.limits), pool_length, time)?;
    alone.ledger = alone.ledger.moved(time);
    Ok(alone.inner.pacer.send_if(config.enabled, time))
}

// The rate is held to the settings' range; works with control off too.
pub fn set_rate(
    mut alone: Alone<ConfiguredPacer>,
    time: u64,
    rate_bps: u32,
) -> Left<Alone<ConfiguredPacer>, ()>
    ensures { result ≡ rated_alone alone time rate_bps }
{
    let answer = change_rate(&mut alone, time, rate_bps);
    Left {
        state: alone,
        answer,
    }
}

// Another rate in place; turned down all is left as it was.
fn change_rate(alone: &mut Alone<ConfiguredPacer>, time: u64, rate_bps: u32) -> Result<(), Refusal>
    ensures { rated_alone alone.old time rate_bps ≡ record { state = alone.new; answer = result } }
{
    alone.ledger.check_rate(time, rate_bps)?;
    alone.ledger = alone.ledger.moved(time);
    let config = alone.inner.config;
    alone.inner.pacer.set_rate(config, time, rate_bps);
    Ok(())
}
