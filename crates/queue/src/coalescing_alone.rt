// A coalescing queue used alone, with its own call count: the public calls. The Rust's queue is steered by no time, so none is taken.
ghost use Rattle.std.specs.Prelude.{◌≡◌, length};
ghost use Rattle.config.specs.Refusal.{verdict_of};
ghost use Rattle.queue.specs.CoalescingAlone.{front_in, making_checks, insert_checks, pop_checks, made_alone, inserted_alone, pool_inserted, popped_alone, peeked_alone, shown_bytes};

use crate::coalescing::CoalescingQueue;
use crate::entry::InstanceKey;
use crate::pool;
use config::alone::{Alone, Left};
use config::ledger::Ledger;
use config::refusal::Refusal;

// At most 128 samples wait.
const MOST_SAMPLES: usize = 128;

// A sample that waits: its slot and its entry.
#[derive(Clone, Copy, Debug, PartialEq, Eq)]
pub struct Sample {
    pub slot: u16,
    pub sequence: u64,
    pub length: u64,
    pub key: InstanceKey,
}

// 2, for a limit outside 1 to 128.
fn check_making(max_instances: usize) -> Result<(), Refusal>
    ensures { result ≡ verdict_of (making_checks max_instances) }
{
    Refusal::SettingsBeyond.when(max_instances < 1 || MOST_SAMPLES < max_instances)
}

// 8 or 17.
fn check_pop(ledger: Ledger, limit: u16, pool_length: usize) -> Result<(), Refusal>
    ensures { result ≡ verdict_of (pop_checks ledger limit pool_length) }
{
    Refusal::BufferTooShort.when(pool::is_short(pool_length, limit as usize))?;
    ledger.check_counted()
}

// 3, 8 or 17.
fn check_insert(
    ledger: Ledger,
    limit: u16,
    pool_length: usize,
    length: usize,
) -> Result<(), Refusal>
    ensures { result ≡ verdict_of (insert_checks ledger limit pool_length length) }
{
    Refusal::RecordTooLong.when(pool::SLOT < length)?;
    check_pop(ledger, limit, pool_length)
}

// The oldest sample of a queue, with its slot.
fn front(queue: &CoalescingQueue<MOST_SAMPLES>) -> Option<Sample>
    ensures { result ≡ front_in queue.now }
{
    let oldest = queue.first()?;
    Some(Sample {
        slot: queue.slot(0),
        sequence: oldest.entry.sequence,
        length: oldest.entry.length,
        key: oldest.key,
    })
}

// An empty queue of 1 to 128 samples; any other limit is refused with 2.
pub fn new(max_instances: usize) -> Result<Alone<CoalescingQueue<MOST_SAMPLES>>, Refusal>
    ensures { result ≡ made_alone max_instances }
{
    check_making(max_instances)?;
    let limit = pool::limit_of(max_instances);
    let queue = CoalescingQueue::new(limit).ok_or(Refusal::SettingsBeyond)?;
    Ok(Alone::new(0, queue))
}

// A sample under a key; its bytes go to its slot in the pool.
pub fn insert(
    alone: Alone<CoalescingQueue<MOST_SAMPLES>>,
    pool: &mut [u8],
    key: InstanceKey,
    sample: &[u8],
) -> Left<Alone<CoalescingQueue<MOST_SAMPLES>>, ()>
    ensures value { result ≡ inserted_alone alone (length pool.old) key (length sample.now) }
    ensures pool_after { pool.new ≡ pool_inserted alone pool.old key sample.now }
{
    let ledger = alone.ledger;
    let verdict = check_insert(ledger, alone.inner.limit(), pool.len(), sample.len());
    let left = alone.changed(verdict, ledger.counted(), |queue| {
        queue.insert(key, sample.len() as u64)
    });
    if let Ok(kept) = left.answer {
        pool::store(pool, kept.slot as usize * pool::SLOT, sample);
    }
    Left {
        state: left.state,
        answer: verdict,
    }
}

// The oldest sample, whose bytes `sample_bytes` shows; an empty queue gives none.
pub fn pop_front(
    alone: Alone<CoalescingQueue<MOST_SAMPLES>>,
    pool: &[u8],
) -> Left<Alone<CoalescingQueue<MOST_SAMPLES>>, Option<Sample>>
    ensures { result ≡ popped_alone alone (length pool.now) }
{
    let ledger = alone.ledger;
    let verdict = check_pop(ledger, alone.inner.limit(), pool.len());
    alone.changed(verdict, ledger.counted(), |queue| {
        let oldest = front(queue);
        queue.pop_front();
        oldest
    })
}

// The oldest sample, which stays. Reading is no call: it is not counted.
pub fn peek_front(alone: &Alone<CoalescingQueue<MOST_SAMPLES>>) -> Option<Sample>
    ensures { result ≡ peeked_alone alone.now }
{
    front(&alone.inner)
}

// The bytes of a sample: the middle part of the pool where it is kept.
pub fn sample_bytes(front: Option<Sample>, pool: &[u8]) -> &[u8]
    ensures { result.now ≡ shown_bytes front pool.now }
{
    match front {
        None => pool::shown(pool, 0, 0),
        Some(sample) => pool::shown(
            pool,
            sample.slot as usize * pool::SLOT,
            sample.length as usize,
        ),
    }
}
