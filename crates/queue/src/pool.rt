// The bytes of waiting records, in a lent pool of slots of 1,472 bytes.
ghost use Rattle.std.specs.Prelude.{◌≡◌, ◌+◌, ◌*◌, ◌<◌};
ghost use Rattle.queue.specs.Pool.{limit_of, limits_of, slots_of, slots_before, slot_start, is_short, copied, stored, piece};

use config::config::{CongestionConfig, Priority};
use config::per_class::PerClass;

// The bytes of a slot: the longest record.
pub const SLOT: usize = 1472;

// How many slots each queue of a pacer has.
pub type Limits = PerClass<u16>;

// A limit of the settings in 16 bits.
pub(crate) fn limit_of(limit: usize) -> u16
    ensures { result ≡ limit_of limit }
{
    limit.min(65535) as u16
}

// The queue limits of the settings.
pub fn limits_of(config: CongestionConfig) -> Limits
    ensures { result ≡ limits_of config }
{
    PerClass {
        p0: limit_of(config.max_queue_p0),
        p1: limit_of(config.max_queue_p1),
        p2: limit_of(config.max_queue_p2),
    }
}

// The slots of a pacer.
pub fn slots(limits: Limits) -> usize
    ensures value { result ≡ slots_of limits }
    ensures upper_bound { result < 200000 }
{
    limits.p0 as usize + limits.p1 as usize + limits.p2 as usize
}

// The slots of so many pacers.
fn slots_of(limits: Limits, pacers: u8) -> usize
    ensures value { result ≡ pacers * slots_of limits }
    ensures upper_bound { result < 100000000 }
{
    pacers as usize * slots(limits)
}

// The slots of a pacer that lie before a queue's.
fn slots_before(limits: Limits, class: Priority) -> usize
    ensures value { result ≡ slots_before limits class }
    ensures upper_bound { result < 200000 }
{
    match class {
        Priority::P0 => 0,
        Priority::P1 => limits.p0 as usize,
        Priority::P2 => limits.p0 as usize + limits.p1 as usize,
    }
}

// Where the slot of a queue of pacer i begins in the pool.
pub fn slot_start(limits: Limits, i: u8, class: Priority, slot: u16) -> usize
    ensures { result ≡ slot_start limits i class slot }
{
    (slots_of(limits, i) + slots_before(limits, class) + slot as usize) * SLOT
}

// The record at the front of the slot; the rest of the slot stays.
fn copy_record(slot: &mut [u8], sample: &[u8])
    ensures { slot.new ≡ copied slot.old sample.now }
{
    if slot.len() < sample.len() {
        return;
    }
    let mut i: usize = 0;
    // Stays: [3] std's `copy_from_slice` asks the C library for `memmove`, which the static library needs nowhere else.
    while i < sample.len() {
        slot[i] = sample[i];
        i += 1;
    }
}

// The record in the slot that begins at a place of the pool: the copier is lent that slot and nothing else.
// Where the slot does not lie in the pool, nothing is written.
#[tactic(auto, using(crate::proofs::Pools::stored_home), unfolding(crate::specs::Pool::stored))]
pub fn store(pool: &mut [u8], start: usize, sample: &[u8])
    ensures { pool.new ≡ stored pool.old start sample.now }
{
    if start <= pool.len() && SLOT <= pool.len() - start {
        copy_record(&mut pool[start..start + SLOT], sample);
    }
}

// Whether a pool of so many bytes has fewer slots than are needed.
pub fn is_short(pool_length: usize, slots: usize) -> bool
    ensures { result ≡ is_short pool_length slots }
{
    pool_length / SLOT < slots
}

// The record that lies at a place of the pool: the middle part from there on, as long as it is, cut at the pool's end.
// Stays: [6] place and length are those of the record that is asked for, which may lie past the pool's end: no slice is there to lend before they are cut.
pub fn shown(pool: &[u8], start: usize, length: usize) -> &[u8]
    ensures { result.now ≡ piece pool.now start length }
{
    let a = start.min(pool.len());
    let n = length.min(pool.len() - a);
    &pool[a..a + n]
}
