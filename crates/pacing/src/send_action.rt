// What a send attempt comes to, and the bytes of waiting records: where a hand-in stores them, and where a sent one's lie.
ghost use Rattle.std.specs.Prelude.{◌≡◌};
ghost use Rattle.pacing.specs.WriterPacer.{action_number, hand_in_stored, sent_bytes};

use config::answer::Numbered;
use config::config::Priority;
use config::refusal::ACCEPTED;
use queue::fate::Kept;
use queue::pool;
use queue::pool::{Limits, slot_start};

// A record of a class, its slot, sequence and length, and whether it went without tokens; nothing that waits; or the nanoseconds to wait for
// the first that does.
#[derive(Clone, Copy, Debug, PartialEq, Eq)]
pub enum SendAction {
    Send {
        class: Priority,
        slot: u16,
        sequence: u64,
        length: u64,
        forced: bool,
    },
    Empty,
    RateLimited(u64),
}

// A send attempt that is not turned down is accepted, whatever it comes to.
impl Numbered for SendAction {
    ghost number_is = { action_number };

    fn number(&self) -> u8 {
        ACCEPTED
    }
}

// The bytes of a hand-in to pacer i go to its slot; those of a record that is refused go nowhere.
// Stays: [5] pool and sample are lent for this call alone; a struct of the two and the class would be made at each call to be taken apart again.
pub fn store(pool: &mut [u8], limits: Limits, i: u8, class: Priority, kept: Kept, sample: &[u8])
    ensures { pool.new ≡ hand_in_stored pool.old limits i class kept sample.now }
{
    if !kept.fate.is_full() {
        pool::store(pool, slot_start(limits, i, class, kept.slot), sample);
    }
}

// The bytes of a record that pacer i sent: the middle part of the pool where it was kept.
pub fn sent_bytes(limits: Limits, i: u8, action: SendAction, pool: &[u8]) -> &[u8]
    ensures { result.now ≡ sent_bytes limits i action pool.now }
{
    match action {
        SendAction::Send {
            class,
            slot,
            length,
            ..
        } => pool::shown(pool, slot_start(limits, i, class, slot), length as usize),
        SendAction::Empty | SendAction::RateLimited(_) => pool::shown(pool, 0, 0),
    }
}
