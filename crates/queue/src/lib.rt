// What waits to be sent: queues of records in rings of slots, seen as lists, the coalescing of background records, and the lent pool of their bytes.
#![tactic(auto, unfolding( //
config::specs::Refusal::verdict_of, //
crate::specs::Coalescing::inserted, //
crate::specs::Coalescing::joined_all, //
crate::specs::Coalescing::joined_hash, //
crate::specs::Coalescing::popped_front, //
crate::specs::CoalescingAlone::inserted_alone, //
crate::specs::CoalescingAlone::made_alone, //
crate::specs::CoalescingAlone::pool_inserted, //
crate::specs::CoalescingAlone::popped_alone, //
crate::specs::Pool::copied, //
crate::specs::Pool::is_short, //
crate::specs::Pool::piece, //
crate::specs::Pool::put, //
crate::specs::Pool::slot_start, //
crate::specs::Pool::stored, //
crate::specs::Waiting::joined, //
crate::specs::Waiting::joins, //
crate::specs::Waiting::next_slot, //
crate::specs::Waiting::roomy //
))]

pub mod coalescing;
pub mod coalescing_alone;
pub mod entry;
pub mod fate;
pub mod pool;
pub mod queue;
#[cfg(test)]
mod tests;
