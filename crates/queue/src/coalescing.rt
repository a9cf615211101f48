// The coalescing queue for background records: under one key only the latest is kept. And the hash that keys are made with.
ghost use Rattle.std.specs.Prelude.{◌≡◌, fold, length, slice_get};
ghost use Rattle.queue.specs.Coalescing.{Coalescing, fnv1a, joined_hash, joined_all, new_queue, made, restarted, found, inserted, popped_front, replaced_at, joined_tail, length_of, bytes_then, stats_in};
ghost use Rattle.queue.specs.Waiting.{first, limit_held, slot_of};

use crate::entry::{Entry, InstanceKey, KeyedEntry};
use crate::fate::{Fate, Kept};
use crate::queue;
use crate::queue::Queue;
use std::marker::Model;

// FNV-1a, 64 bits: the offset basis and the prime.
const FNV1A_OFFSET_BASIS: u64 = 0xcbf2_9ce4_8422_2325;

const FNV1A_PRIME: u64 = 0x0100_0000_01b3;

// FNV-1a: each byte is joined by xor, then the product with the prime is taken modulo 2^64. Eight bytes go in a turn, then the rest: a byte a turn
// takes 1.6 times as long.
#[tactic(auto, using(crate::proofs::Keys::joined_chunks))]
pub fn hash_bytes(bytes: &[u8]) -> u64
    ensures { result ≡ fnv1a bytes.now }
{
    let (eights, rest) = bytes.as_chunks::<8>();
    join_rest(join_eights(FNV1A_OFFSET_BASIS, eights), rest)
}

// A hash with every eight bytes more.
fn join_eights(before: u64, eights: &[[u8; 8]]) -> u64
    ensures { result ≡ fold joined_all before eights.now }
{
    eights
        .iter()
        .fold(before, |hash, eight| join_eight(hash, eight))
}

// A hash with every byte more.
fn join_rest(before: u64, bytes: &[u8]) -> u64
    ensures { result ≡ joined_all before bytes.now }
{
    bytes.iter().fold(before, |hash, byte| join(hash, *byte))
}

// A hash with eight bytes more; of every second product the factors are swapped.
#[tactic(auto, using(crate::proofs::Keys::eight_joined))]
fn join_eight(hash: u64, eight: &[u8; 8]) -> u64
    ensures { result ≡ joined_all hash eight.now }
{
    let hash = join_swapped(join(hash, eight[0]), eight[1]);
    let hash = join_swapped(join(hash, eight[2]), eight[3]);
    let hash = join_swapped(join(hash, eight[4]), eight[5]);
    join_swapped(join(hash, eight[6]), eight[7])
}

// A hash with one byte more.
fn join(hash: u64, byte: u8) -> u64
    ensures { result ≡ joined_hash hash byte }
{
    numeric::integer::wrapping_mul(hash ^ (byte as u64), FNV1A_PRIME)
}

// The same with the factors swapped: a compiler that sees one constant in the same place of every product splits the product in halves;
// with both orders it is one instruction.
fn join_swapped(hash: u64, byte: u8) -> u64
    ensures { result ≡ joined_hash hash byte }
{
    numeric::integer::wrapping_mul(FNV1A_PRIME, hash ^ (byte as u64))
}

// The queue, its own sequence numbers, the samples replaced and pushed out, and the bytes that wait. At most N samples wait.
#[derive(Clone, Copy)]
pub struct CoalescingQueue<const N: usize> {
    queue: Queue<KeyedEntry, N>,
    next_sequence: u64,
    coalesced: u64,
    dropped: u64,
    total_bytes: u64,
}

impl<const N: usize> Model for CoalescingQueue<N> {
    ghost Value = { Coalescing };

    ghost view = { λ q. record { waiting = q.queue; next_sequence = q.next_sequence; coalesced = q.coalesced; dropped = q.dropped; total_bytes = q.total_bytes } };

    ghost inverse = { λ v. record { queue = v.waiting; next_sequence = v.next_sequence; coalesced = v.coalesced; dropped = v.dropped; total_bytes = v.total_bytes } };
}

// The Rust's statistics, without the fill ratio.
#[derive(Clone, Copy, Debug, PartialEq, Eq)]
pub struct CoalescingStats {
    pub instances: u16,
    pub bytes: u64,
    pub coalesced: u64,
    pub dropped: u64,
}

impl CoalescingQueue<128> {
    // An empty queue at any limit: another than 1 to 128 is held to that.
    #[tactic(auto, using(crate::proofs::Samples::made_held))]
    pub fn with_limit_held(limit: u16) -> Self
        ensures { result ≡ new_queue (limit_held 128 limit) }
    {
        match CoalescingQueue::new(limit.max(1).min(128)) {
            Some(queue) => queue,
            None => unreachable!(),
        }
    }
}

impl<const N: usize> CoalescingQueue<N> {
    // An empty queue, where a queue of this type can have the limit: 1 to N, and N at most 512.
    pub fn new(limit: u16) -> Option<Self>
        ensures { result ≡ made N limit }
    {
        Some(CoalescingQueue {
            queue: Queue::with_limit(limit)?,
            next_sequence: 0,
            coalesced: 0,
            dropped: 0,
            total_bytes: 0,
        })
    }

    // New again with another limit, where it can have it.
    pub fn restart(&mut self, limit: u16)
        ensures { self.new ≡ restarted N limit self.old }
    {
        if Queue::<KeyedEntry, N>::fits(limit) {
            self.queue.restart(limit);
            self.next_sequence = 0;
            self.coalesced = 0;
            self.dropped = 0;
            self.total_bytes = 0;
        }
    }

    // New again with one slot, for which there is always room.
    pub fn restart_with_one_slot(&mut self)
        ensures { self.new ≡ new_queue 1 }
    {
        self.queue.restart_with_one_slot();
        self.next_sequence = 0;
        self.coalesced = 0;
        self.dropped = 0;
        self.total_bytes = 0;
    }

    // How many places behind the oldest the first sample under a key waits.
    pub fn find(&self, key: InstanceKey) -> Option<u16>
        ensures { result ≡ found self.now key }
    {
        queue::find(&self.queue, key)
    }

    // A sample of `length` bytes: a known key's keeps its place and slot, a new key's joins the tail, and a full queue pushes out its oldest.
    pub fn insert(&mut self, key: InstanceKey, length: u64) -> Kept
        ensures after { self.new ≡ (inserted self.old key length).0 }
        ensures kept { result ≡ (inserted self.old key length).1 }
    {
        match self.find(key) {
            Some(place) => self.replace(place, key, length),
            None => self.join(key, length),
        }
    }

    // A sample takes the place, and the slot, of the one that waits there.
    #[tactic(auto, using(crate::proofs::Samples::length_got))]
    fn replace(&mut self, place: u16, key: InstanceKey, length: u64) -> Kept
        ensures after { self.new ≡ (replaced_at self.old place key length).0 }
        ensures kept { result ≡ (replaced_at self.old place key length).1 }
    {
        let sequence = self.next_sequence;
        let slot = self.queue.slot(place);
        let leave = length_of(self.queue.entry_at(place));
        let sample = KeyedEntry::new(Entry::new(sequence, length), key);
        self.queue.exchange(place, sample);
        self.next_sequence = sequence.saturating_add(1);
        self.coalesced = self.coalesced.saturating_add(1);
        self.total_bytes = bytes_after(self.total_bytes, leave, length);
        Kept {
            fate: Fate::Replaced,
            slot,
            sequence,
        }
    }

    // A sample joins the tail.
    #[tactic(auto, using(crate::proofs::Samples::length_left), unfolding(crate::specs::Waiting::joins))]
    fn join(&mut self, key: InstanceKey, length: u64) -> Kept
        ensures after { self.new ≡ (joined_tail self.old key length).0 }
        ensures kept { result ≡ (joined_tail self.old key length).1 }
    {
        let sequence = self.next_sequence;
        let fate = self.queue.joins();
        let sample = KeyedEntry::new(Entry::new(sequence, length), key);
        let (slot, out) = self.queue.join(sample);
        self.next_sequence = sequence.saturating_add(1);
        let pushed_out = matches!(fate, Fate::PushedOut);
        self.dropped = self.dropped.saturating_add(pushed_out as u64);
        self.total_bytes = bytes_after(self.total_bytes, length_of(out), length);
        Kept {
            fate,
            slot,
            sequence,
        }
    }

    // The oldest leaves; an empty queue stays as it is.
    pub fn pop_front(&mut self) -> Option<KeyedEntry>
        ensures oldest { result ≡ first self.old.waiting.items }
        ensures rest { self.new ≡ popped_front self.old }
    {
        let oldest = self.queue.pop();
        self.total_bytes = bytes_after(self.total_bytes, length_of(oldest), 0);
        oldest
    }

    // The oldest, which stays.
    pub fn first(&self) -> Option<KeyedEntry>
        ensures { result ≡ first self.now.waiting.items }
    {
        self.queue.first()
    }

    pub fn len(&self) -> u16
        ensures { result ≡ length self.now.waiting.items }
    {
        self.queue.len()
    }

    // The number of slots, at least 1.
    pub fn limit(&self) -> u16
        ensures { result ≡ self.now.waiting.limit }
    {
        self.queue.limit()
    }

    // What waits so many places behind the oldest.
    pub fn entry_at(&self, place: u16) -> Option<KeyedEntry>
        ensures { result ≡ slice_get self.now.waiting.items place }
    {
        self.queue.entry_at(place)
    }

    // The slot so many places behind the oldest, around the ring.
    pub fn slot(&self, place: u16) -> u16
        ensures { result ≡ slot_of self.now.waiting place }
    {
        self.queue.slot(place)
    }

    pub fn next_sequence(&self) -> u64
        ensures { result ≡ self.now.next_sequence }
    {
        self.next_sequence
    }

    // The bytes that wait.
    pub fn total_bytes(&self) -> u64
        ensures { result ≡ self.now.total_bytes }
    {
        self.total_bytes
    }

    pub fn stats(&self) -> CoalescingStats
        ensures { result ≡ stats_in self.now }
    {
        CoalescingStats {
            instances: self.queue.len(),
            bytes: self.total_bytes,
            coalesced: self.coalesced,
            dropped: self.dropped,
        }
    }
}

// The bytes of a sample, if there is one.
fn length_of(sample: Option<KeyedEntry>) -> u64
    ensures { result ≡ length_of sample }
{
    match sample {
        Some(keyed) => keyed.entry.length,
        None => 0,
    }
}

// The bytes that wait, when some leave and some come.
fn bytes_after(total: u64, leave: u64, come: u64) -> u64
    ensures { result ≡ bytes_then total leave come }
{
    total.saturating_sub(leave).saturating_add(come)
}
