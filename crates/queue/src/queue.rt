// A queue of any plain entries in a ring of slots, seen as the list of what waits. Every function is total.
ghost use Rattle.std.specs.Prelude.{◌≡◌, ◌+◌, ◌<◌, ◌≤◌, ◌&&◌, length, eqb, replicate, slice_get};
ghost use Rattle.std.specs.List.{position_from};
ghost use Rattle.queue.specs.Entries.{has_key};
ghost use Rattle.queue.specs.Waiting.{Waiting, waiting_of, empty, limit_fits, made, restarted, first, slot_of, has_room, pushed_out, popped_front, joined, next_slot, joins, exchanged};
ghost use Rattle.queue.specs.Window.{window, laid, IsLaid};

use crate::entry::{Blank, InstanceKey, KeyedEntry};
use crate::fate::Fate;
use std::alloc::AllocError;
use std::marker::Model;

// At most N entries, in a ring of `limit` slots: the oldest is in slot `head`, and the others follow it around the ring. Each free slot holds a
// blank, so that what waits says what all slots hold.
pub struct Queue<E: Blank, const N: usize> {
    entries: [E; N],
    head: u16,
    count: u16,
    limit: u16,
}

impl<E: Blank, const N: usize> Model for Queue<E, N> {
    ghost Value = { Waiting E };

    ghost view = { λ q. waiting_of (window q.entries q.limit q.head q.count) q.head q.limit };

    ghost invariant = { λ q. (q.head < q.limit) × (q.count ≤ q.limit) × (q.limit ≤ N) × (N ≤ 512) × IsLaid E.blank_is N q.limit q.head q.count q.entries };

    ghost inverse = { λ w. record { entries = laid E.blank_is N w.limit w.head w.items; head = w.head; count = length w.items; limit = w.limit } };

    ghost inverse_ok = { λ q ok i. record {
      entries = ok.4.again i;
      head = q.head;
      count = ok.4.counted i;
      limit = q.limit;
    } };
}

impl<E: Blank, const N: usize> Clone for Queue<E, N> {
    ghost is_clone = { λ it copy. copy ≡ it };

    ghost is_infallible = { λ _. Unit {0} };

    fn clone(&self) -> Result<Queue<E, N>, AllocError> {
        Ok(*self)
    }
}

impl<E: Blank, const N: usize> Copy for Queue<E, N> {}

impl<E: Blank, const N: usize> Queue<E, N> {
    // Whether a queue of this type can have this limit: 1 to N, and N at most 512.
    pub fn fits(limit: u16) -> bool
        ensures { result ≡ limit_fits N limit }
    {
        1 <= limit && limit as usize <= N && N <= 512
    }

    // Slots in which nothing waits.
    fn blanks() -> [E; N]
        ensures { result ≡ replicate N E.blank_is }
    {
        [E::blank(); N]
    }

    // An empty queue, where it can have the limit. `blank` may be any entry: each free slot holds the entries' own blank.
    pub fn new(blank: E, limit: u16) -> Option<Self>
        ensures { result ≡ made N limit }
    {
        Self::with_limit(limit)
    }

    // An empty queue, where it can have the limit.
    #[tactic(auto, using(crate::proofs::Queues::restart_steps))]
    pub fn with_limit(limit: u16) -> Option<Self>
        ensures { result ≡ made N limit }
    {
        if Self::fits(limit) {
            Some(Queue {
                entries: [E::blank(); N],
                head: 0,
                count: 0,
                limit,
            })
        } else {
            None
        }
    }

    // Empty again with another limit, where it can have it.
    #[tactic(auto, using(crate::proofs::Queues::restart_steps))]
    pub fn restart(&mut self, limit: u16)
        ensures { self.new ≡ restarted N limit self.old }
    {
        if Self::fits(limit) {
            if 0 < self.count {
                self.entries = Self::blanks();
            }
            self.head = 0;
            self.count = 0;
            self.limit = limit;
        }
    }

    // Empty again with one slot, for which there is always room: the limit, which is read for what the type says of it, is at least 1 and at most N.
    #[tactic(auto, using(crate::proofs::Queues::one_fits))]
    pub fn restart_with_one_slot(&mut self)
        ensures { self.new ≡ empty 1 }
    {
        let _limit = self.limit;
        self.restart(1);
    }

    pub fn len(&self) -> u16
        ensures { result ≡ length self.now.items }
    {
        self.count
    }

    pub fn is_empty(&self) -> bool
        ensures { result ≡ eqb (length self.now.items) 0 }
    {
        self.count == 0
    }

    // The number of slots, at least 1.
    pub fn limit(&self) -> u16
        ensures { result ≡ self.now.limit }
    {
        self.limit
    }

    // The slot of the oldest, or of the next entry where none waits.
    pub fn head(&self) -> u16
        ensures { result ≡ self.now.head }
    {
        self.head
    }

    pub fn has_room(&self) -> bool
        ensures { result ≡ has_room self.now }
    {
        self.count < self.limit
    }

    // What becomes of an entry that joins the tail.
    pub fn joins(&self) -> Fate
        ensures { result ≡ joins self.now }
    {
        if self.has_room() {
            Fate::Joined
        } else {
            Fate::PushedOut
        }
    }

    // The slot so many places behind the oldest, around the ring.
    pub fn slot(&self, place: u16) -> u16
        ensures { result ≡ slot_of self.now place }
    {
        let at = self.head as u32 + place as u32;
        let slots = self.limit as u32;
        if at < slots {
            at as u16
        } else {
            (at % slots) as u16
        }
    }

    // The oldest, which stays.
    #[tactic(auto, using(crate::proofs::Queues::laid_first_got))]
    pub fn first(&self) -> Option<E>
        ensures { result ≡ first self.now.items }
    {
        if self.count == 0 {
            return None;
        }
        Some(self.entries[self.head as usize])
    }

    // What waits so many places behind the oldest.
    #[tactic(auto, using(crate::proofs::Queues::laid_entry_got))]
    pub fn entry_at(&self, place: u16) -> Option<E>
        ensures { result ≡ slice_get self.now.items place }
    {
        if self.count <= place {
            return None;
        }
        let slot = self.slot(place);
        Some(self.entries[slot as usize])
    }

    // The oldest leaves, where one waits.
    #[tactic(auto, using(crate::proofs::Queues::pop_steps))]
    pub fn pop(&mut self) -> Option<E>
        ensures oldest { result ≡ first self.old.items }
        ensures rest { self.new ≡ popped_front self.old }
    {
        if self.count == 0 {
            return None;
        }
        let slot = self.head as usize;
        let oldest = self.entries[slot];
        self.head = self.slot(1);
        self.count -= 1;
        self.entries[slot] = E::blank();
        Some(oldest)
    }

    // An entry joins the tail; a full queue lets its oldest go first. The slot that it takes, and what it pushed out.
    #[tactic(auto, using(crate::proofs::Queues::join_steps), unfolding(crate::specs::Waiting::roomy, crate::specs::Waiting::joined, crate::specs::Waiting::next_slot))]
    pub fn join(&mut self, entry: E) -> (u16, Option<E>)
        ensures after { self.new ≡ joined self.old entry }
        ensures slot { result.0 ≡ next_slot self.old }
        ensures out { result.1 ≡ pushed_out self.old }
    {
        if self.count < self.limit {
            let slot = self.slot(self.count);
            self.entries[slot as usize] = entry;
            self.count += 1;
            return (slot, None);
        }
        let slot = self.head;
        let second = self.slot(1);
        let oldest = self.entries[slot as usize];
        self.entries[slot as usize] = entry;
        self.head = second;
        (slot, Some(oldest))
    }

    // Another entry in a place; beyond the last nothing changes.
    #[tactic(auto, using(crate::proofs::Queues::laid_exchanged_held))]
    pub fn exchange(&mut self, place: u16, entry: E)
        ensures { self.new ≡ exchanged self.old place entry }
    {
        if place < self.count {
            let slot = self.slot(place);
            self.entries[slot as usize] = entry;
        }
    }
}

// How far behind the oldest the first entry under a key stands: first the entries up to the ring's end, then those from its start on, so that no
// step of the search has to look where the ring turns.
#[tactic(auto, using(crate::proofs::Queues::find_steps))]
pub(crate) fn find<const N: usize>(queue: &Queue<KeyedEntry, N>, key: InstanceKey) -> Option<u16>
    ensures { result ≡ position_from (has_key key) 0 queue.now.items }
{
    let slots = &queue.entries[..];
    let before_turn = queue.count.min(queue.limit - queue.head);
    let head = queue.head as usize;
    let end = head + before_turn as usize;
    match find_in(&slots[head..end], 0, key) {
        Some(place) => Some(place),
        None => {
            let behind_turn = (queue.count - before_turn) as usize;
            find_in(&slots[..behind_turn], before_turn, key)
        }
    }
}

// The place of the first entry under a key, where the first entry's place is `from`.
fn find_in(entries: &[KeyedEntry], from: u16, key: InstanceKey) -> Option<u16>
    requires { from + length entries.now ≤ 1024 }
    ensures { result ≡ position_from (has_key key) from entries.now }
{
    let mut at = 0;
    // Stays: [3] document 01 asks for it (docs/DECISIONS.md, "Expected forms by place"): a loop that yields the found position by `break`.
    loop {
        if entries.len() <= at {
            break None;
        }
        if entries[at].key == key {
            break Some(from + at as u16);
        }
        at += 1;
    }
}
