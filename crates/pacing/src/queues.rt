// The three queues of a pacer, one for each class.
ghost use Rattle.std.specs.Prelude.{◌≡◌, ◌<◌, ltb, slice_get};
ghost use Rattle.pacing.specs.WriterPacer.{Queues, new_queues, least_limits, queues_made, queues_restarted, waiting_in, entries_in, slot_in, front_of, popped_in, limits_in, fits, keyless_entry};

use config::config::Priority;
use config::per_class::PerClass;
use queue::coalescing::CoalescingQueue;
use queue::entry::{Entry, InstanceKey, KeyedEntry};
use queue::pool::Limits;
use queue::queue::Queue;
use std::marker::Model;

// At most N0 urgent, N1 normal and N2 background records wait.
// Stays: [2] three types, while `PerClass` has three values of one.
#[derive(Clone, Copy)]
pub struct Queues<const N0: usize, const N1: usize, const N2: usize> {
    pub(crate) p0: Queue<Entry, N0>,
    pub(crate) p1: Queue<Entry, N1>,
    pub(crate) p2: CoalescingQueue<N2>,
}

impl<const N0: usize, const N1: usize, const N2: usize> Model for Queues<N0, N1, N2> {
    ghost Value = { Queues };

    ghost view = { λ q. record { p0 = q.p0; p1 = q.p1; p2 = q.p2 } };

    ghost inverse = { λ v. record { p0 = v.p0; p1 = v.p1; p2 = v.p2 } };
}

impl<const N0: usize, const N1: usize, const N2: usize> Queues<N0, N1, N2> {
    // Whether there is room for these limits: each at least 1.
    pub(crate) fn fits(limits: Limits) -> bool
        ensures { result ≡ fits N0 N1 N2 limits }
    {
        Queue::<Entry, N0>::fits(limits.p0)
            && Queue::<Entry, N1>::fits(limits.p1)
            && Queue::<KeyedEntry, N2>::fits(limits.p2)
    }

    // Empty queues, where there is room for the limits.
    pub(crate) fn new(limits: Limits) -> Option<Self>
        ensures { result ≡ queues_made N0 N1 N2 limits }
    {
        Some(Queues {
            p0: Queue::with_limit(limits.p0)?,
            p1: Queue::with_limit(limits.p1)?,
            p2: CoalescingQueue::new(limits.p2)?,
        })
    }

    // Empty again with other limits, where there is room for them.
    pub(crate) fn restart(&mut self, limits: Limits)
        ensures { self.new ≡ queues_restarted N0 N1 N2 self.old limits }
    {
        if Self::fits(limits) {
            self.p0.restart(limits.p0);
            self.p1.restart(limits.p1);
            self.p2.restart(limits.p2);
        }
    }

    // Empty again with one slot of each class, for which there is always room.
    pub(crate) fn restart_with_one_slot_each(&mut self)
        ensures { self.new ≡ new_queues least_limits }
    {
        self.p0.restart_with_one_slot();
        self.p1.restart_with_one_slot();
        self.p2.restart_with_one_slot();
    }

    // How many records of a class wait.
    pub(crate) fn len(&self, class: Priority) -> u16
        ensures { result ≡ waiting_in self.now class }
    {
        // Stays: [2] the three queues have three types; a function that picks one would hand out a `dyn`, which the merge gate refuses.
        match class {
            Priority::P0 => self.p0.len(),
            Priority::P1 => self.p1.len(),
            Priority::P2 => self.p2.len(),
        }
    }

    // Whether a record of a class waits.
    pub(crate) fn waits(&self, class: Priority) -> bool
        ensures { result ≡ ltb 0 (waiting_in self.now class) }
    {
        0 < self.len(class)
    }

    // The number of slots of each class.
    pub(crate) fn limits(&self) -> Limits
        ensures { result ≡ limits_in self.now }
    {
        PerClass {
            p0: self.p0.limit(),
            p1: self.p1.limit(),
            p2: self.p2.limit(),
        }
    }

    // What waits so many places behind the first of its class; P0 and P1 have no key, which is then zero.
    pub(crate) fn entry_at(&self, class: Priority, place: u16) -> Option<KeyedEntry>
        ensures { result ≡ slice_get (entries_in self.now class) place }
    {
        match class {
            Priority::P0 => keyless(self.p0.entry_at(place)),
            Priority::P1 => keyless(self.p1.entry_at(place)),
            Priority::P2 => self.p2.entry_at(place),
        }
    }

    // The slot so many places behind the first of a class, around its ring.
    pub(crate) fn slot(&self, class: Priority, place: u16) -> u16
        ensures { result ≡ slot_in self.now class place }
    {
        // Stays: [2] as in `len`, three types; so `entry_at`, `front` and `pop`.
        match class {
            Priority::P0 => self.p0.slot(place),
            Priority::P1 => self.p1.slot(place),
            Priority::P2 => self.p2.slot(place),
        }
    }

    // The first of a class, which stays; where none waits, a blank.
    pub(crate) fn front(&self, class: Priority) -> Entry
        ensures { result ≡ front_of self.now class }
    {
        match class {
            Priority::P0 => self.p0.first().unwrap_or(Entry::BLANK),
            Priority::P1 => self.p1.first().unwrap_or(Entry::BLANK),
            Priority::P2 => self.p2.first().unwrap_or(KeyedEntry::BLANK).entry,
        }
    }

    // The first of a class leaves.
    pub(crate) fn pop(&mut self, class: Priority) -> Entry
        requires { 0 < waiting_in self.old class }
        ensures first { result ≡ front_of self.old class }
        ensures rest { self.new ≡ popped_in self.old class }
    {
        match class {
            Priority::P0 => self.p0.pop().unwrap_or(Entry::BLANK),
            Priority::P1 => self.p1.pop().unwrap_or(Entry::BLANK),
            Priority::P2 => self.p2.pop_front().unwrap_or(KeyedEntry::BLANK).entry,
        }
    }
}

// An entry with no key.
fn keyless(entry: Option<Entry>) -> Option<KeyedEntry>
    ensures { result ≡ keyless_entry entry }
{
    match entry {
        Some(found) => Some(KeyedEntry::new(found, InstanceKey::new(0, 0))),
        None => None,
    }
}
