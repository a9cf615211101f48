// The writers of a station, with a pacer each.
ghost use Rattle.std.specs.Prelude.{◌≡◌, ◌<◌, ◌≤◌, true, eqb, option_copied};
ghost use Rattle.pacing.specs.WriterPacer.{fits, made, handed_in, sent_if, metrics_in};
ghost use Rattle.station.specs.Station.{no_writer_in, new_roster_in, roster_of, writer_of, writer_at, pacer_at, is_here, joined, with_pacer, budgeted, budgeted_all};
ghost use Rattle.station.specs.Station as station;

use config::config::Priority;
use control::budget_allocator::WriterTable;
use pacing::pacer_counts::WriterPacerMetrics;
use pacing::send_action::SendAction;
use pacing::writer_pacer::{PacerConfig, WriterPacer};
use queue::entry::InstanceKey;
use queue::fate::Kept;
use queue::pool::Limits;
use std::marker::Model;

// Writers in a station.
pub const MOST_WRITERS: usize = 4;

// A registered writer and its pacer.
#[derive(Clone, Copy)]
pub struct Writer<const P0: usize, const P1: usize, const P2: usize> {
    id: u64,
    pacer: WriterPacer<P0, P1, P2>,
}

impl<const P0: usize, const P1: usize, const P2: usize> Model for Writer<P0, P1, P2> {
    ghost Value = { station.Writer };

    ghost view = { λ w. writer_of w.id w.pacer };

    ghost inverse = { λ v. record { id = v.id; pacer = v.pacer } };
}

// The writers, numbered from 0 as registered.
// Stays: [6] an array and a count: all four places have a pacer, which is made anew in its place when a writer comes, and is shown before (`pacer`).
#[derive(Clone, Copy)]
pub struct Roster<const P0: usize, const P1: usize, const P2: usize> {
    writers: [Writer<P0, P1, P2>; MOST_WRITERS],
    count: u8,
}

impl<const P0: usize, const P1: usize, const P2: usize> Model for Roster<P0, P1, P2> {
    ghost Value = { station.Roster };

    ghost view = { λ r. roster_of r.writers r.count };

    ghost inverse = { λ v. record { writers = v.writers; count = v.count } };

    ghost invariant = { λ r. r.count ≤ 4 };
}

// Queues of one slot.
const ONE_SLOT_EACH: Limits = Limits {
    p0: 1,
    p1: 1,
    p2: 1,
};

impl<const P0: usize, const P1: usize, const P2: usize> Writer<P0, P1, P2> {
    // What stands in a place that no writer has, where there is room for a slot of each class.
    fn nobody() -> Option<Self>
        ensures { result ≡ no_writer_in P0 P1 P2 }
    {
        Some(Writer {
            id: 0,
            pacer: WriterPacer::new(0, ONE_SLOT_EACH, 0)?,
        })
    }

    // A newcomer takes the place, with a new pacer.
    fn begin(&mut self, id: u64, time: u64, limits: Limits, rate_bps: u32)
        requires { fits P0 P1 P2 limits ≡ true }
        ensures { self.new ≡ writer_of id (made time limits rate_bps) }
    {
        self.id = id;
        self.pacer.restart(time, limits, rate_bps);
    }

    // A new budget reaches the pacer.
    fn budget(&mut self, config: PacerConfig, time: u64, table: &WriterTable)
        ensures { self.new ≡ budgeted config time table.now self.old }
    {
        if let Some(bps) = table.budget_of(self.id) {
            self.pacer.set_rate(config, time, bps);
        }
    }
}

impl<const P0: usize, const P1: usize, const P2: usize> Roster<P0, P1, P2> {
    // A roster that no writer has joined, where there is room for a slot of each class.
    pub(crate) fn new() -> Option<Self>
        ensures { result ≡ new_roster_in P0 P1 P2 }
    {
        Some(Roster {
            writers: [
                Writer::nobody()?,
                Writer::nobody()?,
                Writer::nobody()?,
                Writer::nobody()?,
            ],
            count: 0,
        })
    }

    // Whether a writer has the id.
    pub(crate) fn is_here(&self, id: u64) -> bool
        ensures { result ≡ is_here self.now id }
    {
        let writers = &self.writers[..self.count as usize];
        writers.iter().any(
            |writer| -> bool
                ensures { result ≡ eqb writer.now.id id }
            { writer.id == id },
        )
    }

    // The next place is the newcomer's, with a new pacer.
    pub(crate) fn join(&mut self, id: u64, time: u64, limits: Limits, rate_bps: u32)
        requires place { self.old.count < 4 }
        requires room { fits P0 P1 P2 limits ≡ true }
        ensures { self.new ≡ joined self.old (writer_of id (made time limits rate_bps)) }
    {
        self.writers[self.count as usize].begin(id, time, limits, rate_bps);
        self.count += 1;
    }

    // A record of `length` bytes to pacer i; the key is P2's. Where it is kept.
    // Stays: [5] `i < 4` is asked by two private calls and told by the two checks before them; a type for it would be made in one and read in the next.
    pub(crate) fn hand_in(&mut self, i: u8, class: Priority, key: InstanceKey, length: u64) -> Kept
        requires { i < 4 }
        ensures after { self.new ≡ with_pacer self.old i (handed_in (writer_at self.old i).pacer class key length).0 }
        ensures kept { result ≡ (handed_in (writer_at self.old i).pacer class key length).1 }
    {
        let writer = &mut self.writers[i as usize];
        writer.pacer.hand_in(class, key, length)
    }

    // What pacer i sends next; with control off nothing.
    pub(crate) fn send_if(&mut self, enabled: bool, time: u64, i: u8) -> SendAction
        requires { i < 4 }
        ensures after { self.new ≡ with_pacer self.old i (sent_if enabled (writer_at self.old i).pacer time).0 }
        ensures action { result ≡ (sent_if enabled (writer_at self.old i).pacer time).1 }
    {
        let writer = &mut self.writers[i as usize];
        writer.pacer.send_if(enabled, time)
    }

    // New budgets reach the pacers.
    #[tactic(auto, using(crate::proofs::Rosters::written_over), unfolding(crate::specs::Station::budgeted_all))]
    pub(crate) fn budget_all(&mut self, config: PacerConfig, time: u64, table: &WriterTable)
        ensures { self.new ≡ budgeted_all config time table.now self.old }
    {
        let writers = &mut self.writers[..self.count as usize];
        for writer in writers.iter_mut() {
            writer.budget(config, time, table);
        }
    }

    // The pacer with a number, where there is such a place; one that no writer has yet has queues of one slot and no rate.
    pub fn pacer(&self, i: u8) -> Option<&WriterPacer<P0, P1, P2>>
        ensures { option_copied result ≡ pacer_at self.now i }
    {
        match self.writers.get(i as usize) {
            Some(writer) => Some(&writer.pacer),
            None => None,
        }
    }

    // The same by value, for every number: where there is no such place, a pacer with queues of one slot and no rate.
    pub fn pacer_or_blank(&self, i: u8) -> WriterPacer<P0, P1, P2>
        ensures { result ≡ (writer_at self.now i).pacer }
    {
        match self.writers.get(i as usize) {
            Some(writer) => writer.pacer,
            None => {
                let first = &self.writers[0];
                first.pacer.blank()
            }
        }
    }

    // The id of the writer with a number, 0 where there is no such place.
    // Stays: [1] a public call that could not fail still can't.
    pub fn id(&self, i: u8) -> u64
        ensures { result ≡ (writer_at self.now i).id }
    {
        match self.writers.get(i as usize) {
            Some(writer) => writer.id,
            None => 0,
        }
    }

    // The Rust's metrics of the pacer with a number; where there is no such place all are 0.
    pub fn metrics(&self, i: u8) -> WriterPacerMetrics
        ensures { result ≡ metrics_in (writer_at self.now i).pacer }
    {
        match self.writers.get(i as usize) {
            Some(writer) => writer.pacer.metrics(),
            None => WriterPacerMetrics::default(),
        }
    }

    // How many writers have joined.
    pub fn count(&self) -> u8
        ensures value { result ≡ self.now.count }
        ensures upper_bound { result ≤ 4 }
    {
        self.count
    }
}
