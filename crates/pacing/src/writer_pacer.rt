// The writer pacer: three queues in the order of their class, and a token bucket that paces what is not urgent. Of a record it reads the length;
// `send_action` has its bytes.
ghost use Rattle.std.specs.Prelude.{◌≡◌, ◌<◌, length, slice_get};
ghost use Rattle.pacing.specs.WriterPacer.{Pacer, no_pacer_config, pacer_config_of, pacer_of, burst_of, fits, made, least_limits, limits_held, made_in, restarted, numbered, enqueue, handed_in, waiting_in, entries_in, slot_in, limits_in, gone, attempt_p0, paid, waited, limited, attempt, sent_from, sent_if, rate_set, metrics_in};
ghost use Rattle.queue.specs.Coalescing.{stats_in};
ghost use Rattle.queue.specs.Entries.{entry_of};
ghost use Rattle.queue.specs.Waiting.{joined, kept_in};

use crate::pacer_counts::{PacerCounts, WriterPacerMetrics};
use crate::queues::Queues;
use crate::send_action::SendAction;
use crate::token_bucket::TokenBucket;
use config::config::{CongestionConfig, Priority};
use queue::coalescing::CoalescingStats;
use queue::entry::{Entry, InstanceKey, KeyedEntry};
use queue::fate::{Fate, Kept};
use queue::pool::{Limits, limits_of};
use queue::queue::Queue;
use std::marker::Model;

// What a pacer reads of the settings.
#[derive(Clone, Copy, Debug, PartialEq, Eq)]
pub struct PacerConfig {
    pub(crate) enabled: bool,
    pub(crate) min_rate_bps: u32,
    pub(crate) max_rate_bps: u32,
    pub(crate) limits: Limits,
}

impl From<CongestionConfig> for PacerConfig {
    ghost from_gives = { λ config pacer. pacer ≡ pacer_config_of config };

    fn from(config: CongestionConfig) -> PacerConfig {
        PacerConfig {
            enabled: config.enabled,
            min_rate_bps: config.min_rate_bps,
            max_rate_bps: config.max_rate_bps,
            limits: limits_of(config),
        }
    }
}

impl PacerConfig {
    // Settings that were turned down: off, and every number 0.
    pub fn zero() -> PacerConfig
        ensures { result ≡ no_pacer_config }
    {
        PacerConfig {
            enabled: false,
            min_rate_bps: 0,
            max_rate_bps: 0,
            limits: Limits {
                p0: 0,
                p1: 0,
                p2: 0,
            },
        }
    }

    pub fn enabled(self) -> bool
        ensures { result ≡ self.enabled }
    {
        self.enabled
    }

    pub fn min_rate_bps(self) -> u32
        ensures { result ≡ self.min_rate_bps }
    {
        self.min_rate_bps
    }

    pub fn limits(self) -> Limits
        ensures { result ≡ self.limits }
    {
        self.limits
    }
}

// A bucket's capacity in bytes: 100 ms of the rate, at least 1,500.
fn burst(rate_bps: u32) -> u64
    ensures { result ≡ burst_of rate_bps }
{
    u64::from((rate_bps / 10).max(1500))
}

// A record joins the tail; a full queue lets its oldest go first.
fn join<const N: usize>(queue: &mut Queue<Entry, N>, sequence: u64, length: u64) -> Kept
    ensures after { queue.new ≡ joined queue.old (entry_of sequence length) }
    ensures kept { result ≡ kept_in queue.old sequence }
{
    let fate = queue.joins();
    let (slot, _) = queue.join(Entry::new(sequence, length));
    Kept {
        fate,
        slot,
        sequence,
    }
}

// The pacer of one writer: what waits, its own next number, its tokens and its counts.
#[derive(Clone, Copy)]
pub struct WriterPacer<const N0: usize, const N1: usize, const N2: usize> {
    queues: Queues<N0, N1, N2>,
    next_sequence: u64,
    tokens: TokenBucket,
    counts: PacerCounts,
}

impl<const N0: usize, const N1: usize, const N2: usize> Model for WriterPacer<N0, N1, N2> {
    ghost Value = { Pacer };

    ghost view = { λ p. pacer_of p.queues p.next_sequence p.tokens p.counts };

    ghost inverse = { λ v. record { queues = v.queues; next_sequence = v.next_sequence; tokens = v.tokens; counts = v.counts } };
}

impl WriterPacer<128, 512, 128> {
    // Empty queues and a full bucket at any limits: each is held to 1 and the slots of its class.
    #[tactic(auto, using(crate::proofs::Making::made_held))]
    pub fn with_limits_held(time: u64, limits: Limits, rate_bps: u32) -> Self
        ensures { result ≡ made time (limits_held limits) rate_bps }
    {
        let held = Limits {
            p0: limits.p0.max(1).min(128),
            p1: limits.p1.max(1).min(512),
            p2: limits.p2.max(1).min(128),
        };
        match WriterPacer::new(time, held, rate_bps) {
            Some(pacer) => pacer,
            None => unreachable!(),
        }
    }
}

impl<const N0: usize, const N1: usize, const N2: usize> WriterPacer<N0, N1, N2> {
    // Whether there is room for these limits.
    pub fn fits(limits: Limits) -> bool
        ensures { result ≡ fits N0 N1 N2 limits }
    {
        Queues::<N0, N1, N2>::fits(limits)
    }

    // Empty queues and a full bucket, where there is room for the limits.
    #[tactic(auto, using(crate::proofs::Making::made_over))]
    pub fn new(time: u64, limits: Limits, rate_bps: u32) -> Option<Self>
        ensures { result ≡ made_in N0 N1 N2 time limits rate_bps }
    {
        Some(WriterPacer {
            queues: Queues::new(limits)?,
            next_sequence: 0,
            tokens: TokenBucket::new(time, rate_bps, burst(rate_bps)),
            counts: PacerCounts::default(),
        })
    }

    // Made anew in its place, where there is room for the limits.
    pub fn restart(&mut self, time: u64, limits: Limits, rate_bps: u32)
        ensures { self.new ≡ restarted N0 N1 N2 self.old time limits rate_bps }
    {
        if Self::fits(limits) {
            self.queues.restart(limits);
            self.next_sequence = 0;
            self.tokens = TokenBucket::new(time, rate_bps, burst(rate_bps));
            self.counts = PacerCounts::default();
        }
    }

    // A new pacer of the same type at time 0, with queues of one slot and no rate, for which there is always room.
    pub fn blank(&self) -> Self
        ensures { result ≡ made 0 least_limits 0 }
    {
        let mut queues = self.queues;
        queues.restart_with_one_slot_each();
        WriterPacer {
            queues,
            next_sequence: 0,
            tokens: TokenBucket::new(0, 0, burst(0)),
            counts: PacerCounts::default(),
        }
    }

    // A record of `length` bytes; the key is P2's. Where it is kept; its bytes go to the pool by `send_action::store`.
    pub fn hand_in(&mut self, class: Priority, key: InstanceKey, length: u64) -> Kept
        ensures after { self.new ≡ (handed_in self.old class key length).0 }
        ensures kept { result ≡ (handed_in self.old class key length).1 }
    {
        let kept = self.enqueue(class, key, length);
        self.counts.note_hand_in(class, kept.fate);
        kept
    }

    // Every hand-in uses up a number of the pacer's own, P2's too, which has numbers of its own. P0 never drops: where it is full the record is refused.
    fn enqueue(&mut self, class: Priority, key: InstanceKey, length: u64) -> Kept
        ensures after { self.new ≡ (enqueue self.old class key length).0 }
        ensures kept { result ≡ (enqueue self.old class key length).1 }
    {
        let sequence = self.next_sequence;
        self.next_sequence = sequence.saturating_add(1);
        match class {
            Priority::P0 if !self.queues.p0.has_room() => Kept {
                fate: Fate::Full,
                slot: 0,
                sequence,
            },
            Priority::P0 => join(&mut self.queues.p0, sequence, length),
            Priority::P1 => join(&mut self.queues.p1, sequence, length),
            Priority::P2 => self.queues.p2.insert(key, length),
        }
    }

    // P0 before P1 before P2. The bytes of a record sent are shown by `send_action::sent_bytes`.
    #[tactic(auto, unfolding(crate::specs::WriterPacer::sent_from))]
    pub fn try_send(&mut self, time: u64) -> SendAction
        ensures after { self.new ≡ (sent_from self.old time).0 }
        ensures action { result ≡ (sent_from self.old time).1 }
    {
        let action = self.attempt(time);
        self.counts.note_send(action);
        action
    }

    // With control off nothing is tried.
    pub fn send_if(&mut self, enabled: bool, time: u64) -> SendAction
        ensures after { self.new ≡ (sent_if enabled self.old time).0 }
        ensures action { result ≡ (sent_if enabled self.old time).1 }
    {
        if enabled {
            self.try_send(time)
        } else {
            SendAction::Empty
        }
    }

    fn attempt(&mut self, time: u64) -> SendAction
        ensures after { self.new ≡ (attempt self.old time).0 }
        ensures action { result ≡ (attempt self.old time).1 }
    {
        if self.queues.waits(Priority::P0) {
            return self.send_p0(time);
        }
        let (tokens, taken) = self.try_paid(self.tokens, Priority::P1, time);
        if taken {
            return self.gone(Priority::P1, tokens, false);
        }
        let (tokens, taken) = self.try_paid(tokens, Priority::P2, time);
        if taken {
            return self.gone(Priority::P2, tokens, false);
        }
        self.tokens = tokens;
        self.limited(time)
    }

    // P0 always goes, tokens falling to 0 if short.
    fn send_p0(&mut self, time: u64) -> SendAction
        requires { 0 < length self.old.queues.p0.items }
        ensures after { self.new ≡ (attempt_p0 self.old time).0 }
        ensures action { result ≡ (attempt_p0 self.old time).1 }
    {
        let length = self.queues.front(Priority::P0).length;
        let (tokens, taken) = self.tokens.try_consume(time, length);
        if taken {
            return self.gone(Priority::P0, tokens, false);
        }
        self.gone(Priority::P0, tokens.force_consume(time, length), true)
    }

    // The first of P1 or P2 is tried to be paid for in tokens; an empty queue takes none.
    #[tactic(auto, unfolding(crate::specs::WriterPacer::paid))]
    fn try_paid(&self, tokens: TokenBucket, class: Priority, time: u64) -> (TokenBucket, bool)
        ensures { result ≡ paid tokens self.now.queues class time }
    {
        if self.queues.len(class) == 0 {
            return (tokens, false);
        }
        tokens.try_consume(time, self.queues.front(class).length)
    }

    // The first of a class goes; `tokens` is what it leaves of the bucket.
    fn gone(&mut self, class: Priority, tokens: TokenBucket, forced: bool) -> SendAction
        requires { 0 < waiting_in self.old.queues class }
        ensures after { self.new ≡ (gone self.old class tokens forced).0 }
        ensures action { result ≡ (gone self.old class tokens forced).1 }
    {
        let slot = self.queues.slot(class, 0);
        let first = self.queues.pop(class);
        self.tokens = tokens;
        SendAction::Send {
            class,
            slot,
            sequence: first.sequence,
            length: first.length,
            forced,
        }
    }

    // The wait for the first of P1 or, where none waits there, of P2.
    fn limited(&mut self, time: u64) -> SendAction
        ensures after { self.new ≡ (limited self.old time).0 }
        ensures action { result ≡ (limited self.old time).1 }
    {
        if self.queues.waits(Priority::P1) {
            let first = self.queues.front(Priority::P1);
            return self.waited(time, first.length);
        }
        if self.queues.waits(Priority::P2) {
            let first = self.queues.front(Priority::P2);
            return self.waited(time, first.length);
        }
        SendAction::Empty
    }

    // The wait for `length` tokens.
    #[tactic(auto, unfolding(crate::specs::WriterPacer::waited))]
    fn waited(&mut self, time: u64, length: u64) -> SendAction
        ensures after { self.new ≡ (waited self.old time length).0 }
        ensures action { result ≡ (waited self.old time length).1 }
    {
        let (tokens, wait) = self.tokens.time_until_available(time, length);
        self.tokens = tokens;
        if 0 < wait {
            SendAction::RateLimited(wait)
        } else {
            SendAction::Empty
        }
    }

    // The rate is held to the settings' range, and the capacity follows it.
    pub fn set_rate(&mut self, config: PacerConfig, time: u64, rate_bps: u32)
        ensures { self.new ≡ rate_set self.old config time rate_bps }
    {
        let rate = rate_bps.max(config.min_rate_bps).min(config.max_rate_bps);
        self.tokens = self.tokens.set_rate(time, rate).set_capacity(burst(rate));
    }

    pub fn tokens(&self) -> TokenBucket
        ensures { result ≡ self.now.tokens }
    {
        self.tokens
    }

    // Stays: [2] two counters: this one every hand-in uses up, P2's (`next_sequence_p2`) its samples alone; P0 and P1 have none of their own.
    pub fn next_sequence(&self) -> u64
        ensures { result ≡ self.now.next_sequence }
    {
        self.next_sequence
    }

    pub fn counts(&self) -> PacerCounts
        ensures { result ≡ self.now.counts }
    {
        self.counts
    }

    // How many records of a class wait.
    pub fn len(&self, class: Priority) -> u16
        ensures { result ≡ waiting_in self.now.queues class }
    {
        self.queues.len(class)
    }

    // What waits so many places behind the first of its class; P0 and P1 have no key, which is then zero.
    pub fn entry_at(&self, class: Priority, place: u16) -> Option<KeyedEntry>
        ensures { result ≡ slice_get (entries_in self.now.queues class) place }
    {
        self.queues.entry_at(class, place)
    }

    // The slot so many places behind the first of a class, around its ring.
    pub fn slot(&self, class: Priority, place: u16) -> u16
        ensures { result ≡ slot_in self.now.queues class place }
    {
        self.queues.slot(class, place)
    }

    // The number of slots of each class.
    pub fn limits(&self) -> Limits
        ensures { result ≡ limits_in self.now.queues }
    {
        self.queues.limits()
    }

    // The bytes that wait in P2.
    pub fn total_bytes_p2(&self) -> u64
        ensures { result ≡ self.now.queues.p2.total_bytes }
    {
        self.queues.p2.total_bytes()
    }

    // The number that P2's next sample gets.
    // Stays: [2] as `next_sequence`.
    pub fn next_sequence_p2(&self) -> u64
        ensures { result ≡ self.now.queues.p2.next_sequence }
    {
        self.queues.p2.next_sequence()
    }

    // What waits in P2, and what was replaced and pushed out there.
    pub fn coalescing_stats(&self) -> CoalescingStats
        ensures { result ≡ stats_in self.now.queues.p2 }
    {
        self.queues.p2.stats()
    }

    // The Rust's metrics.
    pub fn metrics(&self) -> WriterPacerMetrics
        ensures { result ≡ metrics_in self.now }
    {
        let coalesced = self.queues.p2.stats();
        WriterPacerMetrics {
            enqueued_p0: self.counts.enqueued.p0,
            enqueued_p1: self.counts.enqueued.p1,
            enqueued_p2: self.counts.enqueued.p2,
            sent_p0: self.counts.sent.p0,
            sent_p1: self.counts.sent.p1,
            sent_p2: self.counts.sent.p2,
            dropped_p1: self.counts.dropped_p1,
            coalesced_p2: coalesced.coalesced,
            dropped_p2: coalesced.dropped,
            bytes_sent: self.counts.bytes_sent,
            rate_limited: self.counts.rate_limited,
            force_sends_p0: self.counts.force_sends_p0,
        }
    }
}
