// A station: one controller and up to four writers with a pacer each, called in place. A call that is turned down leaves all as it was.
// What each call does is defined in specs/Station.antt; by_value.rt has the calls by value.
ghost use Rattle.std.specs.Prelude.{◌≡◌, ◌<◌, OnOk, OnErr, true, length};
ghost use Rattle.control.specs.Controller.{sampled};
ghost use Rattle.config.specs.Refusal.{verdict_of};
ghost use Rattle.pacing.specs.WriterPacer.{fits, metrics_in};
ghost use Rattle.pacing.specs.WriterPacer as pacer;
ghost use Rattle.queue.specs.Pool.{limits_of};
ghost use Rattle.station.specs.Station.{station_config_of, station_of, room_checks, made_station, register_checks, registered_station, eagain_station, nacks_station, tos_station, rtt_checks, rtt_station, ticked_by, ticked_station, rated_station, allotted_to, slots_needed, hand_in_checks, handed_station, pool_handed, send_checks, sent_station, pacer_in};
ghost use Rattle.station.specs.Station as station;

use crate::roster::Roster;
use config::config::{CongestionConfig, Priority};
use config::ledger::{Ledger, check_time};
use config::refusal::Refusal;
use control::controller::{CongestionController, ControllerConfig};
use pacing::pacer_counts::WriterPacerMetrics;
use pacing::send_action::SendAction;
use pacing::writer_pacer::{PacerConfig, WriterPacer};
use pacing::{send_action, writer_pacer_alone};
use queue::entry::InstanceKey;
use queue::fate::Fate;
use queue::pool;
use queue::pool::Limits;
use signals::rtt_estimator::check_sample;
use std::marker::Model;

// What the settings say to the controller and to the pacers: held once, and read by every step.
#[derive(Clone, Copy)]
pub struct StationConfig {
    pub(crate) controller: ControllerConfig,
    pub(crate) pacer: PacerConfig,
}

impl From<CongestionConfig> for StationConfig {
    ghost from_gives = { λ config settings. settings ≡ station_config_of config };

    fn from(config: CongestionConfig) -> StationConfig {
        StationConfig {
            controller: ControllerConfig::from(config),
            pacer: PacerConfig::from(config),
        }
    }
}

impl StationConfig {
    pub fn controller(self) -> ControllerConfig
        ensures { result ≡ self.controller }
    {
        self.controller
    }

    pub fn pacer(self) -> PacerConfig
        ensures { result ≡ self.pacer }
    {
        self.pacer
    }
}

// The slots that a station's pool must have: four writers'.
fn slots_needed(limits: Limits) -> usize
    ensures { result ≡ slots_needed limits }
{
    4 * pool::slots(limits)
}

// The queues of its pacers have room for P0, P1 and P2 records.
#[derive(Clone, Copy)]
pub struct Station<const P0: usize, const P1: usize, const P2: usize> {
    pub(crate) ledger: Ledger,
    config: StationConfig,
    controller: CongestionController,
    roster: Roster<P0, P1, P2>,
}

impl<const P0: usize, const P1: usize, const P2: usize> Model for Station<P0, P1, P2> {
    ghost Value = { station.Station };

    ghost view = { λ s. station_of s.ledger s.config s.controller s.roster };

    ghost inverse = { λ v. record { ledger = v.ledger; config = v.config; controller = v.controller; roster = v.roster } };

    ghost invariant = { λ s. fits P0 P1 P2 s.config.pacer.limits ≡ true };
}

impl<const P0: usize, const P1: usize, const P2: usize> Station<P0, P1, P2> {
    // 1, 2 and 7; 2 too where the queues have no room for the limits of the settings.
    fn check_making(config: CongestionConfig, time: u64) -> Result<(), Refusal>
        ensures verdict { result ≡ verdict_of (room_checks P0 P1 P2 config time) }
        ensures room { OnOk result (fits P0 P1 P2 (limits_of config) ≡ true) }
    {
        config.check()?;
        let has_room = WriterPacer::<P0, P1, P2>::fits(pool::limits_of(config));
        Refusal::SettingsBeyond.when(!has_room)?;
        check_time(time)
    }

    // A station that no writer has joined, or 1, 2 or 7; its first last time is the time given.
    #[tactic(auto, using(crate::proofs::Rooms::one_each_fits), unfolding(crate::specs::Station::made_station, crate::specs::Station::made_by))]
    pub fn new(config: CongestionConfig, time: u64) -> Result<Self, Refusal>
        ensures { result ≡ made_station P0 P1 P2 config time }
    {
        Self::check_making(config, time)?;
        let settings = StationConfig::from(config);
        // Never refused here: where there is room for the limits there is room for a slot.
        let roster = Roster::new().ok_or(Refusal::SettingsBeyond)?;
        Ok(Station {
            ledger: Ledger::new(time),
            config: settings,
            controller: CongestionController::new(settings.controller, time),
            roster,
        })
    }

    // 7, 17, 11, 16 and 14.
    fn check_register(&self, time: u64, id: u64) -> Result<(), Refusal>
        ensures verdict { result ≡ verdict_of (register_checks self.now time id) }
        ensures place { OnOk result (self.now.roster.count < 4) }
    {
        self.ledger.check_timed(time)?;
        Refusal::WriterKnown.when(self.roster.is_here(id))?;
        Refusal::TableFull.when(4 <= self.roster.count())
    }

    // A writer of a class, whose pacer has the next number, from 0, and starts at the settings' least rate.
    pub fn register(&mut self, time: u64, id: u64, class: Priority) -> Result<(), Refusal>
        ensures { registered_station self.old time id class ≡ record { state = self.new; answer = result } }
    {
        self.check_register(time, id)?;
        let settings = self.config.pacer;
        self.roster
            .join(id, time, settings.limits(), settings.min_rate_bps());
        self.controller.register_writer(id, class);
        self.ledger = self.ledger.moved(time);
        Ok(())
    }

    pub fn on_eagain(&mut self, time: u64) -> Result<(), Refusal>
        ensures { eagain_station self.old time ≡ record { state = self.new; answer = result } }
    {
        self.ledger.check_timed(time)?;
        self.controller.on_eagain(self.config.controller);
        self.ledger = self.ledger.moved(time);
        Ok(())
    }

    pub fn on_nacks(&mut self, time: u64, count: u32) -> Result<(), Refusal>
        ensures { nacks_station self.old time count ≡ record { state = self.new; answer = result } }
    {
        self.ledger.check_timed(time)?;
        self.controller.on_nacks(self.config.controller, count);
        self.ledger = self.ledger.moved(time);
        Ok(())
    }

    // Whether congestion is signalled.
    pub fn on_ecn_tos(&mut self, time: u64, tos: u8) -> Result<bool, Refusal>
        ensures { tos_station self.old time tos ≡ record { state = self.new; answer = result } }
    {
        self.ledger.check_timed(time)?;
        let signal = self.controller.on_ecn_tos(self.config.controller, tos);
        self.ledger = self.ledger.moved(time);
        Ok(signal)
    }

    // 4, 7, 17, 11 and 14; where none applies the sample is entered. With control off no peer is, and 14 is not looked at.
    #[tactic(auto, using(crate::proofs::Peers::sample_steps), unfolding(config::specs::Refusal::verdict_of))]
    fn enter_sample(&mut self, time: u64, peer_id: u32, rtt_ms: f32) -> Result<(), Refusal>
        ensures verdict { result ≡ verdict_of (rtt_checks self.old time peer_id rtt_ms) }
        ensures entered { OnOk result (self.new ≡ station_of self.old.ledger self.old.config (sampled self.old.controller self.old.config.controller time peer_id rtt_ms) self.old.roster) }
        ensures left { OnErr result (self.new ≡ self.old) }
    {
        check_sample(self.ledger, time, rtt_ms)?;
        let settings = self.config.controller;
        let has_room = self.controller.take_sample(settings, time, peer_id, rtt_ms);
        Refusal::TableFull.when(!has_room)
    }

    // A peer's round-trip time in milliseconds.
    pub fn on_rtt_sample(&mut self, time: u64, peer_id: u32, rtt_ms: f32) -> Result<(), Refusal>
        ensures { rtt_station self.old time peer_id rtt_ms ≡ record { state = self.new; answer = result } }
    {
        self.enter_sample(time, peer_id, rtt_ms)?;
        self.ledger = self.ledger.moved(time);
        Ok(())
    }

    // The budgets in the allocator's table reach the pacers.
    fn allot(&mut self, time: u64)
        ensures { self.new ≡ allotted_to self.old time }
    {
        let settings = self.config.pacer;
        self.roster
            .budget_all(settings, time, self.controller.table());
    }

    // Whether the rate changed; it is then shared out, and the updates are the allocator's rows. A tick that is turned down asks no peer.
    pub fn tick(&mut self, time: u64) -> Result<bool, Refusal>
        ensures { ticked_station self.old time ≡ record { state = self.new; answer = result } }
    {
        self.ledger.check_timed(time)?;
        let inflated = self.controller.tracker().any_inflated();
        self.tick_told(time, inflated)
    }

    // A tick for a caller that knows whether a peer's round-trip time is inflated; 7, 17 and 11, and the answer of `tick`.
    pub fn tick_told(&mut self, time: u64, inflated: bool) -> Result<bool, Refusal>
        ensures { ticked_by self.old time inflated ≡ record { state = self.new; answer = result } }
    {
        self.ledger.check_timed(time)?;
        let changed = self
            .controller
            .tick_told(&self.config.controller, time, inflated);
        if changed {
            self.allot(time);
        }
        self.ledger = self.ledger.moved(time);
        Ok(changed)
    }

    // A rate in bytes per second is shared out whether it changed or not: the updates are the allocator's rows.
    pub fn set_rate(&mut self, time: u64, rate_bps: u32) -> Result<(), Refusal>
        ensures { rated_station self.old time rate_bps ≡ record { state = self.new; answer = result } }
    {
        self.ledger.check_rate(time, rate_bps)?;
        self.controller
            .set_rate(self.config.controller, time, rate_bps);
        self.allot(time);
        self.ledger = self.ledger.moved(time);
        Ok(())
    }

    // 3, 7, 8, 17, 11, 13 and 15, for a record of `length` bytes.
    fn check_hand_in(
        &self,
        pool_length: usize,
        time: u64,
        i: u8,
        length: usize,
    ) -> Result<(), Refusal>
        ensures verdict { result ≡ verdict_of (hand_in_checks self.now pool_length time i length) }
        ensures place { OnOk result (i < 4) }
    {
        let settings = self.config.pacer;
        let slots = slots_needed(settings.limits());
        writer_pacer_alone::check_hand_in(
            self.ledger,
            settings.enabled(),
            slots,
            pool_length,
            time,
            length,
        )?;
        Refusal::WriterUnknown.when(self.roster.count() <= i)
    }

    // A record to pacer i; the key is P2's. The lent pool is owed as the last call left it. What became of the record, `Full` among it.
    pub fn hand_in(
        &mut self,
        pool: &mut [u8],
        time: u64,
        i: u8,
        class: Priority,
        key: InstanceKey,
        sample: &[u8],
    ) -> Result<Fate, Refusal>
        ensures value { handed_station self.old (length pool.old) time i class key (length sample.now) ≡ record { state = self.new; answer = result } }
        ensures pool_after { pool.new ≡ pool_handed self.old (length pool.old) time i class key sample.now (length sample.now) pool.old }
    {
        self.check_hand_in(pool.len(), time, i, sample.len())?;
        let kept = self.roster.hand_in(i, class, key, sample.len() as u64);
        send_action::store(pool, self.config.pacer.limits(), i, class, kept, sample);
        self.ledger = self.ledger.moved(time);
        Ok(kept.fate)
    }

    // 7, 8, 17, 11 and 15.
    fn check_send(&self, pool_length: usize, time: u64, i: u8) -> Result<(), Refusal>
        ensures verdict { result ≡ verdict_of (send_checks self.now pool_length time i) }
        ensures place { OnOk result (i < 4) }
    {
        let slots = slots_needed(self.config.pacer.limits());
        writer_pacer_alone::check_send(self.ledger, slots, pool_length, time)?;
        Refusal::WriterUnknown.when(self.roster.count() <= i)
    }

    // What pacer i sends next; `sent_bytes` shows the bytes of a sent record.
    pub fn send(&mut self, pool: &[u8], time: u64, i: u8) -> Result<SendAction, Refusal>
        ensures { sent_station self.old (length pool.now) time i ≡ record { state = self.new; answer = result } }
    {
        self.check_send(pool.len(), time, i)?;
        let action = self.roster.send_if(self.config.pacer.enabled(), time, i);
        self.ledger = self.ledger.moved(time);
        Ok(action)
    }

    pub fn ledger(&self) -> Ledger
        ensures { result ≡ self.now.ledger }
    {
        self.ledger
    }

    pub fn config(&self) -> StationConfig
        ensures { result ≡ self.now.config }
    {
        self.config
    }

    // Rate, score, peers and the writers' rows.
    pub fn controller(&self) -> &CongestionController
        ensures { result.now ≡ self.now.controller }
    {
        &self.controller
    }

    // The writers and their pacers.
    pub fn roster(&self) -> &Roster<P0, P1, P2>
        ensures { result.now ≡ self.now.roster }
    {
        &self.roster
    }

    // The Rust's metrics of pacer i; where there is no such place all are 0.
    pub fn metrics(&self, i: u8) -> WriterPacerMetrics
        ensures { result ≡ metrics_in (pacer_in self.now i) }
    {
        self.roster.metrics(i)
    }
}

// The bytes of a record that pacer i sent: the middle part of the pool where it was kept.
pub fn sent_bytes(config: PacerConfig, i: u8, action: SendAction, pool: &[u8]) -> &[u8]
    ensures { result.now ≡ pacer.sent_bytes config.limits i action pool.now }
{
    send_action::sent_bytes(config.limits(), i, action, pool)
}
