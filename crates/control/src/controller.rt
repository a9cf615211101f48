// The congestion controller: signals reach the scorer, whose ticks steer the rate, which is shared out among the writers.
#![tactic(auto, unfolding(crate::specs::Controller::new_core, crate::specs::Controller::on_eagain, crate::specs::Controller::on_nacks, crate::specs::Controller::marked, crate::specs::Controller::on_ecn_tos, crate::specs::Controller::on_ecn_ce, crate::specs::Controller::on_inflated, crate::specs::Controller::on_window, crate::specs::Controller::steered, crate::specs::Controller::core_ticked, crate::specs::Controller::core_set, crate::specs::Controller::new_controller, crate::specs::Controller::registered_in, crate::specs::Controller::sampled, crate::specs::Controller::controller_ticked, crate::specs::Controller::controller_set, crate::specs::Controller::full_for_peer, crate::specs::Controller::tos_in))]

ghost use Rattle.std.specs.Prelude.{◌≡◌, not};
ghost use Rattle.control.specs.Controller.{controller_config_of, new_core, on_eagain, on_nacks, marked, on_ecn_tos, on_ecn_ce, on_inflated, on_window, steered, core_ticked, core_set, controller_of, new_controller, registered_in, sampled, controller_ticked, controller_ticked_by, controller_set, full_for_peer, with_core, tos_in};
ghost use Rattle.control.specs.ControllerAlone.{no_config};

use crate::budget_allocator::{AllocationConfig, BudgetAllocator, WriterTable};
use crate::metrics::CongestionMetrics;
use crate::rate_controller::{RateController, RateParams};
use crate::scorer::{CongestionScorer, ScorerConfig};
use config::config::{CongestionConfig, EcnMode, Priority};
use signals::ecn::EcnProcessor;
use signals::rtt_estimator::PeerRttTracker;

// Nanoseconds in a NACK window: a second.
const NACK_WINDOW: u64 = 1000000000;

// The default round-trip time of a new peer in milliseconds.
const DEFAULT_RTT_MS: f32 = 100.0;

// What the settings say to the controller and its parts.
#[derive(Clone, Copy, Debug, PartialEq)]
pub struct ControllerConfig {
    pub enabled: bool,
    pub ecn: bool,
    pub scorer: ScorerConfig,
    pub rate: RateParams,
    pub allocation: AllocationConfig,
}

// Marks are looked at unless congestion notification is off.
impl From<CongestionConfig> for ControllerConfig {
    ghost from_gives = { λ config controller. controller ≡ controller_config_of config };

    fn from(config: CongestionConfig) -> ControllerConfig {
        ControllerConfig {
            enabled: config.enabled,
            ecn: config.ecn_mode != EcnMode::Off,
            scorer: ScorerConfig::from(config),
            rate: RateParams::from(config),
            allocation: AllocationConfig::from(config),
        }
    }
}

impl ControllerConfig {
    // Settings that were turned down: disabled, and every number 0.
    pub fn zero() -> ControllerConfig
        ensures { result ≡ no_config }
    {
        ControllerConfig {
            enabled: false,
            ecn: false,
            scorer: ScorerConfig {
                tick_interval: 0,
                decay: 0.0,
                decrease_threshold: 0.0,
                increase_threshold: 0.0,
                hysteresis: 0.0,
                cooldown: 0,
                stable_window: 0,
                eagain_impulse: 0.0,
                rtt_impulse: 0.0,
                nack_impulse: 0.0,
                nack_threshold: 0,
                eagain_is_hard: false,
            },
            rate: RateParams {
                min_rate: 0,
                max_rate: 0,
                ai_step: 0,
                md_hard: 0.0,
                md_soft: 0.0,
            },
            allocation: AllocationConfig {
                p0_min_share: 0.0,
                p0_min_bps: 0,
            },
        }
    }
}

// The NACKs of the current window, and when it began.
#[derive(Clone, Copy, Debug, PartialEq, Eq)]
pub struct NackWindow {
    pub count: u32,
    pub start: u64,
}

// All but the tables: what the signals and a tick that changes nothing touch.
#[derive(Clone, Copy, Debug, PartialEq)]
pub struct ControllerCore {
    pub(crate) scorer: CongestionScorer,
    pub(crate) rate_controller: RateController,
    pub(crate) ecn: EcnProcessor,
    pub(crate) metrics: CongestionMetrics,
    pub(crate) nacks: NackWindow,
    pub(crate) last_tick: u64,
}

// The steps on the core: total, with no refusals. Disabled, signals and ticks leave it.
impl ControllerCore {
    // The rate begins at its largest.
    pub fn new(config: ControllerConfig, time: u64) -> ControllerCore
        ensures { result ≡ new_core config time }
    {
        let params = config.rate;
        ControllerCore {
            scorer: CongestionScorer::new(time),
            rate_controller: RateController::with_params(params, time, params.max_rate),
            ecn: EcnProcessor::default(),
            metrics: CongestionMetrics::default(),
            nacks: NackWindow {
                count: 0,
                start: time,
            },
            last_tick: time,
        }
    }

    pub fn on_eagain(&mut self, config: ControllerConfig)
        ensures { self.new ≡ on_eagain self.old config }
    {
        if config.enabled {
            self.scorer = self.scorer.on_eagain();
            self.metrics = self.metrics.record_eagain();
        }
    }

    // NACKs wait for the end of their window.
    pub fn on_nacks(&mut self, config: ControllerConfig, count: u32)
        ensures { self.new ≡ on_nacks self.old config count }
    {
        if config.enabled {
            self.nacks.count = self.nacks.count.saturating_add(count);
        }
    }

    // Marks that signal congestion count as an inflated round-trip time.
    fn mark(&mut self)
        ensures { self.new ≡ marked self.old }
    {
        self.scorer = self.scorer.on_rtt_inflated();
        self.metrics = self.metrics.record_ecn_ce();
    }

    // Whether congestion is signalled.
    pub fn on_ecn_tos(&mut self, config: ControllerConfig, tos: u8) -> bool
        ensures { (self.new, result) ≡ on_ecn_tos self.old config tos }
    {
        if !config.enabled || !config.ecn {
            return false;
        }
        let (ecn, signal) = self.ecn.process_tos(tos);
        self.ecn = ecn;
        if signal {
            self.mark();
        }
        signal
    }

    // A single mark is signalled at once.
    pub fn on_ecn_ce(&mut self, config: ControllerConfig)
        ensures { self.new ≡ on_ecn_ce self.old config }
    {
        if config.enabled && config.ecn {
            self.ecn = self.ecn.process_ce().0;
            self.mark();
        }
    }

    // An inflated peer reaches the scorer at a tick.
    #[inline(always)]
    fn note_inflated(&mut self, inflated: bool)
        ensures { self.new ≡ on_inflated self.old inflated }
    {
        if inflated {
            self.scorer = self.scorer.on_rtt_inflated();
        }
    }

    // After a second a NACK window closes; one above its threshold reaches the scorer as a single NACK.
    #[inline(always)]
    fn update_nack_rate(&mut self, threshold: u32, time: u64)
        ensures { self.new ≡ on_window self.old threshold time }
    {
        let nacks = self.nacks;
        if time.saturating_sub(nacks.start) >= NACK_WINDOW {
            self.nacks = NackWindow {
                count: 0,
                start: time,
            };
            if nacks.count > threshold {
                self.scorer = self.scorer.on_nack();
            }
        }
    }

    // The scorer's tick, and what it asks of the rate; whether that changed.
    #[inline(always)]
    fn steer(&mut self, config: &ControllerConfig, time: u64) -> bool
        ensures { (self.new, result) ≡ steered self.old config.now time }
    {
        let action = self.scorer.tick_in_place(&config.scorer, time);
        let changed = self
            .rate_controller
            .apply_in_place(&config.rate, time, action);
        self.metrics = self.metrics.record_change(changed, self.rate());
        changed
    }

    // A tick on all but the tables, and whether the rate changed; `inflated` tells whether a peer is.
    pub fn tick(&mut self, config: ControllerConfig, time: u64, inflated: bool) -> bool
        ensures { (self.new, result) ≡ core_ticked self.old config time inflated }
    {
        self.tick_by(&config, time, inflated)
    }

    // The same by settings that are lent.
    #[inline(always)]
    fn tick_by(&mut self, config: &ControllerConfig, time: u64, inflated: bool) -> bool
        ensures { (self.new, result) ≡ core_ticked self.old config.now time inflated }
    {
        if !config.enabled {
            return false;
        }
        self.last_tick = time;
        self.note_inflated(inflated);
        self.update_nack_rate(config.scorer.nack_threshold, time);
        self.steer(config, time)
    }

    // The rate is held to its range; the metrics take it as given.
    pub fn set_rate(&mut self, config: ControllerConfig, time: u64, rate_bps: u32)
        ensures { self.new ≡ core_set self.old config time rate_bps }
    {
        self.rate_controller = self.rate_controller.set_rate(config.rate, time, rate_bps);
        self.metrics = self.metrics.record_rate(rate_bps);
    }

    pub fn rate(&self) -> u32
        ensures { result ≡ self.now.rate_controller.current_rate }
    {
        self.rate_controller.rate()
    }

    pub fn scorer(&self) -> CongestionScorer
        ensures { result ≡ self.now.scorer }
    {
        self.scorer
    }

    pub fn rate_controller(&self) -> RateController
        ensures { result ≡ self.now.rate_controller }
    {
        self.rate_controller
    }

    pub fn ecn(&self) -> EcnProcessor
        ensures { result ≡ self.now.ecn }
    {
        self.ecn
    }

    pub fn metrics(&self) -> CongestionMetrics
        ensures { result ≡ self.now.metrics }
    {
        self.metrics
    }

    pub fn nacks(&self) -> NackWindow
        ensures { result ≡ self.now.nacks }
    {
        self.nacks
    }

    pub fn last_tick(&self) -> u64
        ensures { result ≡ self.now.last_tick }
    {
        self.last_tick
    }
}

// The core and the two tables.
#[derive(Clone, Copy, Debug, PartialEq)]
pub struct CongestionController {
    pub(crate) core: ControllerCore,
    pub(crate) tracker: PeerRttTracker,
    pub(crate) allocator: BudgetAllocator,
}

// The steps: total, with no refusals. Disabled, signals, samples and ticks leave it.
impl CongestionController {
    // A controller from its parts.
    pub fn of(
        core: ControllerCore,
        tracker: PeerRttTracker,
        allocator: BudgetAllocator,
    ) -> CongestionController
        ensures { result ≡ controller_of core tracker allocator }
    {
        CongestionController {
            core,
            tracker,
            allocator,
        }
    }

    pub fn new(config: ControllerConfig, time: u64) -> CongestionController
        ensures { result ≡ new_controller config time }
    {
        CongestionController {
            core: ControllerCore::new(config, time),
            tracker: PeerRttTracker::new(DEFAULT_RTT_MS),
            allocator: BudgetAllocator::default(),
        }
    }

    // Works disabled too.
    pub fn register_writer(&mut self, id: u64, priority: Priority)
        ensures { self.new ≡ registered_in self.old id priority }
    {
        self.allocator.register(id, priority);
    }

    // The sender found no room.
    // Stays: [5] the fact that a signal touches the core alone has its name, `with_core`, and each of three calls says what the core becomes.
    pub fn on_eagain(&mut self, config: ControllerConfig)
        ensures { self.new ≡ with_core self.old (on_eagain self.old.core config) }
    {
        self.core.on_eagain(config);
    }

    // So many NACKs came.
    pub fn on_nacks(&mut self, config: ControllerConfig, count: u32)
        ensures { self.new ≡ with_core self.old (on_nacks self.old.core config count) }
    {
        self.core.on_nacks(config, count);
    }

    // A packet's TOS byte; whether congestion is signalled.
    pub fn on_ecn_tos(&mut self, config: ControllerConfig, tos: u8) -> bool
        ensures { (self.new, result) ≡ tos_in self.old config tos }
    {
        self.core.on_ecn_tos(config, tos)
    }

    // A single mark.
    pub fn on_ecn_ce(&mut self, config: ControllerConfig)
        ensures { self.new ≡ with_core self.old (on_ecn_ce self.old.core config) }
    {
        self.core.on_ecn_ce(config);
    }

    // A peer's round-trip time in milliseconds; a full table takes no new peer.
    // Stays: [5] the Rust's arguments of a sample and document 01's time; a struct of them would be made at each call and taken apart in it.
    pub fn on_rtt_sample(&mut self, config: ControllerConfig, time: u64, peer_id: u32, rtt_ms: f32)
        ensures { self.new ≡ sampled self.old config time peer_id rtt_ms }
    {
        self.take_sample(config, time, peer_id, rtt_ms);
    }

    // The same, and whether there was room for the peer; a disabled controller looks at no peer, and has room.
    pub fn take_sample(
        &mut self,
        config: ControllerConfig,
        time: u64,
        peer_id: u32,
        rtt_ms: f32,
    ) -> bool
        ensures state { self.new ≡ sampled self.old config time peer_id rtt_ms }
        ensures room { result ≡ not (full_for_peer self.old config peer_id) }
    {
        if config.enabled {
            self.tracker.update(time, peer_id, rtt_ms)
        } else {
            true
        }
    }

    // A changed rate is shared out at once. Told: whether it changed; each writer's row then tells its update.
    pub fn tick(&mut self, config: ControllerConfig, time: u64) -> bool
        ensures { (self.new, result) ≡ controller_ticked self.old config time }
    {
        let inflated = self.tracker.any_inflated();
        self.tick_told(&config, time, inflated)
    }

    // The same for a caller that knows whether a peer's round-trip time is inflated, by settings that are lent.
    #[inline(always)]
    pub fn tick_told(&mut self, config: &ControllerConfig, time: u64, inflated: bool) -> bool
        ensures { (self.new, result) ≡ controller_ticked_by self.old config.now time inflated }
    {
        let changed = self.core.tick_by(config, time, inflated);
        if changed {
            self.allocator
                .reallocate(config.allocation, self.core.rate());
        }
        changed
    }

    // The rate is held to its range, but the rate as given is shared out. Works disabled too.
    pub fn set_rate(&mut self, config: ControllerConfig, time: u64, rate_bps: u32)
        ensures { self.new ≡ controller_set self.old config time rate_bps }
    {
        self.core.set_rate(config, time, rate_bps);
        self.allocator.reallocate(config.allocation, rate_bps);
    }

    // Whether a sample of a peer would find the table full; a disabled controller looks at no peer.
    pub fn is_full_for_peer(&self, config: ControllerConfig, peer_id: u32) -> bool
        ensures { result ≡ full_for_peer self.now config peer_id }
    {
        config.enabled && self.tracker.is_full_for(peer_id)
    }

    pub fn core(&self) -> ControllerCore
        ensures { result ≡ self.now.core }
    {
        self.core
    }

    pub fn tracker(&self) -> &PeerRttTracker
        ensures { result.now ≡ self.now.tracker }
    {
        &self.tracker
    }

    pub fn allocator(&self) -> &BudgetAllocator
        ensures { result.now ≡ self.now.allocator }
    {
        &self.allocator
    }

    // The writers by class and then by id, and what each has.
    pub fn table(&self) -> &WriterTable
        ensures { result.now ≡ self.now.allocator.table }
    {
        self.allocator.table()
    }
}
