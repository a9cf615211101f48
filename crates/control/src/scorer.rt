// The congestion score: a decaying sum of the signals, and a state with hysteresis that asks for decreases and increases.
#![tactic(auto, unfolding(crate::specs::Scorer::loss_impulse, crate::specs::Scorer::added_if, crate::specs::Scorer::impulse_of, crate::specs::Scorer::tick_measured, crate::specs::Scorer::congestion_measured, crate::specs::Scorer::recovery_measured, crate::specs::Scorer::congested_for, crate::specs::Scorer::on_eagain, crate::specs::Scorer::on_rtt_inflated, crate::specs::Scorer::on_nack, crate::specs::Scorer::on_loss, crate::specs::Scorer::in_cooldown, crate::specs::Scorer::can_increase, crate::specs::Scorer::congested_at, crate::specs::Scorer::evaluated_stable, crate::specs::Scorer::evaluated_congested, crate::specs::Scorer::evaluated, crate::specs::Scorer::ticked))]

ghost use Rattle.std.specs.Prelude.{◌≡◌};
ghost use Rattle.control.specs.Scorer.{state_number, action_number, scorer_config_of, loss_impulse, added_if, impulse_of, tick_measured, congested_for, new_scorer, on_eagain, on_rtt_inflated, on_nack, on_loss, in_cooldown, can_increase, congested_at, evaluated_stable, evaluated_congested, evaluated, ticked};

use config::config::CongestionConfig;
use numeric::float::{clamp_f32, f32_of_u32};

// Stable: the rate may grow. Congested: it was lowered, and waits for recovery.
#[derive(Clone, Copy, Debug, PartialEq, Eq)]
pub enum ScorerState {
    Stable = 0,
    Congested = 1,
}

// What the scorer asks of the rate.
#[derive(Clone, Copy, Debug, PartialEq, Eq)]
pub enum CongestionAction {
    None = 0,
    Increase = 1,
    DecreaseSoft = 2,
    DecreaseHard = 3,
}

// The digit that stands for a state.
impl From<ScorerState> for u8 {
    ghost from_gives = { λ state number. number ≡ state_number state };

    fn from(state: ScorerState) -> u8 {
        state as u8
    }
}

// The digit that stands for an action.
impl From<CongestionAction> for u8 {
    ghost from_gives = { λ action number. number ≡ action_number action };

    fn from(action: CongestionAction) -> u8 {
        action as u8
    }
}

// What the settings say of the score; durations in nanoseconds.
#[derive(Clone, Copy, Debug, PartialEq)]
pub struct ScorerConfig {
    pub tick_interval: u64,
    pub decay: f32,
    pub decrease_threshold: f32,
    pub increase_threshold: f32,
    pub hysteresis: f32,
    pub cooldown: u64,
    pub stable_window: u64,
    pub eagain_impulse: f32,
    pub rtt_impulse: f32,
    pub nack_impulse: f32,
    pub nack_threshold: u32,
    pub eagain_is_hard: bool,
}

// Nanoseconds in a millisecond.
const MILLISECOND: u64 = 1000000;

impl From<CongestionConfig> for ScorerConfig {
    ghost from_gives = { λ config scorer. scorer ≡ scorer_config_of config };

    fn from(config: CongestionConfig) -> ScorerConfig {
        ScorerConfig {
            tick_interval: config.score_tick_ms as u64 * MILLISECOND,
            decay: config.score_decay,
            decrease_threshold: f32::from(config.decrease_threshold),
            increase_threshold: f32::from(config.increase_threshold),
            hysteresis: f32::from(config.hysteresis_band),
            cooldown: config.cooldown_ms as u64 * MILLISECOND,
            stable_window: config.stable_window_ms as u64 * MILLISECOND,
            eagain_impulse: f32::from(config.eagain_impulse),
            rtt_impulse: f32::from(config.rtt_impulse),
            nack_impulse: f32::from(config.nack_impulse),
            nack_threshold: config.nack_rate_threshold,
            eagain_is_hard: config.eagain_is_hard,
        }
    }
}

// The signals since the last tick.
#[derive(Clone, Copy, Debug, PartialEq, Eq, Default)]
pub struct PendingSignals {
    pub eagain_count: u32,
    pub rtt_inflated: bool,
    pub nack_count: u32,
    pub loss_count: u32,
}

// A sum with one more term, where the term counts.
fn added_if(counts: bool, sum: f32, term: f32) -> f32
    ensures { result ≡ added_if counts sum term }
{
    if counts { sum + term } else { sum }
}

// What losses add: 5 each, at most 30.
fn loss_impulse(losses: u32) -> f32
    ensures { result ≡ loss_impulse losses }
{
    let sum = f32_of_u32(losses) * 5.0;
    if sum < 30.0 { sum } else { 30.0 }
}

impl PendingSignals {
    // What the pending signals add to the score: each kind once, however often it came, but for losses.
    #[inline(always)]
    fn impulse(self, config: &ScorerConfig) -> f32
        ensures { result ≡ impulse_of config.now self }
    {
        let i = added_if(self.eagain_count > 0, 0.0, config.eagain_impulse);
        let i = added_if(self.rtt_inflated, i, config.rtt_impulse);
        let i = added_if(
            self.nack_count > config.nack_threshold,
            i,
            config.nack_impulse,
        );
        added_if(self.loss_count > 0, i, loss_impulse(self.loss_count))
    }
}

// Signals in all, by kind.
#[derive(Clone, Copy, Debug, PartialEq, Eq, Default)]
pub struct SignalCounts {
    pub eagain_signals: u64,
    pub rtt_signals: u64,
    pub nack_signals: u64,
}

#[derive(Clone, Copy, Debug, PartialEq, Default)]
pub struct ScorerMetrics {
    pub ticks: u64,
    pub congestion_events: u64,
    pub recovery_events: u64,
    pub peak_score: f32,
    // In nanoseconds, a tick's interval at a time.
    pub congested_duration: u64,
}

impl ScorerMetrics {
    // A tick, and the score that it left.
    #[inline(always)]
    fn tick(&mut self, score: f32)
        ensures { self.new ≡ tick_measured self.old score }
    {
        self.ticks = self.ticks.saturating_add(1);
        if score > self.peak_score {
            self.peak_score = score;
        }
    }

    // One tick's interval more in the congested state.
    #[inline(always)]
    fn congested_for(&mut self, interval: u64)
        ensures { self.new ≡ congested_for self.old interval }
    {
        self.congested_duration = self.congested_duration.saturating_add(interval);
    }
}

// The state, the end of the time without new increases or recovery, and since when it is stable; both may be never.
#[derive(Clone, Copy, Debug, PartialEq, Eq)]
pub struct Phase {
    pub state: ScorerState,
    pub cooldown_until: Option<u64>,
    pub stable_since: Option<u64>,
}

#[derive(Clone, Copy, Debug, PartialEq)]
pub struct CongestionScorer {
    pub(crate) score: f32,
    pub(crate) last_tick: u64,
    pub(crate) phase: Phase,
    pub(crate) pending: PendingSignals,
    pub(crate) signals: SignalCounts,
    pub(crate) metrics: ScorerMetrics,
}

// The steps: total, with no refusals.
impl CongestionScorer {
    pub fn new(time: u64) -> CongestionScorer
        ensures { result ≡ new_scorer time }
    {
        CongestionScorer {
            score: 0.0,
            last_tick: time,
            phase: Phase {
                state: ScorerState::Stable,
                cooldown_until: None,
                stable_since: Some(time),
            },
            pending: PendingSignals::default(),
            signals: SignalCounts::default(),
            metrics: ScorerMetrics::default(),
        }
    }

    // The sender found no room.
    // Stays: [2] a function for each signal, as each counts in two fields of its own, which a function for both would have to be told.
    pub fn on_eagain(mut self) -> CongestionScorer
        ensures { result ≡ on_eagain self }
    {
        self.pending.eagain_count = self.pending.eagain_count.saturating_add(1);
        self.signals.eagain_signals = self.signals.eagain_signals.saturating_add(1);
        self
    }

    // A round-trip time is inflated, or marks came.
    pub fn on_rtt_inflated(mut self) -> CongestionScorer
        ensures { result ≡ on_rtt_inflated self }
    {
        self.pending.rtt_inflated = true;
        self.signals.rtt_signals = self.signals.rtt_signals.saturating_add(1);
        self
    }

    // A window of NACKs was above its threshold.
    // Stays: [2] as `on_eagain`.
    pub fn on_nack(mut self) -> CongestionScorer
        ensures { result ≡ on_nack self }
    {
        self.pending.nack_count = self.pending.nack_count.saturating_add(1);
        self.signals.nack_signals = self.signals.nack_signals.saturating_add(1);
        self
    }

    // A record was lost. There is no count of losses in all.
    pub fn on_loss(mut self) -> CongestionScorer
        ensures { result ≡ on_loss self }
    {
        self.pending.loss_count = self.pending.loss_count.saturating_add(1);
        self
    }

    // The score decays and takes what is pending; the state follows. Told: what the scorer asks for.
    pub fn tick(mut self, config: ScorerConfig, time: u64) -> (CongestionScorer, CongestionAction)
        ensures { result ≡ ticked self config time }
    {
        let action = self.tick_in_place(&config, time);
        (self, action)
    }

    // The same in its place: what a tick leaves as it was is neither read nor written.
    #[inline(always)]
    #[tactic(auto, unfolding(crate::specs::Scorer::ticked))]
    pub(crate) fn tick_in_place(&mut self, config: &ScorerConfig, time: u64) -> CongestionAction
        ensures { (self.new, result) ≡ ticked self.old config.now time }
    {
        let impulse = self.pending.impulse(config);
        let had_eagain = self.pending.eagain_count > 0;
        self.score = clamp_f32(self.score * config.decay + impulse, 0.0, 100.0);
        self.last_tick = time;
        self.pending = PendingSignals::default();
        self.metrics.tick(self.score);
        self.evaluate_state(config, time, had_eagain)
    }

    // Stays: [5] what a tick hands from step to step; as a struct it would be made in `tick_in_place` and taken apart in each.
    #[inline(always)]
    fn evaluate_state(
        &mut self,
        config: &ScorerConfig,
        time: u64,
        had_eagain: bool,
    ) -> CongestionAction
        ensures { (self.new, result) ≡ evaluated self.old config.now time had_eagain }
    {
        match self.phase.state {
            ScorerState::Stable => self.evaluate_stable(config, time, had_eagain),
            ScorerState::Congested => self.evaluate_congested(config, time),
        }
    }

    // A score at the threshold is congestion; else the rate may grow, out of cooldown and after a stable window.
    #[inline(always)]
    fn evaluate_stable(
        &mut self,
        config: &ScorerConfig,
        time: u64,
        had_eagain: bool,
    ) -> CongestionAction
        ensures { (self.new, result) ≡ evaluated_stable self.old config.now time had_eagain }
    {
        if self.score >= config.decrease_threshold {
            return self.enter_congested(config, time, had_eagain);
        }
        let cooling = self.phase.in_cooldown(time);
        if !cooling && self.phase.can_increase(config.stable_window, time) {
            CongestionAction::Increase
        } else {
            CongestionAction::None
        }
    }

    fn enter_congested(
        &mut self,
        config: &ScorerConfig,
        time: u64,
        had_eagain: bool,
    ) -> CongestionAction
        ensures { (self.new, result) ≡ congested_at self.old config.now time had_eagain }
    {
        self.phase = Phase {
            state: ScorerState::Congested,
            cooldown_until: Some(time.saturating_add(config.cooldown)),
            stable_since: None,
        };
        self.metrics.congestion_events = self.metrics.congestion_events.saturating_add(1);
        if config.eagain_is_hard && had_eagain {
            CongestionAction::DecreaseHard
        } else {
            CongestionAction::DecreaseSoft
        }
    }

    // Recovery comes out of cooldown, at a score no more than the increase threshold and the hysteresis band.
    fn evaluate_congested(&mut self, config: &ScorerConfig, time: u64) -> CongestionAction
        ensures { (self.new, result) ≡ evaluated_congested self.old config.now time }
    {
        self.metrics.congested_for(config.tick_interval);
        let cooling = self.phase.in_cooldown(time);
        if !cooling && self.score <= config.increase_threshold + config.hysteresis {
            self.phase.state = ScorerState::Stable;
            self.phase.stable_since = Some(time);
            self.metrics.recovery_events = self.metrics.recovery_events.saturating_add(1);
        }
        CongestionAction::None
    }

    pub fn score(self) -> f32
        ensures { result ≡ self.score }
    {
        self.score
    }

    pub fn last_tick(self) -> u64
        ensures { result ≡ self.last_tick }
    {
        self.last_tick
    }

    pub fn phase(self) -> Phase
        ensures { result ≡ self.phase }
    {
        self.phase
    }

    pub fn pending(self) -> PendingSignals
        ensures { result ≡ self.pending }
    {
        self.pending
    }

    pub fn signals(self) -> SignalCounts
        ensures { result ≡ self.signals }
    {
        self.signals
    }

    pub fn metrics(self) -> ScorerMetrics
        ensures { result ≡ self.metrics }
    {
        self.metrics
    }
}

impl Phase {
    #[inline(always)]
    fn in_cooldown(self, time: u64) -> bool
        ensures { result ≡ in_cooldown self time }
    {
        self.cooldown_until.is_some_and(|end| time < end)
    }

    // Stable for a whole window.
    #[inline(always)]
    fn can_increase(self, window: u64, time: u64) -> bool
        ensures { result ≡ can_increase self window time }
    {
        self.stable_since
            .is_some_and(|start| time.saturating_sub(start) >= window)
    }
}
