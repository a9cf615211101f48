// The sending rate: additive increase and multiplicative decrease.
#![tactic(auto, unfolding(crate::specs::RateController::decreased, crate::specs::RateController::gained_from, crate::specs::RateController::lost_from, crate::specs::RateController::softened, crate::specs::RateController::hardened, crate::specs::RateController::reached_by, crate::specs::RateController::with_params, crate::specs::RateController::changed_to, crate::specs::RateController::applied, crate::specs::RateController::rate_set))]

ghost use Rattle.std.specs.Prelude.{◌≡◌};
ghost use Rattle.control.specs.RateController.{decreased, new_metrics, gained_from, lost_from, reached_by, params_of, held_rate, with_params, changed_to, applied, rate_set};

use crate::scorer::CongestionAction;
use config::config::CongestionConfig;
use numeric::float::scaled_u32;

// The range of the rate in bytes per second, the step of an increase and the factors of a decrease.
#[derive(Clone, Copy, Debug, PartialEq)]
pub struct RateParams {
    pub min_rate: u32,
    pub max_rate: u32,
    pub ai_step: u32,
    pub md_hard: f32,
    pub md_soft: f32,
}

// Changes of the rate, the bytes per second that they took and gave, and the rates reached.
#[derive(Clone, Copy, Debug, PartialEq, Eq, Default)]
pub struct RateControllerMetrics {
    pub increases: u64,
    pub decreases_soft: u64,
    pub decreases_hard: u64,
    pub capacity_lost: u64,
    pub capacity_gained: u64,
    pub peak_rate: u32,
    pub min_rate_reached: u32,
}

#[derive(Clone, Copy, Debug, PartialEq, Eq)]
pub struct RateController {
    pub(crate) current_rate: u32,
    pub(crate) last_change: u64,
    pub(crate) metrics: RateControllerMetrics,
}

// The rate after a decrease: the f32 of the rate times the factor, cut to a whole number, at least `least`.
// Where rounding lifts the product above the old rate, that is kept.
pub fn decrease(rate: u32, factor: f32, least: u32) -> u32
    ensures { result ≡ decreased rate factor least }
{
    let product = scaled_u32(rate, factor);
    if rate < product {
        rate
    } else {
        product.max(least)
    }
}

// What the settings say of the rate.
impl From<CongestionConfig> for RateParams {
    ghost from_gives = { λ config params. params ≡ params_of config };

    fn from(config: CongestionConfig) -> RateParams {
        RateParams {
            min_rate: config.min_rate_bps,
            max_rate: config.max_rate_bps,
            ai_step: config.ai_step_bps,
            md_hard: config.md_factor_hard,
            md_soft: config.md_factor_soft,
        }
    }
}

impl RateParams {
    // A rate held to the range.
    fn held(self, rate_bps: u32) -> u32
        ensures { result ≡ held_rate self rate_bps }
    {
        rate_bps.max(self.min_rate).min(self.max_rate)
    }
}

impl RateControllerMetrics {
    pub(crate) fn new(rate: u32) -> RateControllerMetrics
        ensures { result ≡ new_metrics rate }
    {
        RateControllerMetrics {
            peak_rate: rate,
            min_rate_reached: rate,
            ..RateControllerMetrics::default()
        }
    }

    // An increase from one rate to another.
    fn gained(self, old: u32, new: u32) -> RateControllerMetrics
        ensures { result ≡ gained_from self old new }
    {
        let gain = new.saturating_sub(old) as u64;
        RateControllerMetrics {
            increases: self.increases.saturating_add(1),
            capacity_gained: self.capacity_gained.saturating_add(gain),
            peak_rate: self.peak_rate.max(new),
            ..self
        }
    }

    // What a decrease from one rate to another takes.
    fn lost(self, old: u32, new: u32) -> RateControllerMetrics
        ensures { result ≡ lost_from self old new }
    {
        let loss = old.saturating_sub(new) as u64;
        RateControllerMetrics {
            capacity_lost: self.capacity_lost.saturating_add(loss),
            min_rate_reached: self.min_rate_reached.min(new),
            ..self
        }
    }

    // A rate that was set.
    fn reached(self, rate: u32) -> RateControllerMetrics
        ensures { result ≡ reached_by self rate }
    {
        RateControllerMetrics {
            peak_rate: self.peak_rate.max(rate),
            min_rate_reached: self.min_rate_reached.min(rate),
            ..self
        }
    }
}

// The steps: total, with no refusals.
impl RateController {
    // The initial rate is held to the range.
    // Stays: [5] the arguments of document 01's `with_params`, and so of its public call and of that one's checks.
    pub fn with_params(params: RateParams, time: u64, initial_rate: u32) -> RateController
        ensures { result ≡ with_params params time initial_rate }
    {
        let rate = params.held(initial_rate);
        RateController {
            current_rate: rate,
            last_change: time,
            metrics: RateControllerMetrics::new(rate),
        }
    }

    // What the scorer asks for. Told: whether the rate changed.
    pub fn apply_action(
        mut self,
        params: RateParams,
        time: u64,
        action: CongestionAction,
    ) -> (RateController, bool)
        ensures { result ≡ applied self params time action }
    {
        let changed = self.apply_in_place(&params, time, action);
        (self, changed)
    }

    // The same in its place: where nothing is asked for, nothing is read or written.
    #[inline(always)]
    pub(crate) fn apply_in_place(
        &mut self,
        params: &RateParams,
        time: u64,
        action: CongestionAction,
    ) -> bool
        ensures { (self.new, result) ≡ applied self.old params.now time action }
    {
        let old = self.current_rate;
        match action {
            CongestionAction::None => false,
            CongestionAction::Increase => {
                let rate = old.saturating_add(params.ai_step).min(params.max_rate);
                self.change_to(time, rate, self.metrics.gained(old, rate))
            }
            CongestionAction::DecreaseSoft => {
                let rate = decrease(old, params.md_soft, params.min_rate);
                let mut metrics = self.metrics.lost(old, rate);
                metrics.decreases_soft = metrics.decreases_soft.saturating_add(1);
                self.change_to(time, rate, metrics)
            }
            CongestionAction::DecreaseHard => {
                let rate = decrease(old, params.md_hard, params.min_rate);
                let mut metrics = self.metrics.lost(old, rate);
                metrics.decreases_hard = metrics.decreases_hard.saturating_add(1);
                self.change_to(time, rate, metrics)
            }
        }
    }

    // The new rate with its metrics, unless it is the old one.
    #[inline(always)]
    fn change_to(&mut self, time: u64, rate: u32, metrics: RateControllerMetrics) -> bool
        ensures { (self.new, result) ≡ changed_to self.old time rate metrics }
    {
        let changes = rate != self.current_rate;
        if changes {
            *self = RateController {
                current_rate: rate,
                last_change: time,
                metrics,
            };
        }
        changes
    }

    // A rate that is given, held to the range.
    pub fn set_rate(self, params: RateParams, time: u64, rate_bps: u32) -> RateController
        ensures { result ≡ rate_set self params time rate_bps }
    {
        let rate = params.held(rate_bps);
        RateController {
            current_rate: rate,
            last_change: time,
            metrics: self.metrics.reached(rate),
        }
    }

    pub fn rate(self) -> u32
        ensures { result ≡ self.current_rate }
    {
        self.current_rate
    }

    pub fn last_change(self) -> u64
        ensures { result ≡ self.last_change }
    {
        self.last_change
    }

    pub fn metrics(self) -> RateControllerMetrics
        ensures { result ≡ self.metrics }
    {
        self.metrics
    }
}
