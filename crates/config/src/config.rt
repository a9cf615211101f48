// The settings of congestion control and their checks.
ghost use Rattle.std.specs.Prelude.{◌≡◌};
ghost use Rattle.config.specs.Refusal.{verdict_of};
ghost use Rattle.config.specs.Config.{class_number, class_of, setting_number, fails_by, defaults, without_control, failed_check, not_in_open_closed, not_in_open, not_in_closed, factor_out, rates_beyond, floats_beyond, queues_beyond, limit_beyond, settings_checks, making_checks};

use crate::ledger::check_time;
use crate::refusal::{LARGEST_RATE, Refusal, error_if};

// Explicit congestion notification: off, used where it is to be had, or required.
#[derive(Clone, Copy, Debug, PartialEq, Eq)]
pub enum EcnMode {
    Off,
    Opportunistic,
    Mandatory,
}

// The class of a record and of a writer: urgent, normal, background.
#[derive(Clone, Copy, Debug, PartialEq, Eq, PartialOrd, Ord)]
pub enum Priority {
    P0 = 0,
    P1 = 1,
    P2 = 2,
}

// The digit that stands for a class.
impl From<Priority> for u8 {
    ghost from_gives = { λ class number. number ≡ class_number class };

    fn from(class: Priority) -> u8 {
        class as u8
    }
}

// The class that a digit stands for; from 3 on none, which is 5.
impl TryFrom<u8> for Priority {
    type Error = Refusal;

    ghost try_from_gives = { λ number answer. answer ≡ class_of number };

    fn try_from(number: u8) -> Result<Priority, Refusal> {
        match number {
            0 => Ok(Priority::P0),
            1 => Ok(Priority::P1),
            2 => Ok(Priority::P2),
            _ => Err(Refusal::KindUnknown),
        }
    }
}

// Which of the seven checks of settings fails.
#[derive(Clone, Copy, Debug, PartialEq, Eq)]
pub enum InvalidSetting {
    // The least rate is above the largest.
    Rates = 1,
    // Outside (0, 1].
    HardFactor = 2,
    SoftFactor = 3,
    // Outside (0, 1).
    ScoreDecay = 4,
    // The decrease threshold is not above the increase threshold.
    Thresholds = 5,
    // Outside [0, 1].
    P0MinShare = 6,
    RepairBudgetRatio = 7,
}

impl InvalidSetting {
    // Refuses the settings where this check fails.
    fn when(self, fails: bool) -> Result<(), InvalidSetting>
        ensures { result ≡ fails_by self fails }
    {
        error_if(fails, self)
    }
}

// The check's number, from 1.
impl From<InvalidSetting> for u8 {
    ghost from_gives = { λ setting number. number ≡ setting_number setting };

    fn from(setting: InvalidSetting) -> u8 {
        setting as u8
    }
}

// The fields that ported calls read, under the Rust's names.
#[derive(Clone, Copy, Debug, PartialEq)]
pub struct CongestionConfig {
    pub enabled: bool,
    // Rates in bytes per second, and the factors of a decrease.
    pub min_rate_bps: u32,
    pub max_rate_bps: u32,
    pub ai_step_bps: u32,
    pub md_factor_hard: f32,
    pub md_factor_soft: f32,
    pub stable_window_ms: u32,
    pub cooldown_ms: u32,
    // The score.
    pub score_tick_ms: u32,
    pub score_decay: f32,
    pub decrease_threshold: u8,
    pub increase_threshold: u8,
    pub hysteresis_band: u8,
    // What the signals add to the score.
    pub eagain_is_hard: bool,
    pub eagain_impulse: u8,
    pub rtt_impulse: u8,
    pub nack_rate_threshold: u32,
    pub nack_impulse: u8,
    pub repair_budget_ratio: f32,
    // Queue limits in records.
    pub max_queue_p0: usize,
    pub max_queue_p1: usize,
    pub max_queue_p2: usize,
    // What P0 is guaranteed.
    pub p0_min_share: f32,
    pub p0_min_bps: u32,
    pub ecn_mode: EcnMode,
}

// The Rust's defaults.
impl Default for CongestionConfig {
    ghost is_default = { λ config. config ≡ defaults };

    fn default() -> CongestionConfig {
        CongestionConfig {
            enabled: true,
            min_rate_bps: 10000,
            max_rate_bps: 100000000,
            ai_step_bps: 50000,
            md_factor_hard: 0.5,
            md_factor_soft: 0.8,
            stable_window_ms: 1000,
            cooldown_ms: 300,
            score_tick_ms: 100,
            score_decay: 0.90,
            decrease_threshold: 60,
            increase_threshold: 20,
            hysteresis_band: 10,
            eagain_is_hard: true,
            eagain_impulse: 60,
            rtt_impulse: 20,
            nack_rate_threshold: 10,
            nack_impulse: 20,
            repair_budget_ratio: 0.3,
            max_queue_p0: 100,
            max_queue_p1: 500,
            max_queue_p2: 100,
            p0_min_share: 0.2,
            p0_min_bps: 10000,
            ecn_mode: EcnMode::Off,
        }
    }
}

impl CongestionConfig {
    // The defaults with congestion control off.
    // Stays: [4] the Rust's call of this name; it can't be the type's `Default`, which is the settings with control on.
    pub fn disabled() -> CongestionConfig
        ensures { result ≡ without_control }
    {
        CongestionConfig {
            enabled: false,
            ..CongestionConfig::default()
        }
    }

    // Which of the seven checks fails first, if one does. A NaN passes them.
    #[tactic(auto, unfolding(crate::specs::Config::failed_check))]
    pub fn validate(self) -> Result<(), InvalidSetting>
        ensures { result ≡ failed_check self }
    {
        InvalidSetting::Rates.when(self.min_rate_bps > self.max_rate_bps)?;
        InvalidSetting::HardFactor.when(not_in_open_closed(self.md_factor_hard))?;
        InvalidSetting::SoftFactor.when(not_in_open_closed(self.md_factor_soft))?;
        InvalidSetting::ScoreDecay.when(not_in_open(self.score_decay))?;
        InvalidSetting::Thresholds.when(self.decrease_threshold <= self.increase_threshold)?;
        InvalidSetting::P0MinShare.when(not_in_closed(self.p0_min_share))?;
        InvalidSetting::RepairBudgetRatio.when(not_in_closed(self.repair_budget_ratio))
    }

    // The settings as a call takes them: 1 where `validate` refuses them, 2 beyond the domain.
    pub fn check(self) -> Result<(), Refusal>
        ensures { result ≡ verdict_of (settings_checks self) }
    {
        Refusal::SettingsInvalid.when(self.validate().is_err())?;
        let beyond = self.rates_beyond() || self.floats_beyond() || self.queues_beyond();
        Refusal::SettingsBeyond.when(beyond)
    }

    // The checks of making something with the settings at a time: 1, 2 and 7.
    pub fn check_making(self, time: u64) -> Result<(), Refusal>
        ensures { result ≡ verdict_of (making_checks self time) }
    {
        self.check()?;
        check_time(time)
    }

    #[tactic(auto, unfolding(crate::specs::Config::rates_beyond))]
    fn rates_beyond(self) -> bool
        ensures { result ≡ rates_beyond self }
    {
        self.min_rate_bps < 1
            || LARGEST_RATE < self.min_rate_bps
            || LARGEST_RATE < self.max_rate_bps
            || LARGEST_RATE < self.ai_step_bps
            || LARGEST_RATE < self.p0_min_bps
    }

    #[tactic(auto, using(numeric::proofs::Patterns::finite_is), unfolding(crate::specs::Config::floats_beyond))]
    fn floats_beyond(self) -> bool
        ensures { result ≡ floats_beyond self }
    {
        !self.md_factor_hard.is_finite()
            || !self.md_factor_soft.is_finite()
            || !self.score_decay.is_finite()
            || !self.repair_budget_ratio.is_finite()
            || !self.p0_min_share.is_finite()
    }

    #[tactic(auto, unfolding(crate::specs::Config::queues_beyond))]
    fn queues_beyond(self) -> bool
        ensures { result ≡ queues_beyond self }
    {
        limit_beyond(self.max_queue_p0, 128)
            || limit_beyond(self.max_queue_p1, 512)
            || limit_beyond(self.max_queue_p2, 128)
    }
}

// Whether a factor that is given to a call lies outside (0, 1]; a NaN does.
#[tactic(auto, unfolding(crate::specs::Config::factor_out))]
pub fn factor_out(factor: f32) -> bool
    ensures { result ≡ factor_out factor }
{
    !(factor > 0.0 && factor <= 1.0)
}

// Whether a factor lies outside (0, 1].
// Stays: [2] these three tests differ in two comparisons: flags for them would be longer, and std's `contains` is false at a NaN, which has to pass.
#[tactic(auto, unfolding(crate::specs::Config::not_in_open_closed))]
fn not_in_open_closed(x: f32) -> bool
    ensures { result ≡ not_in_open_closed x }
{
    x <= 0.0 || x > 1.0
}

// Whether a factor lies outside (0, 1).
#[tactic(auto, unfolding(crate::specs::Config::not_in_open))]
fn not_in_open(x: f32) -> bool
    ensures { result ≡ not_in_open x }
{
    x <= 0.0 || x >= 1.0
}

// Whether a share lies outside [0, 1].
#[tactic(auto, unfolding(crate::specs::Config::not_in_closed))]
fn not_in_closed(x: f32) -> bool
    ensures { result ≡ not_in_closed x }
{
    x < 0.0 || x > 1.0
}

// Whether a queue limit lies outside 1 to `most`.
#[tactic(auto, unfolding(crate::specs::Config::limit_beyond))]
fn limit_beyond(limit: usize, most: usize) -> bool
    ensures { result ≡ limit_beyond limit most }
{
    !(1..=most).contains(&limit)
}
