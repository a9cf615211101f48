// A rate controller used alone, with its own call count and last time: the public calls, which turn down with a reason.
#![tactic(auto, unfolding(config::specs::Refusal::verdict_of, crate::specs::RateControllerAlone::rates_out, crate::specs::RateControllerAlone::made_alone, crate::specs::RateControllerAlone::applied_alone, crate::specs::RateControllerAlone::rated_alone))]

ghost use Rattle.std.specs.Prelude.{◌≡◌};
ghost use Rattle.config.specs.Refusal.{verdict_of};
ghost use Rattle.control.specs.RateControllerAlone.{rates_out, making_checks, made_alone, applied_alone, rated_alone};

use crate::rate_controller::{RateController, RateParams};
use crate::scorer::CongestionAction;
use config::alone::{Alone, Left};
use config::config::factor_out;
use config::ledger::check_time;
use config::refusal::{LARGEST_RATE, Refusal};

// A rate controller, and its range, step and factors.
#[derive(Clone, Copy, Debug, PartialEq)]
pub struct ConfiguredController {
    pub params: RateParams,
    pub controller: RateController,
}

// Whether a rate or the step lies above 1,000,000,000, or the range is none: its least 0, or above its largest.
fn rates_out(params: RateParams, initial_rate: u32) -> bool
    ensures { result ≡ rates_out params initial_rate }
{
    params.min_rate < 1
        || params.max_rate < params.min_rate
        || LARGEST_RATE < params.max_rate
        || LARGEST_RATE < params.ai_step
        || LARGEST_RATE < initial_rate
}

// 2, 6 and 7.
fn check_making(params: RateParams, time: u64, initial_rate: u32) -> Result<(), Refusal>
    ensures { result ≡ verdict_of (making_checks params time initial_rate) }
{
    Refusal::SettingsBeyond.when(factor_out(params.md_hard) || factor_out(params.md_soft))?;
    Refusal::RateBeyond.when(rates_out(params, initial_rate))?;
    check_time(time)
}

pub fn with_params(
    params: RateParams,
    time: u64,
    initial_rate: u32,
) -> Result<Alone<ConfiguredController>, Refusal>
    ensures { result ≡ made_alone params time initial_rate }
{
    check_making(params, time, initial_rate)?;
    Ok(Alone::new(
        time,
        ConfiguredController {
            params,
            controller: RateController::with_params(params, time, initial_rate),
        },
    ))
}

// Whether the rate changed is the answer.
pub fn apply_action(
    alone: Alone<ConfiguredController>,
    time: u64,
    action: CongestionAction,
) -> Left<Alone<ConfiguredController>, bool>
    ensures { result ≡ applied_alone alone time action }
{
    let ledger = alone.ledger;
    alone.after(ledger.check_timed(time), ledger.moved(time), |before| {
        let (controller, changed) = before.controller.apply_action(before.params, time, action);
        (
            ConfiguredController {
                controller,
                ..before
            },
            changed,
        )
    })
}

pub fn set_rate(
    alone: Alone<ConfiguredController>,
    time: u64,
    rate_bps: u32,
) -> Left<Alone<ConfiguredController>, ()>
    ensures { result ≡ rated_alone alone time rate_bps }
{
    let ledger = alone.ledger;
    alone.after(
        ledger.check_rate(time, rate_bps),
        ledger.moved(time),
        |before| {
            let controller = before.controller.set_rate(before.params, time, rate_bps);
            (
                ConfiguredController {
                    controller,
                    ..before
                },
                (),
            )
        },
    )
}
