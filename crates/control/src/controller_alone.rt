// A controller used alone, with its own call count and last time: the public calls, which turn down with a reason.
// Each takes a controller of some kilobytes by value and gives it back; what it does to it, a step of its own does in place.
#![tactic(auto, unfolding(config::specs::Refusal::verdict_of, crate::specs::Controller::tos_in, crate::specs::ControllerAlone::made_alone, crate::specs::ControllerAlone::registered_alone, crate::specs::ControllerAlone::signalled_alone, crate::specs::ControllerAlone::eagain_alone, crate::specs::ControllerAlone::nacks_alone, crate::specs::ControllerAlone::tos_alone, crate::specs::ControllerAlone::ce_alone, crate::specs::ControllerAlone::sampled_alone, crate::specs::ControllerAlone::ticked_alone, crate::specs::ControllerAlone::rated_alone))]

ghost use Rattle.std.specs.Prelude.{◌≡◌};
ghost use Rattle.config.specs.Refusal.{verdict_of};
ghost use Rattle.control.specs.ControllerAlone.{made_alone, register_checks, registered_alone, eagain_alone, nacks_alone, tos_alone, ce_alone, sampled_alone, ticked_alone, rated_alone};

use crate::controller::{CongestionController, ControllerConfig};
use config::alone::{Alone, Left};
use config::config::{CongestionConfig, Priority};
use config::refusal::Refusal;
use signals::rtt_estimator::check_sample;

// A controller, and what the settings say to it and its parts.
#[derive(Clone, Copy, Debug, PartialEq)]
pub struct ConfiguredCongestion {
    pub config: ControllerConfig,
    pub controller: CongestionController,
}

pub fn new(config: CongestionConfig, time: u64) -> Result<Alone<ConfiguredCongestion>, Refusal>
    ensures { result ≡ made_alone config time }
{
    config.check_making(time)?;
    let settings = ControllerConfig::from(config);
    Ok(Alone::new(
        time,
        ConfiguredCongestion {
            config: settings,
            controller: CongestionController::new(settings, time),
        },
    ))
}

// Works disabled too.
// Stays: [2] a call of its own module; the step is all that differs.
pub fn register_writer(
    mut alone: Alone<ConfiguredCongestion>,
    id: u64,
    priority: Priority,
) -> Left<Alone<ConfiguredCongestion>, ()>
    ensures { result ≡ registered_alone alone id priority }
{
    let answer = register_in_place(&mut alone, id, priority);
    Left {
        state: alone,
        answer,
    }
}

fn register_in_place(
    alone: &mut Alone<ConfiguredCongestion>,
    id: u64,
    priority: Priority,
) -> Result<(), Refusal>
    ensures { registered_alone alone.old id priority ≡ record { state = alone.new; answer = result } }
{
    check_register(alone, id)?;
    alone.ledger = alone.ledger.counted();
    alone.inner.controller.register_writer(id, priority);
    Ok(())
}

// Stays: [2] one of the Rust's calls, by its name; the step is all in which the four signals differ.
pub fn on_eagain(mut alone: Alone<ConfiguredCongestion>) -> Left<Alone<ConfiguredCongestion>, ()>
    ensures { result ≡ eagain_alone alone }
{
    let answer = note_eagain(&mut alone);
    Left {
        state: alone,
        answer,
    }
}

fn note_eagain(alone: &mut Alone<ConfiguredCongestion>) -> Result<(), Refusal>
    ensures { eagain_alone alone.old ≡ record { state = alone.new; answer = result } }
{
    alone.ledger.check_counted()?;
    alone.ledger = alone.ledger.counted();
    let config = alone.inner.config;
    alone.inner.controller.on_eagain(config);
    Ok(())
}

// Stays: [2] as `on_eagain`.
pub fn on_nacks(
    mut alone: Alone<ConfiguredCongestion>,
    count: u32,
) -> Left<Alone<ConfiguredCongestion>, ()>
    ensures { result ≡ nacks_alone alone count }
{
    let answer = note_nacks(&mut alone, count);
    Left {
        state: alone,
        answer,
    }
}

fn note_nacks(alone: &mut Alone<ConfiguredCongestion>, count: u32) -> Result<(), Refusal>
    ensures { nacks_alone alone.old count ≡ record { state = alone.new; answer = result } }
{
    alone.ledger.check_counted()?;
    alone.ledger = alone.ledger.counted();
    let config = alone.inner.config;
    alone.inner.controller.on_nacks(config, count);
    Ok(())
}

// Whether congestion is signalled.
// Stays: [2] as `on_eagain`.
pub fn on_ecn_tos(
    mut alone: Alone<ConfiguredCongestion>,
    tos: u8,
) -> Left<Alone<ConfiguredCongestion>, bool>
    ensures { result ≡ tos_alone alone tos }
{
    let answer = note_tos(&mut alone, tos);
    Left {
        state: alone,
        answer,
    }
}

fn note_tos(alone: &mut Alone<ConfiguredCongestion>, tos: u8) -> Result<bool, Refusal>
    ensures { tos_alone alone.old tos ≡ record { state = alone.new; answer = result } }
{
    alone.ledger.check_counted()?;
    alone.ledger = alone.ledger.counted();
    let config = alone.inner.config;
    Ok(alone.inner.controller.on_ecn_tos(config, tos))
}

// Stays: [2] as `on_eagain`.
pub fn on_ecn_ce(mut alone: Alone<ConfiguredCongestion>) -> Left<Alone<ConfiguredCongestion>, ()>
    ensures { result ≡ ce_alone alone }
{
    let answer = note_mark(&mut alone);
    Left {
        state: alone,
        answer,
    }
}

fn note_mark(alone: &mut Alone<ConfiguredCongestion>) -> Result<(), Refusal>
    ensures { ce_alone alone.old ≡ record { state = alone.new; answer = result } }
{
    alone.ledger.check_counted()?;
    alone.ledger = alone.ledger.counted();
    let config = alone.inner.config;
    alone.inner.controller.on_ecn_ce(config);
    Ok(())
}

pub fn on_rtt_sample(
    mut alone: Alone<ConfiguredCongestion>,
    time: u64,
    peer_id: u32,
    rtt_ms: f32,
) -> Left<Alone<ConfiguredCongestion>, ()>
    ensures { result ≡ sampled_alone alone time peer_id rtt_ms }
{
    let answer = take_sample(&mut alone, time, peer_id, rtt_ms);
    Left {
        state: alone,
        answer,
    }
}

// 4, 7, 17, 11 and 14, for a peer's sample at a time; a full table takes no new peer and stays as it was.
#[tactic(auto, using(crate::proofs::Samples::sample_kept, std::proofs::lemmas::Grind::common_steps), unfolding(config::specs::Refusal::verdict_of, crate::specs::ControllerAlone::sampled_alone))]
fn take_sample(
    alone: &mut Alone<ConfiguredCongestion>,
    time: u64,
    peer_id: u32,
    rtt_ms: f32,
) -> Result<(), Refusal>
    ensures { sampled_alone alone.old time peer_id rtt_ms ≡ record { state = alone.new; answer = result } }
{
    check_sample(alone.ledger, time, rtt_ms)?;
    let config = alone.inner.config;
    let room = alone
        .inner
        .controller
        .take_sample(config, time, peer_id, rtt_ms);
    Refusal::TableFull.when(!room)?;
    alone.ledger = alone.ledger.moved(time);
    Ok(())
}

// Whether the writers' rows tell updates, since the rate changed.
pub fn tick(
    mut alone: Alone<ConfiguredCongestion>,
    time: u64,
) -> Left<Alone<ConfiguredCongestion>, bool>
    ensures { result ≡ ticked_alone alone time }
{
    let answer = tick_in_place(&mut alone, time);
    Left {
        state: alone,
        answer,
    }
}

fn tick_in_place(alone: &mut Alone<ConfiguredCongestion>, time: u64) -> Result<bool, Refusal>
    ensures { ticked_alone alone.old time ≡ record { state = alone.new; answer = result } }
{
    alone.ledger.check_timed(time)?;
    alone.ledger = alone.ledger.moved(time);
    let config = alone.inner.config;
    Ok(alone.inner.controller.tick(config, time))
}

// The rate is held to its range, but the rate as given is shared out: the writers' rows always tell updates. Works disabled too.
pub fn set_rate(
    mut alone: Alone<ConfiguredCongestion>,
    time: u64,
    rate_bps: u32,
) -> Left<Alone<ConfiguredCongestion>, bool>
    ensures { result ≡ rated_alone alone time rate_bps }
{
    let answer = set_in_place(&mut alone, time, rate_bps);
    Left {
        state: alone,
        answer,
    }
}

fn set_in_place(
    alone: &mut Alone<ConfiguredCongestion>,
    time: u64,
    rate_bps: u32,
) -> Result<bool, Refusal>
    ensures { rated_alone alone.old time rate_bps ≡ record { state = alone.new; answer = result } }
{
    alone.ledger.check_rate(time, rate_bps)?;
    alone.ledger = alone.ledger.moved(time);
    let config = alone.inner.config;
    alone.inner.controller.set_rate(config, time, rate_bps);
    Ok(true)
}

// 17 and 14.
fn check_register(alone: &Alone<ConfiguredCongestion>, id: u64) -> Result<(), Refusal>
    ensures { result ≡ verdict_of (register_checks alone.now id) }
{
    alone.ledger.check_counted()?;
    Refusal::TableFull.when(alone.inner.controller.allocator().is_full_for(id))
}
