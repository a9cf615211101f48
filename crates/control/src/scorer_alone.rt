// A scorer used alone, with its own call count and last time: the public calls, which turn down with a reason.
#![tactic(auto, unfolding(crate::specs::ScorerAlone::made_alone, crate::specs::ScorerAlone::noted_by, crate::specs::ScorerAlone::ticked_alone))]

ghost use Rattle.std.specs.Prelude.{◌≡◌};
ghost use Rattle.control.specs.ScorerAlone.{made_alone, noted_by, eagain_alone, inflated_alone, nack_alone, loss_alone, ticked_alone};

use crate::scorer::{CongestionAction, CongestionScorer, ScorerConfig};
use config::alone::{Alone, Left};
use config::config::CongestionConfig;
use config::refusal::Refusal;

// A scorer, and what the settings say of its score.
#[derive(Clone, Copy, Debug, PartialEq)]
pub struct ConfiguredScorer {
    pub config: ScorerConfig,
    pub scorer: CongestionScorer,
}

pub fn from_config(config: CongestionConfig, time: u64) -> Result<Alone<ConfiguredScorer>, Refusal>
    ensures { result ≡ made_alone config time }
{
    config.check_making(time)?;
    Ok(Alone::new(
        time,
        ConfiguredScorer {
            config: ScorerConfig::from(config),
            scorer: CongestionScorer::new(time),
        },
    ))
}

// The signals take no time: of the reasons only 17 may apply.
// Stays: [2] one of the Rust's calls, by its name; what the four signals share is `changed`, and the step is all that differs.
pub fn on_eagain(alone: Alone<ConfiguredScorer>) -> Left<Alone<ConfiguredScorer>, ()>
    ensures { result ≡ eagain_alone alone }
{
    let ledger = alone.ledger;
    alone.changed(ledger.check_counted(), ledger.counted(), |inner| {
        inner.scorer = inner.scorer.on_eagain();
    })
}

// Stays: [2] as `on_eagain`.
pub fn on_rtt_inflated(alone: Alone<ConfiguredScorer>) -> Left<Alone<ConfiguredScorer>, ()>
    ensures { result ≡ inflated_alone alone }
{
    let ledger = alone.ledger;
    alone.changed(ledger.check_counted(), ledger.counted(), |inner| {
        inner.scorer = inner.scorer.on_rtt_inflated();
    })
}

// Stays: [2] as `on_eagain`.
pub fn on_nack(alone: Alone<ConfiguredScorer>) -> Left<Alone<ConfiguredScorer>, ()>
    ensures { result ≡ nack_alone alone }
{
    let ledger = alone.ledger;
    alone.changed(ledger.check_counted(), ledger.counted(), |inner| {
        inner.scorer = inner.scorer.on_nack();
    })
}

// Stays: [2] as `on_eagain`.
pub fn on_loss(alone: Alone<ConfiguredScorer>) -> Left<Alone<ConfiguredScorer>, ()>
    ensures { result ≡ loss_alone alone }
{
    let ledger = alone.ledger;
    alone.changed(ledger.check_counted(), ledger.counted(), |inner| {
        inner.scorer = inner.scorer.on_loss();
    })
}

// What the scorer asks for is the answer.
pub fn tick(
    alone: Alone<ConfiguredScorer>,
    time: u64,
) -> Left<Alone<ConfiguredScorer>, CongestionAction>
    ensures { result ≡ ticked_alone alone time }
{
    let ledger = alone.ledger;
    alone.after(ledger.check_timed(time), ledger.moved(time), |before| {
        let (scorer, action) = before.scorer.tick(before.config, time);
        (ConfiguredScorer { scorer, ..before }, action)
    })
}
