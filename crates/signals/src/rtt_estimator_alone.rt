// An estimator used alone.
ghost use Rattle.std.specs.Prelude.{◌≡◌};
ghost use Rattle.signals.specs.RttEstimatorAlone.{new_alone, updated_alone};

use crate::rtt_estimator::{RttEstimator, check_sample, sample_out};
use config::alone::{Alone, Left};
use config::refusal::Refusal;

// A default outside the samples' range is refused: 4.
// Stays: [2] a check and a making, a line each; one for both modules would take the making as a closure, and each would still need its name.
pub fn new(default_ms: f32) -> Result<Alone<RttEstimator>, Refusal>
    ensures { result ≡ new_alone default_ms }
{
    Refusal::SampleBeyond.when(sample_out(default_ms))?;
    Ok(Alone::new(0, RttEstimator::new(default_ms)))
}

// One sample more: 4, 7, 17 or 11.
pub fn update(
    alone: Alone<RttEstimator>,
    time: u64,
    sample_ms: f32,
) -> Left<Alone<RttEstimator>, ()>
    ensures { result ≡ updated_alone alone time sample_ms }
{
    let ledger = alone.ledger;
    alone.after(
        check_sample(ledger, time, sample_ms),
        ledger.moved(time),
        |estimator| (estimator.update(time, sample_ms), ()),
    )
}

// The same call on an estimator that is lent and changed in place.
// Stays: [2] document 01 asks for `update` in both forms, by value and lent.
pub fn update_lent(
    alone: Alone<RttEstimator>,
    time: u64,
    sample_ms: f32,
) -> Left<Alone<RttEstimator>, ()>
    ensures { result ≡ updated_alone alone time sample_ms }
{
    let ledger = alone.ledger;
    alone.changed(
        check_sample(ledger, time, sample_ms),
        ledger.moved(time),
        |estimator| estimator.update_in_place(time, sample_ms),
    )
}
