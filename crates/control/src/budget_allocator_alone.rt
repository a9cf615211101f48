// An allocator used alone, with its own call count; it takes no times. The public calls, which turn down with a reason.
#![tactic(auto, unfolding(config::specs::Refusal::verdict_of, crate::specs::BudgetAllocatorAlone::weight_out, crate::specs::BudgetAllocatorAlone::made_alone, crate::specs::BudgetAllocatorAlone::registered_alone, crate::specs::BudgetAllocatorAlone::weighted_alone, crate::specs::BudgetAllocatorAlone::unregistered_alone, crate::specs::BudgetAllocatorAlone::reallocated_alone))]

ghost use Rattle.std.specs.Prelude.{◌≡◌};
ghost use Rattle.config.specs.Refusal.{verdict_of};
ghost use Rattle.control.specs.BudgetAllocatorAlone.{weight_out, register_checks, weight_checks, allot_checks, made_alone, registered_alone, weighted_alone, unregistered_alone, reallocated_alone};

use crate::budget_allocator::{AllocationConfig, BudgetAllocator};
use config::alone::{Alone, Left};
use config::config::{CongestionConfig, Priority};
use config::refusal::{LARGEST_RATE, Refusal};

// An allocator, and what the settings guarantee P0.
#[derive(Clone, Copy, Debug, PartialEq)]
pub struct ConfiguredAllocator {
    pub config: AllocationConfig,
    pub allocator: BudgetAllocator,
}

// Whether a weight is no number, or above 1,000,000.
#[tactic(auto, using(numeric::proofs::Patterns::finite_is), unfolding(crate::specs::BudgetAllocatorAlone::weight_out))]
fn weight_out(weight: f32) -> bool
    ensures { result ≡ weight_out weight }
{
    !weight.is_finite() || weight > 1000000.0
}

pub fn with_config(config: CongestionConfig) -> Result<Alone<ConfiguredAllocator>, Refusal>
    ensures { result ≡ made_alone config }
{
    config.check()?;
    Ok(Alone::new(
        0,
        ConfiguredAllocator {
            config: AllocationConfig::from(config),
            allocator: BudgetAllocator::default(),
        },
    ))
}

// Stays: [2] a call of its own module; what it shares with the controller's is `changed`, and the step is all that differs.
pub fn register(
    alone: Alone<ConfiguredAllocator>,
    id: u64,
    priority: Priority,
) -> Left<Alone<ConfiguredAllocator>, ()>
    ensures { result ≡ registered_alone alone id priority }
{
    let ledger = alone.ledger.counted();
    alone.changed(check_register(&alone, id), ledger, |inner| {
        inner.allocator.register(id, priority)
    })
}

pub fn register_weighted(
    alone: Alone<ConfiguredAllocator>,
    id: u64,
    priority: Priority,
    weight: f32,
) -> Left<Alone<ConfiguredAllocator>, ()>
    ensures { result ≡ weighted_alone alone id priority weight }
{
    let ledger = alone.ledger.counted();
    alone.changed(check_weighted(&alone, id, weight), ledger, |inner| {
        inner.allocator.register_weighted(id, priority, weight)
    })
}

// Whether the writer was there.
pub fn unregister(
    alone: Alone<ConfiguredAllocator>,
    id: u64,
) -> Left<Alone<ConfiguredAllocator>, bool>
    ensures { result ≡ unregistered_alone alone id }
{
    let ledger = alone.ledger;
    alone.changed(ledger.check_counted(), ledger.counted(), |inner| {
        inner.allocator.unregister(id)
    })
}

pub fn reallocate(
    alone: Alone<ConfiguredAllocator>,
    rate_bps: u32,
) -> Left<Alone<ConfiguredAllocator>, ()>
    ensures { result ≡ reallocated_alone alone rate_bps }
{
    let ledger = alone.ledger.counted();
    alone.changed(check_allot(&alone, rate_bps), ledger, |inner| {
        inner.allocator.reallocate(inner.config, rate_bps)
    })
}

// 17 and 14.
fn check_register(alone: &Alone<ConfiguredAllocator>, id: u64) -> Result<(), Refusal>
    ensures { result ≡ verdict_of (register_checks alone.now id) }
{
    alone.ledger.check_counted()?;
    Refusal::TableFull.when(alone.inner.allocator.is_full_for(id))
}

// 4, 17 and 14.
fn check_weighted(alone: &Alone<ConfiguredAllocator>, id: u64, weight: f32) -> Result<(), Refusal>
    ensures { result ≡ verdict_of (weight_checks alone.now id weight) }
{
    Refusal::SampleBeyond.when(weight_out(weight))?;
    check_register(alone, id)
}

// 6 and 17.
fn check_allot(alone: &Alone<ConfiguredAllocator>, rate_bps: u32) -> Result<(), Refusal>
    ensures { result ≡ verdict_of (allot_checks alone.now rate_bps) }
{
    Refusal::RateBeyond.when(LARGEST_RATE < rate_bps)?;
    alone.ledger.check_counted()
}
