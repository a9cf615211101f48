// What a list leaves, joined to its checksum at the end: so the compiler can leave out no count.
use crate::call::mix_f32;
use bench::call::mix;
use control::budget_allocator::BudgetAllocator;
use control::controller::ControllerCore;
use control::rate_controller::RateController;
use control::scorer::{CongestionScorer, PendingSignals, Phase, ScorerMetrics, SignalCounts};
use signals::ecn::EcnProcessor;
use signals::rtt_estimator::RttEstimator;

// Whether a time is known, and the time or 0.
fn mix_moment(sum: u64, moment: Option<u64>) -> u64 {
    mix(mix(sum, moment.is_some()), moment.unwrap_or(0))
}

pub fn mix_estimator(sum: u64, estimator: RttEstimator) -> u64 {
    let sum = mix_f32(mix_f32(sum, estimator.rtt()), estimator.baseline());
    let sum = mix(mix_f32(sum, estimator.variance()), estimator.samples());
    mix_moment(sum, estimator.last_sample())
}

pub fn mix_processor(sum: u64, processor: EcnProcessor) -> u64 {
    let stats = processor.stats();
    let sum = mix(mix(sum, stats.packets_received), stats.ect0_received);
    let sum = mix(mix(sum, stats.ect1_received), stats.ce_received);
    let sum = mix(mix(sum, stats.not_ect_received), stats.ce_responded);
    mix(
        mix(sum, processor.ce_in_window()),
        processor.packets_in_window(),
    )
}

fn mix_phase(sum: u64, phase: Phase) -> u64 {
    let sum = mix_moment(mix(sum, u8::from(phase.state)), phase.cooldown_until);
    mix_moment(sum, phase.stable_since)
}

fn mix_pending(sum: u64, pending: PendingSignals) -> u64 {
    let sum = mix(mix(sum, pending.eagain_count), pending.rtt_inflated);
    mix(mix(sum, pending.nack_count), pending.loss_count)
}

fn mix_signals(sum: u64, signals: SignalCounts) -> u64 {
    let sum = mix(mix(sum, signals.eagain_signals), signals.rtt_signals);
    mix(sum, signals.nack_signals)
}

fn mix_metrics(sum: u64, metrics: ScorerMetrics) -> u64 {
    let sum = mix(mix(sum, metrics.ticks), metrics.congestion_events);
    let sum = mix_f32(mix(sum, metrics.recovery_events), metrics.peak_score);
    mix(sum, metrics.congested_duration)
}

fn mix_scorer(sum: u64, scorer: CongestionScorer) -> u64 {
    let sum = mix_phase(mix(sum, scorer.last_tick()), scorer.phase());
    let sum = mix_signals(mix_pending(sum, scorer.pending()), scorer.signals());
    mix_metrics(sum, scorer.metrics())
}

fn mix_rate_controller(sum: u64, controller: RateController) -> u64 {
    let metrics = controller.metrics();
    let sum = mix(mix(sum, controller.last_change()), metrics.increases);
    let sum = mix(mix(sum, metrics.decreases_soft), metrics.decreases_hard);
    let sum = mix(mix(sum, metrics.capacity_lost), metrics.capacity_gained);
    mix(mix(sum, metrics.peak_rate), metrics.min_rate_reached)
}

pub fn mix_core(sum: u64, core: &ControllerCore) -> u64 {
    let metrics = core.metrics();
    let nacks = core.nacks();
    let sum = mix_rate_controller(mix_scorer(sum, core.scorer()), core.rate_controller());
    let sum = mix(mix_processor(sum, core.ecn()), metrics.current_rate_bps);
    let sum = mix(mix(sum, metrics.eagain_total), metrics.ecn_ce_received);
    mix(mix(mix(sum, nacks.count), nacks.start), core.last_tick())
}

pub fn mix_allocator(sum: u64, allocator: &BudgetAllocator) -> u64 {
    let stats = allocator.stats();
    let sum = mix(mix(sum, allocator.global_budget()), stats.reallocations);
    mix(
        mix(sum, stats.writers_registered),
        stats.total_distributed_bps,
    )
}
