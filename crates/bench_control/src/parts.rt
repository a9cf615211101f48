// A list of calls on the parts of a controller: core, tracker and allocator are locals.
use crate::call::{self, Call, Kind};
use crate::left;
use bench::call::mix;
use control::budget_allocator::BudgetAllocator;
use control::controller::{ControllerConfig, ControllerCore};
use signals::rtt_estimator::PeerRttTracker;

// The checksum of a list of calls on a new controller's parts.
pub fn run(list: &[u64], other: bool) -> u64 {
    let config = ControllerConfig::from(call::settings(other));
    let mut core = ControllerCore::new(config, 0);
    let mut tracker = PeerRttTracker::new(100.0);
    let mut allocator = BudgetAllocator::default();
    let mut time: u64 = 0;
    let mut sum: u64 = 0;
    for word in list {
        let call = Call::from(*word);
        time = time.saturating_add(call.later);
        match call.kind {
            Kind::Tick => {
                if core.tick(config, time, tracker.any_inflated()) {
                    allocator.reallocate(config.allocation, core.rate());
                    sum = call::mix_updates(sum, allocator.table());
                }
                sum = call::mix_tick(sum, &core);
            }
            Kind::SetRate => {
                core.set_rate(config, time, call.amount);
                allocator.reallocate(config.allocation, call.amount);
                sum = call::mix_updates(sum, allocator.table());
            }
            Kind::Sample => {
                tracker.update(time, call.number.into(), call.sample());
            }
            Kind::Show => {
                sum = left::mix_estimator(sum, tracker.estimator_at(call.number.into()));
            }
            Kind::Register => {
                allocator.register(call.number.into(), call.class());
            }
            Kind::Tos => {
                let signal = core.on_ecn_tos(config, call.tos());
                sum = mix(sum, signal);
            }
            Kind::Eagain => {
                core.on_eagain(config);
                sum = mix(sum, false);
            }
            Kind::Nacks => {
                core.on_nacks(config, call.amount);
                sum = mix(sum, false);
            }
        }
    }
    left::mix_core(left::mix_allocator(sum, &allocator), &core)
}
