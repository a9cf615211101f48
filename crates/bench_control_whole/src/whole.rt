// The same list of calls on one controller through its public calls, which take it by value and give it back.
use bench::call::mix;
use bench_control::call::{self, Call, Kind};
use bench_control::left;
use config::alone::{Alone, Left};
use control::controller::CongestionController;
use control::controller_alone;
use control::controller_alone::ConfiguredCongestion;

// What a call leaves that tells nothing.
fn silent(left: Left<Alone<ConfiguredCongestion>, ()>) -> Left<Alone<ConfiguredCongestion>, bool> {
    Left {
        state: left.state,
        answer: left.answer.map(|_| false),
    }
}

// A call by its kind; a peer that is shown is read off the state, with no call.
fn called(
    alone: Alone<ConfiguredCongestion>,
    time: u64,
    call: Call,
) -> Left<Alone<ConfiguredCongestion>, bool> {
    let number = call.number;
    match call.kind {
        Kind::Tick => controller_alone::tick(alone, time),
        Kind::SetRate => controller_alone::set_rate(alone, time, call.amount),
        Kind::Sample => {
            let peer = number.into();
            silent(controller_alone::on_rtt_sample(alone, time, peer, call.sample()))
        }
        Kind::Tos => controller_alone::on_ecn_tos(alone, call.tos()),
        Kind::Register => {
            let id = number.into();
            silent(controller_alone::register_writer(alone, id, call.class()))
        }
        Kind::Eagain => silent(controller_alone::on_eagain(alone)),
        Kind::Show => Left {
            state: alone,
            answer: Ok(false),
        },
        Kind::Nacks => silent(controller_alone::on_nacks(alone, call.amount)),
    }
}

// The checksum with every update, where the call told some.
fn mix_told(sum: u64, told: bool, controller: &CongestionController) -> u64 {
    if told {
        call::mix_updates(sum, controller.table())
    } else {
        sum
    }
}

// The checksum with what a call answered and left, by its kind.
fn mix_left(sum: u64, call: Call, told: bool, controller: &CongestionController) -> u64 {
    match call.kind {
        Kind::Tick => call::mix_tick(mix_told(sum, told, controller), &controller.core()),
        Kind::SetRate => mix_told(sum, told, controller),
        Kind::Sample | Kind::Register => sum,
        Kind::Show => {
            let place = call.number.into();
            left::mix_estimator(sum, controller.tracker().estimator_at(place))
        }
        Kind::Tos | Kind::Eagain | Kind::Nacks => mix(sum, told),
    }
}

// The checksum of a list of calls on a new controller.
pub fn run(list: &[u64], other: bool) -> u64 {
    let Ok(mut alone) = controller_alone::new(call::settings(other), 0) else {
        return 0;
    };
    let mut time: u64 = 0;
    let mut sum: u64 = 0;
    for word in list {
        let call = Call::from(*word);
        time = time.saturating_add(call.later);
        let left = called(alone, time, call);
        alone = left.state;
        let told = left.answer == Ok(true);
        sum = mix_left(sum, call, told, &alone.inner.controller);
    }
    let controller = &alone.inner.controller;
    left::mix_core(
        left::mix_allocator(sum, controller.allocator()),
        &controller.core(),
    )
}
