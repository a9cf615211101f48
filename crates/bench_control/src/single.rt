// Lists of calls on one part alone; the kinds of their calls are not read.
use crate::call::{self, Call};
use crate::left;
use bench::call::mix;
use control::rate_controller;
use signals::ecn::EcnProcessor;
use signals::rtt_estimator::RttEstimator;

// The least rate of a decrease.
const LEAST: u32 = 10000;

// What a list is played on.
#[derive(Clone, Copy, Debug, PartialEq, Eq)]
pub enum Part {
    Estimator,
    Processor,
    Decreases,
}

// The part of a number; every number above 1 is decreases.
impl From<u8> for Part {
    fn from(number: u8) -> Part {
        match number {
            0 => Part::Estimator,
            1 => Part::Processor,
            _ => Part::Decreases,
        }
    }
}

// The checksum of a list of samples on one estimator.
pub fn samples(list: &[u64]) -> u64 {
    let mut estimator = RttEstimator::new(100.0);
    let mut time: u64 = 0;
    let mut sum: u64 = 0;
    for word in list {
        let call = Call::from(*word);
        time = time.saturating_add(call.later);
        estimator = estimator.update(time, call.sample());
        sum = call::mix_f32(sum, estimator.rtt());
    }
    left::mix_estimator(sum, estimator)
}

// The checksum of a list of TOS bytes on one processor.
pub fn packets(list: &[u64]) -> u64 {
    let mut processor = EcnProcessor::default();
    let mut sum: u64 = 0;
    for word in list {
        let (counted, signal) = processor.process_tos(Call::from(*word).tos());
        processor = counted;
        sum = mix(sum, signal);
    }
    left::mix_processor(sum, processor)
}

// The checksum of a list of rates and factors.
pub fn decreases(list: &[u64]) -> u64 {
    let mut sum: u64 = 0;
    for word in list {
        let call = Call::from(*word);
        sum = mix(
            sum,
            rate_controller::decrease(call.amount, call.factor(), LEAST),
        );
    }
    sum
}

// The checksum of a list on a part.
pub fn run(list: &[u64], part: Part) -> u64 {
    match part {
        Part::Estimator => samples(list),
        Part::Processor => packets(list),
        Part::Decreases => decreases(list),
    }
}
