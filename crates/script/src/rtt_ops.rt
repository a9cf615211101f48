// The RTT estimator.
use crate::desk::Desk;
use crate::line::{Line, Shown};
use crate::operation::{Operation, made_or_zero, remade, taken};
use crate::words::{Record, Unknown};
use config::alone::Alone;
use config::refusal::Refusal;
use signals::rtt_estimator::RttEstimator;
use signals::rtt_estimator_alone;

#[derive(Clone, Copy)]
pub(crate) enum RttOperation {
    New { default: f32 },
    Update { time: u64, sample: f32 },
    Calls(u64),
    UpdateLent { time: u64, sample: f32 },
}

impl TryFrom<Record> for RttOperation {
    type Error = Unknown;

    // Stays: [2] the numbers and arguments are this suite's own; the gate refuses impls that a macro of ours would write.
    fn try_from(r: Record) -> Result<Self, Unknown> {
        Ok(match r.operation {
            64 => Self::New {
                default: r.a.into(),
            },
            65 => Self::Update {
                time: r.a.into(),
                sample: r.b.into(),
            },
            66 => Self::Calls(r.a.into()),
            67 => Self::UpdateLent {
                time: r.a.into(),
                sample: r.b.into(),
            },
            _ => return Err(Unknown),
        })
    }
}

impl Operation for RttOperation {
    type State = Alone<RttEstimator>;

    // Stays: [2] each arm is a call of this module; what becomes of an answer is said once, by `taken` and `remade`.
    fn play(
        self,
        alone: &mut Alone<RttEstimator>,
        _desk: &mut Desk,
        line: Line,
    ) -> Result<Line, Refusal> {
        let answer = match self {
            Self::New { default } => {
                let made = rtt_estimator_alone::new(default);
                made_or_zero(made, RttEstimator::new(0.0), alone)
            }
            Self::Update { time, sample } => {
                taken(rtt_estimator_alone::update(*alone, time, sample), alone)
            }
            Self::Calls(calls) => remade(alone.resumed(calls), alone),
            Self::UpdateLent { time, sample } => taken(
                rtt_estimator_alone::update_lent(*alone, time, sample),
                alone,
            ),
        };
        Ok(line.with(answer).with(*alone))
    }
}

// rtt, min, var, samples, kind and time of the last sample, rto, inflated.
impl Shown for RttEstimator {
    fn show(self, line: Line) -> Line {
        line.with(self.rtt())
            .with(self.baseline())
            .with(self.variance())
            .with(self.samples())
            .with(self.last_sample())
            .with(self.rto())
            .with(self.is_inflated())
    }
}
