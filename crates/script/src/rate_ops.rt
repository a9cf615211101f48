// The rate controller.
use crate::desk::Desk;
use crate::line::{Line, Shown};
use crate::operation::{Operation, remade, taken};
use crate::words::{Record, Unknown, Word};
use config::alone::Alone;
use config::refusal::Refusal;
use control::rate_controller::{RateController, RateParams};
use control::rate_controller_alone;
use control::rate_controller_alone::ConfiguredController;
use control::scorer::CongestionAction;

#[derive(Clone, Copy)]
pub(crate) enum RateOperation {
    New {
        time: u64,
        params: RateParams,
        rate: u32,
    },
    ApplyAction {
        time: u64,
        action: CongestionAction,
    },
    SetRate {
        time: u64,
        rate: u32,
    },
    Calls(u64),
}

impl TryFrom<Record> for RateOperation {
    type Error = Unknown;

    // Stays: [2] the numbers and arguments are this suite's own; the gate refuses impls that a macro of ours would write.
    fn try_from(r: Record) -> Result<Self, Unknown> {
        let time = r.a.into();
        let rate = r.b.into();
        Ok(match r.operation {
            160 => Self::New {
                time,
                params: r.into(),
                rate,
            },
            161 => Self::ApplyAction {
                time,
                action: r.b.into(),
            },
            162 => Self::SetRate { time, rate },
            163 => Self::Calls(r.a.into()),
            _ => return Err(Unknown),
        })
    }
}

// Two to a word, the first in its low half; the initial rate is the least rate's other half.
impl From<Record> for RateParams {
    fn from(r: Record) -> RateParams {
        RateParams {
            min_rate: r.b.high().into(),
            max_rate: r.c.into(),
            ai_step: r.c.high().into(),
            md_hard: r.d.into(),
            md_soft: r.d.high().into(),
        }
    }
}

// The action, its digit modulo 4.
impl From<Word> for CongestionAction {
    fn from(word: Word) -> CongestionAction {
        match word.0 % 4 {
            0 => CongestionAction::None,
            1 => CongestionAction::Increase,
            2 => CongestionAction::DecreaseSoft,
            _ => CongestionAction::DecreaseHard,
        }
    }
}

// Before the first record.
pub(crate) fn first() -> Result<Alone<ConfiguredController>, Refusal> {
    let params = RateParams {
        min_rate: 1,
        max_rate: 1,
        ai_step: 0,
        md_hard: 1.0,
        md_soft: 1.0,
    };
    rate_controller_alone::with_params(params, 0, 1)
}

impl Operation for RateOperation {
    type State = Alone<ConfiguredController>;

    fn play(
        self,
        alone: &mut Alone<ConfiguredController>,
        _desk: &mut Desk,
        line: Line,
    ) -> Result<Line, Refusal> {
        let changed = match self {
            Self::New { time, params, rate } => {
                remade(
                    rate_controller_alone::with_params(params, time, rate)?,
                    alone,
                )
            }
            Self::ApplyAction { time, action } => taken(
                rate_controller_alone::apply_action(*alone, time, action),
                alone,
            ),
            Self::SetRate { time, rate } => {
                taken(rate_controller_alone::set_rate(*alone, time, rate), alone).and(Ok(false))
            }
            Self::Calls(calls) => remade(alone.resumed(calls), alone),
        };
        let controller = alone.inner.controller;
        let line = line.with(changed).with(controller.rate());
        let line = line.with(alone.inner.params).with(controller);
        Ok(line.with(alone.ledger))
    }

    fn nothing(line: Line) -> Line {
        line.with_zeros(17)
    }
}

impl Shown for RateParams {
    fn show(self, line: Line) -> Line {
        line.with(self.min_rate)
            .with(self.max_rate)
            .with(self.ai_step)
            .with(self.md_hard)
            .with(self.md_soft)
    }
}

// All but the rate: the time of the last change, and the metrics.
impl Shown for RateController {
    fn show(self, line: Line) -> Line {
        let metrics = self.metrics();
        line.with(self.last_change())
            .with(metrics.increases)
            .with(metrics.decreases_soft)
            .with(metrics.decreases_hard)
            .with(metrics.capacity_lost)
            .with(metrics.capacity_gained)
            .with(metrics.peak_rate)
            .with(metrics.min_rate_reached)
    }
}
