// The scorer, over the settings.
use crate::desk::Desk;
use crate::line::{Line, Shown};
use crate::operation::{Operation, remade, taken};
use crate::words::{Record, Unknown};
use config::alone::Alone;
use config::config::CongestionConfig;
use config::refusal::Refusal;
use control::scorer::{CongestionScorer, PendingSignals};
use control::scorer_alone;
use control::scorer_alone::ConfiguredScorer;

#[derive(Clone, Copy)]
pub(crate) enum ScorerOperation {
    New { time: u64 },
    OnEagain,
    OnRttInflated,
    OnNack,
    OnLoss,
    Tick { time: u64 },
    Calls(u64),
}

impl TryFrom<Record> for ScorerOperation {
    type Error = Unknown;

    fn try_from(r: Record) -> Result<Self, Unknown> {
        Ok(match r.operation {
            176 => Self::New { time: r.a.into() },
            177 => Self::OnEagain,
            178 => Self::OnRttInflated,
            179 => Self::OnNack,
            180 => Self::OnLoss,
            181 => Self::Tick { time: r.a.into() },
            182 => Self::Calls(r.a.into()),
            _ => return Err(Unknown),
        })
    }
}

// Before the first record.
pub(crate) fn first() -> Result<Alone<ConfiguredScorer>, Refusal> {
    scorer_alone::from_config(CongestionConfig::default(), 0)
}

impl Operation for ScorerOperation {
    type State = Alone<ConfiguredScorer>;

    fn play(
        self,
        alone: &mut Alone<ConfiguredScorer>,
        desk: &mut Desk,
        line: Line,
    ) -> Result<Line, Refusal> {
        // The number of the action that the scorer asks for.
        let action = match self {
            Self::New { time } => { remade(scorer_alone::from_config(desk.settings, time)?, alone) }
            Self::OnEagain => taken(scorer_alone::on_eagain(*alone), alone).and(Ok(0)),
            Self::OnRttInflated => {
                taken(scorer_alone::on_rtt_inflated(*alone), alone).and(Ok(0))
            }
            Self::OnNack => taken(scorer_alone::on_nack(*alone), alone).and(Ok(0)),
            Self::OnLoss => taken(scorer_alone::on_loss(*alone), alone).and(Ok(0)),
            Self::Tick { time } => { taken(scorer_alone::tick(*alone, time), alone).map(u8::from) }
            Self::Calls(calls) => remade(alone.resumed(calls), alone),
        };
        let scorer = alone.inner.scorer;
        let line = with_score(line.with(action), scorer);
        Ok(line.with(scorer).with(alone.ledger))
    }

    fn nothing(line: Line) -> Line {
        line.with_zeros(22)
    }
}

// The score and the state.
pub(crate) fn with_score(line: Line, scorer: CongestionScorer) -> Line {
    line.with(scorer.score())
        .with(u8::from(scorer.phase().state))
}

// All but the score and the state: the last tick, the times of the phase, what is pending, and the counts, with the
// signals in all among them.
impl Shown for CongestionScorer {
    fn show(self, line: Line) -> Line {
        let phase = self.phase();
        let metrics = self.metrics();
        let signals = self.signals();
        line.with(self.last_tick())
            .with(phase.cooldown_until)
            .with(phase.stable_since)
            .with(self.pending())
            .with(metrics.ticks)
            .with(metrics.congestion_events)
            .with(metrics.recovery_events)
            .with(signals.eagain_signals)
            .with(signals.rtt_signals)
            .with(signals.nack_signals)
            .with(metrics.peak_score)
            .with(metrics.congested_duration)
    }
}

impl Shown for PendingSignals {
    fn show(self, line: Line) -> Line {
        line.with(self.eagain_count)
            .with(self.rtt_inflated)
            .with(self.nack_count)
            .with(self.loss_count)
    }
}
