// The congestion controller, over the settings.
use crate::allocator_ops::{updates_if, writers};
use crate::desk::Desk;
use crate::digest::DIGEST_START;
use crate::line::{Line, Shown};
use crate::operation::Operation;
use crate::outcome::Outcome;
use crate::peers_ops;
use crate::scorer_ops::with_score;
use crate::words::{Record, Unknown};
use config::alone::Alone;
use config::config::{CongestionConfig, Priority};
use config::refusal::Refusal;
use control::controller::{CongestionController, ControllerCore, NackWindow};
use control::controller_alone;
use control::controller_alone::ConfiguredCongestion;
use control::metrics::CongestionMetrics;

#[derive(Clone, Copy)]
pub(crate) enum ControllerOperation {
    New { time: u64 },
    RegisterWriter { id: u64, class: Priority },
    Tick { time: u64 },
    OnEagain,
    OnRttSample { time: u64, peer: u32, sample: f32 },
    OnNacks(u32),
    OnEcnTos(u8),
    OnEcnCe,
    SetRate { time: u64, rate: u32 },
    Calls(u64),
}

impl TryFrom<Record> for ControllerOperation {
    type Error = Unknown;

    fn try_from(r: Record) -> Result<Self, Unknown> {
        let time = r.a.into();
        Ok(match r.operation {
            208 => Self::New { time },
            209 => Self::RegisterWriter {
                id: r.a.into(),
                class: r.b.into(),
            },
            210 => Self::Tick { time },
            211 => Self::OnEagain,
            212 => Self::OnRttSample {
                time,
                peer: r.b.into(),
                sample: r.c.into(),
            },
            213 => Self::OnNacks(r.a.into()),
            214 => Self::OnEcnTos(r.a.into()),
            215 => Self::OnEcnCe,
            216 => Self::SetRate {
                time,
                rate: r.b.into(),
            },
            217 => Self::Calls(r.a.into()),
            _ => return Err(Unknown),
        })
    }
}

// Before the first record.
pub(crate) fn first() -> Result<Alone<ConfiguredCongestion>, Refusal> {
    controller_alone::new(CongestionConfig::default(), 0)
}

impl Operation for ControllerOperation {
    type State = Alone<ConfiguredCongestion>;

    fn play(
        self,
        alone: &mut Alone<ConfiguredCongestion>,
        desk: &mut Desk,
        line: Line,
    ) -> Result<Line, Refusal> {
        let outcome = match self {
            Self::New { time } => {
                Outcome::remade(controller_alone::new(desk.settings, time)?, alone)
            }
            Self::RegisterWriter { id, class } => {
                Outcome::left(controller_alone::register_writer(*alone, id, class), alone)
            }
            Self::Tick { time } => Outcome::shared_out(controller_alone::tick(*alone, time), alone),
            Self::OnEagain => Outcome::left(controller_alone::on_eagain(*alone), alone),
            Self::OnRttSample { time, peer, sample } => Outcome::left(
                controller_alone::on_rtt_sample(*alone, time, peer, sample),
                alone,
            ),
            Self::OnNacks(count) => Outcome::left(controller_alone::on_nacks(*alone, count), alone),
            Self::OnEcnTos(tos) => Outcome::told(controller_alone::on_ecn_tos(*alone, tos), alone),
            Self::OnEcnCe => Outcome::left(controller_alone::on_ecn_ce(*alone), alone),
            Self::SetRate { time, rate } => {
                Outcome::shared_out(controller_alone::set_rate(*alone, time, rate), alone)
            }
            Self::Calls(calls) => Outcome::remade(alone.resumed(calls), alone),
        };
        Ok(with_alone(line.with(outcome), alone, outcome.updated))
    }

    fn nothing(line: Line) -> Line {
        line.with_zeros(54)
            .with(DIGEST_START)
            .with(DIGEST_START)
            .with(DIGEST_START)
    }
}

// The controller under its ledger, and the digests of its tables and of the updates.
fn with_alone(line: Line, alone: &Alone<ConfiguredCongestion>, updated: bool) -> Line {
    let controller = &alone.inner.controller;
    line.with(alone.inner.config.enabled)
        .with(*controller)
        .with(alone.ledger)
        .with(writers(controller.allocator()))
        .with(updates_if(updated, controller.allocator()))
        .with(peers_ops::digest(controller.tracker()))
}

// All but whether it is enabled, and the digests of its tables.
impl Shown for CongestionController {
    fn show(self, line: Line) -> Line {
        line.with(self.core())
            .with(*self.allocator())
            .with(*self.tracker())
    }
}

impl Shown for ControllerCore {
    fn show(self, line: Line) -> Line {
        let scorer = self.scorer();
        with_score(line.with(self.rate()), scorer)
            .with(self.last_tick())
            .with(self.nacks())
            .with(self.metrics())
            .with(scorer)
            .with(self.rate_controller())
            .with(self.ecn())
    }
}

impl Shown for NackWindow {
    fn show(self, line: Line) -> Line {
        line.with(self.count).with(self.start)
    }
}

impl Shown for CongestionMetrics {
    fn show(self, line: Line) -> Line {
        line.with(self.current_rate_bps)
            .with(self.eagain_total)
            .with(self.ecn_ce_received)
    }
}
