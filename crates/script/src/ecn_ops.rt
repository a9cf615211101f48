// The ECN processor.
use crate::desk::Desk;
use crate::line::{Line, Shown};
use crate::operation::{Operation, remade, taken};
use crate::words::{Record, Unknown};
use config::alone::Alone;
use config::refusal::Refusal;
use signals::ecn::EcnProcessor;
use signals::ecn_alone;

#[derive(Clone, Copy)]
pub(crate) enum EcnOperation {
    New,
    ProcessTos(u8),
    ProcessCe,
    Calls(u64),
}

impl TryFrom<Record> for EcnOperation {
    type Error = Unknown;

    fn try_from(r: Record) -> Result<Self, Unknown> {
        Ok(match r.operation {
            48 => Self::New,
            49 => Self::ProcessTos(r.a.into()),
            50 => Self::ProcessCe,
            51 => Self::Calls(r.a.into()),
            _ => return Err(Unknown),
        })
    }
}

impl Operation for EcnOperation {
    type State = Alone<EcnProcessor>;

    fn play(
        self,
        alone: &mut Alone<EcnProcessor>,
        _desk: &mut Desk,
        line: Line,
    ) -> Result<Line, Refusal> {
        let signal = match self {
            Self::New => remade(Alone::new(0, EcnProcessor::default()), alone),
            Self::ProcessTos(tos) => taken(ecn_alone::process_tos(*alone, tos), alone),
            Self::ProcessCe => taken(ecn_alone::process_ce(*alone), alone),
            Self::Calls(calls) => remade(alone.resumed(calls), alone),
        };
        let calls = alone.ledger.calls();
        Ok(line.with(signal).with(alone.inner).with(calls))
    }
}

// The counts in all and of the window.
impl Shown for EcnProcessor {
    fn show(self, line: Line) -> Line {
        let stats = self.stats();
        line.with(stats.packets_received)
            .with(stats.ect0_received)
            .with(stats.ect1_received)
            .with(stats.ce_received)
            .with(stats.not_ect_received)
            .with(stats.ce_responded)
            .with(self.ce_in_window())
            .with(self.packets_in_window())
    }
}
