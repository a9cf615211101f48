// The metrics that the controller's calls write.
#![tactic(auto, unfolding(crate::specs::Metrics::change_recorded))]

ghost use Rattle.std.specs.Prelude.{◌≡◌};
ghost use Rattle.control.specs.Metrics.{rate_recorded, change_recorded, eagain_recorded, ce_recorded};

#[derive(Clone, Copy, Debug, PartialEq, Eq, Default)]
pub struct CongestionMetrics {
    pub current_rate_bps: u32,
    pub eagain_total: u64,
    pub ecn_ce_received: u64,
}

impl CongestionMetrics {
    pub fn record_rate(self, rate_bps: u32) -> CongestionMetrics
        ensures { result ≡ rate_recorded self rate_bps }
    {
        CongestionMetrics {
            current_rate_bps: rate_bps,
            ..self
        }
    }

    // A rate that changed.
    pub fn record_change(self, changed: bool, rate_bps: u32) -> CongestionMetrics
        ensures { result ≡ change_recorded self changed rate_bps }
    {
        if changed {
            self.record_rate(rate_bps)
        } else {
            self
        }
    }

    // Stays: [2] a line for each count that stops; one that is told the field would hide which calls write it.
    pub fn record_eagain(self) -> CongestionMetrics
        ensures { result ≡ eagain_recorded self }
    {
        CongestionMetrics {
            eagain_total: self.eagain_total.saturating_add(1),
            ..self
        }
    }

    // A window or a mark that signalled congestion.
    // Stays: [2] as `record_eagain`.
    pub fn record_ecn_ce(self) -> CongestionMetrics
        ensures { result ≡ ce_recorded self }
    {
        CongestionMetrics {
            ecn_ce_received: self.ecn_ce_received.saturating_add(1),
            ..self
        }
    }
}
