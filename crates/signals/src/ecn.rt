// Explicit congestion notification: codepoints, counts, and the window of marks that signals congestion.
ghost use Rattle.std.specs.Prelude.{◌≡◌};
ghost use Rattle.signals.specs.Ecn.{codepoint_of, tos_of, is_ect, is_ce, recorded, responded, counted, window_signals, closed, processed_tos, processed_ce};

// The two low bits of the TOS byte (RFC 3168, section 5).
#[derive(Clone, Copy, Debug, PartialEq, Eq)]
pub enum EcnCodepoint {
    NotEct = 0,
    Ect1 = 1,
    Ect0 = 2,
    Ce = 3,
}

// Packets received, by codepoint, and the windows or marks that were signalled.
#[derive(Clone, Copy, Debug, PartialEq, Eq, Default)]
pub struct EcnStats {
    pub packets_received: u64,
    pub ect0_received: u64,
    pub ect1_received: u64,
    pub ce_received: u64,
    pub not_ect_received: u64,
    pub ce_responded: u64,
}

// The counts, and the marks and packets of the current window.
#[derive(Clone, Copy, Debug, PartialEq, Eq, Default)]
pub struct EcnProcessor {
    pub(crate) stats: EcnStats,
    pub(crate) ce_in_window: u32,
    pub(crate) packets_in_window: u32,
}

// Packets in a window.
const WINDOW_SIZE: u32 = 100;

// The codepoint of a TOS byte.
impl From<u8> for EcnCodepoint {
    ghost from_gives = { λ tos codepoint. codepoint ≡ codepoint_of tos };

    fn from(tos: u8) -> EcnCodepoint {
        match tos % 4 {
            0 => EcnCodepoint::NotEct,
            1 => EcnCodepoint::Ect1,
            2 => EcnCodepoint::Ect0,
            _ => EcnCodepoint::Ce,
        }
    }
}

// The two low bits that stand for a codepoint.
impl From<EcnCodepoint> for u8 {
    ghost from_gives = { λ codepoint tos. tos ≡ tos_of codepoint };

    fn from(codepoint: EcnCodepoint) -> u8 {
        codepoint as u8
    }
}

impl EcnCodepoint {
    // Stays: [2] a variant of its own enum by `matches!`; a test over both enums would name both.
    pub fn is_congestion_experienced(self) -> bool
        ensures { result ≡ is_ce self }
    {
        matches!(self, EcnCodepoint::Ce)
    }

    // Not-ECT is in no window.
    pub fn is_ecn_capable(self) -> bool
        ensures { result ≡ is_ect self }
    {
        matches!(self, EcnCodepoint::Ect1 | EcnCodepoint::Ect0)
    }
}

impl EcnStats {
    // One packet more, under its codepoint.
    pub fn record_packet(mut self, codepoint: EcnCodepoint) -> EcnStats
        ensures { result ≡ recorded self codepoint }
    {
        self.packets_received = self.packets_received.saturating_add(1);
        // Stays: [2] an arm says which count moves; as a match that gives a `&mut` of that count the proof did not close.
        match codepoint {
            EcnCodepoint::NotEct => self.not_ect_received = self.not_ect_received.saturating_add(1),
            EcnCodepoint::Ect1 => self.ect1_received = self.ect1_received.saturating_add(1),
            EcnCodepoint::Ect0 => self.ect0_received = self.ect0_received.saturating_add(1),
            EcnCodepoint::Ce => self.ce_received = self.ce_received.saturating_add(1),
        }
        self
    }

    // One signal more.
    // Stays: [2] one line on a count of its own struct; what the others of the kind share with it is std's `saturating_add`.
    pub fn record_ce_response(self) -> EcnStats
        ensures { result ≡ responded self }
    {
        EcnStats {
            ce_responded: self.ce_responded.saturating_add(1),
            ..self
        }
    }
}

// The steps: total, with no refusals.
impl EcnProcessor {
    // Counts a packet by its TOS byte, and tells whether congestion is to be signalled; a full window is judged and emptied.
    pub fn process_tos(self, tos: u8) -> (EcnProcessor, bool)
        ensures { result ≡ processed_tos self tos }
    {
        let counted = self.count_packet(EcnCodepoint::from(tos));
        if counted.packets_in_window >= WINDOW_SIZE {
            counted.close_window()
        } else {
            (counted, false)
        }
    }

    // A single mark is signalled at once; it counts in no window.
    pub fn process_ce(self) -> (EcnProcessor, bool)
        ensures { result ≡ processed_ce self }
    {
        let stats = self.stats.record_packet(EcnCodepoint::Ce);
        let marked = EcnProcessor {
            stats: stats.record_ce_response(),
            ..self
        };
        (marked, true)
    }

    // Not-ECT counts in no window.
    fn count_packet(self, codepoint: EcnCodepoint) -> EcnProcessor
        ensures { result ≡ counted self codepoint }
    {
        let stats = self.stats.record_packet(codepoint);
        let packets_in_window = self.packets_in_window.saturating_add(1);
        if codepoint.is_congestion_experienced() {
            EcnProcessor {
                stats,
                ce_in_window: self.ce_in_window.saturating_add(1),
                packets_in_window,
            }
        } else if codepoint.is_ecn_capable() {
            EcnProcessor {
                stats,
                packets_in_window,
                ..self
            }
        } else {
            EcnProcessor { stats, ..self }
        }
    }

    // Whether marks over packets, in f64, is at least 0.01.
    fn check_window(self) -> bool
        ensures { result ≡ window_signals self }
    {
        let ce = f64::from(self.ce_in_window);
        let packets = f64::from(self.packets_in_window);
        ce / packets >= 0.01
    }

    // The window is judged, and a new one begins.
    fn close_window(self) -> (EcnProcessor, bool)
        ensures { result ≡ closed self }
    {
        let signal = self.check_window();
        let stats = if signal {
            self.stats.record_ce_response()
        } else {
            self.stats
        };
        let emptied = EcnProcessor {
            stats,
            ..EcnProcessor::default()
        };
        (emptied, signal)
    }

    pub fn stats(self) -> EcnStats
        ensures { result ≡ self.stats }
    {
        self.stats
    }

    pub fn ce_in_window(self) -> u32
        ensures { result ≡ self.ce_in_window }
    {
        self.ce_in_window
    }

    pub fn packets_in_window(self) -> u32
        ensures { result ≡ self.packets_in_window }
    {
        self.packets_in_window
    }
}
