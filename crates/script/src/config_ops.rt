// The settings and their checks.
use crate::desk::Desk;
use crate::line::{Line, Shown};
use crate::operation::Operation;
use crate::words::{Record, Unknown, Word};
use config::config::{CongestionConfig, EcnMode};
use config::refusal::Refusal;

// Fields of the settings.
const FIELDS: u64 = 25;

#[derive(Clone, Copy)]
pub(crate) enum ConfigOperation {
    New { disabled: bool },
    // One field, by its number.
    Set { field: u64, value: Word },
    Check,
}

impl TryFrom<Record> for ConfigOperation {
    type Error = Unknown;

    fn try_from(r: Record) -> Result<Self, Unknown> {
        Ok(match r.operation {
            32 => Self::New {
                disabled: r.a.into(),
            },
            33 => Self::Set {
                field: r.a.0 % FIELDS,
                value: r.b,
            },
            34 => Self::Check,
            _ => return Err(Unknown),
        })
    }
}

impl Operation for ConfigOperation {
    type State = ();

    fn play(self, _state: &mut (), desk: &mut Desk, line: Line) -> Result<Line, Refusal> {
        let line = match self {
            Self::New { disabled: true } => {
                desk.settings = CongestionConfig::disabled();
                line
            }
            Self::New { disabled: false } => {
                desk.settings = CongestionConfig::default();
                line
            }
            Self::Set { field, value } => {
                set_field(&mut desk.settings, field, value);
                line
            }
            Self::Check => {
                let failed = desk.settings.validate().map_or_else(u8::from, |()| 0);
                line.with(desk.settings.check()).with(failed)
            }
        };
        Ok(line.with(desk.settings))
    }
}

// Stays: [1] an enum of the fields would name all 25 twice, once by its number and once where it is set.
fn set_field(settings: &mut CongestionConfig, field: u64, value: Word) {
    // Stays: [2] a table of closures would have the same lines, since the fields are of six types.
    match field {
        0 => settings.enabled = value.into(),
        1 => settings.min_rate_bps = value.into(),
        2 => settings.max_rate_bps = value.into(),
        3 => settings.ai_step_bps = value.into(),
        4 => settings.md_factor_hard = value.into(),
        5 => settings.md_factor_soft = value.into(),
        6 => settings.stable_window_ms = value.into(),
        7 => settings.cooldown_ms = value.into(),
        8 => settings.score_tick_ms = value.into(),
        9 => settings.score_decay = value.into(),
        10 => settings.decrease_threshold = value.into(),
        11 => settings.increase_threshold = value.into(),
        12 => settings.hysteresis_band = value.into(),
        13 => settings.eagain_is_hard = value.into(),
        14 => settings.eagain_impulse = value.into(),
        15 => settings.rtt_impulse = value.into(),
        16 => settings.nack_rate_threshold = value.into(),
        17 => settings.nack_impulse = value.into(),
        18 => settings.repair_budget_ratio = value.into(),
        19 => settings.max_queue_p0 = value.into(),
        20 => settings.max_queue_p1 = value.into(),
        21 => settings.max_queue_p2 = value.into(),
        22 => settings.p0_min_share = value.into(),
        23 => settings.p0_min_bps = value.into(),
        _ => settings.ecn_mode = value.into(),
    }
}

// The mode, its digit modulo 3.
impl From<Word> for EcnMode {
    fn from(word: Word) -> EcnMode {
        match word.0 % 3 {
            0 => EcnMode::Off,
            1 => EcnMode::Opportunistic,
            _ => EcnMode::Mandatory,
        }
    }
}

impl Shown for EcnMode {
    fn show(self, line: Line) -> Line {
        line.with(self as u8)
    }
}

// The fields in the order of their numbers.
impl Shown for CongestionConfig {
    fn show(self, line: Line) -> Line {
        line.with(self.enabled)
            .with(self.min_rate_bps)
            .with(self.max_rate_bps)
            .with(self.ai_step_bps)
            .with(self.md_factor_hard)
            .with(self.md_factor_soft)
            .with(self.stable_window_ms)
            .with(self.cooldown_ms)
            .with(self.score_tick_ms)
            .with(self.score_decay)
            .with(self.decrease_threshold)
            .with(self.increase_threshold)
            .with(self.hysteresis_band)
            .with(self.eagain_is_hard)
            .with(self.eagain_impulse)
            .with(self.rtt_impulse)
            .with(self.nack_rate_threshold)
            .with(self.nack_impulse)
            .with(self.repair_budget_ratio)
            .with(self.max_queue_p0)
            .with(self.max_queue_p1)
            .with(self.max_queue_p2)
            .with(self.p0_min_share)
            .with(self.p0_min_bps)
            .with(self.ecn_mode)
    }
}
