// A call of congestion control packed into a word, and the checksum over what calls answer.
use bench::call::mix;
use config::config::{CongestionConfig, EcnMode, Priority};
use control::budget_allocator::{WriterInfo, WriterTable};
use control::controller::ControllerCore;
use std::num::f32_to_bits_with_nan;

// The kinds of calls.
#[derive(Clone, Copy, Debug, PartialEq, Eq)]
pub enum Kind {
    Tick,
    SetRate,
    Sample,
    Tos,
    Register,
    Eagain,
    Show,
    Nacks,
}

// The kind of a number; every number from 7 on is NACKs.
impl From<u64> for Kind {
    fn from(number: u64) -> Kind {
        match number {
            0 => Kind::Tick,
            1 => Kind::SetRate,
            2 => Kind::Sample,
            3 => Kind::Tos,
            4 => Kind::Register,
            5 => Kind::Eagain,
            6 => Kind::Show,
            _ => Kind::Nacks,
        }
    }
}

// A word has, from its low bits on: 4 bits for the kind, 6 for the number, 30 for the amount and 24 for the time by which
// the call is later than the one before it, in units of 16 nanoseconds.
#[derive(Clone, Copy)]
pub struct Call {
    pub kind: Kind,
    // The writer or the peer, one of 64.
    pub number: u8,
    // A rate or a count.
    pub amount: u32,
    // The nanoseconds after the call before it.
    pub later: u64,
}

impl From<u64> for Call {
    fn from(word: u64) -> Call {
        Call {
            kind: Kind::from(word % 16),
            number: (word / 16 % 64) as u8,
            amount: (word / 1024 % 1073741824) as u32,
            later: word / 1099511627776 * 16,
        }
    }
}

// What calls read of the amount or of the number in place of it.
impl Call {
    // The class of a new writer; every number above 1 is P2.
    pub fn class(self) -> Priority {
        Priority::try_from((self.amount % 4) as u8).unwrap_or(Priority::P2)
    }

    // The TOS byte of a packet.
    pub fn tos(self) -> u8 {
        (self.amount % 256) as u8
    }

    // A sample in milliseconds: sixteenths, below 4,096.
    pub fn sample(self) -> f32 {
        let sixteenths = (self.amount % 65536) as u16;
        sixteenths as f32 * 0.0625
    }

    // The factor of a decrease: 64ths, from 0 to 63.
    pub fn factor(self) -> f32 {
        self.number as f32 * 0.015625
    }
}

// The defaults, or other settings, with marks looked at; two, so that no setting is a constant to the compiler.
pub fn settings(other: bool) -> CongestionConfig {
    let config = CongestionConfig::default();
    let marked = CongestionConfig {
        ecn_mode: EcnMode::Opportunistic,
        ..config
    };
    if other { other_than(marked) } else { marked }
}

// The same settings with every number that congestion control reads changed.
fn other_than(config: CongestionConfig) -> CongestionConfig {
    CongestionConfig {
        min_rate_bps: 20000,
        max_rate_bps: 50000000,
        ai_step_bps: 70001,
        md_factor_hard: 0.4,
        md_factor_soft: 0.7,
        stable_window_ms: 500,
        cooldown_ms: 200,
        score_tick_ms: 50,
        score_decay: 0.8,
        decrease_threshold: 50,
        increase_threshold: 15,
        hysteresis_band: 5,
        eagain_is_hard: false,
        eagain_impulse: 55,
        rtt_impulse: 25,
        nack_rate_threshold: 5,
        nack_impulse: 30,
        p0_min_share: 0.3,
        p0_min_bps: 20000,
        ..config
    }
}

// The checksum with a float more.
pub fn mix_f32(sum: u64, x: f32) -> u64 {
    mix(sum, f32_to_bits_with_nan(x))
}

// The checksum with the rate and the score that a tick left.
pub fn mix_tick(sum: u64, core: &ControllerCore) -> u64 {
    mix_f32(mix(sum, core.rate()), core.scorer().score())
}

// The checksum with a writer's update more.
fn mix_update(sum: u64, row: &WriterInfo) -> u64 {
    mix(mix(mix(sum, row.id), row.previous_bps), row.budget_bps)
}

// The checksum with every writer's update.
pub fn mix_updates(sum: u64, table: &WriterTable) -> u64 {
    table
        .writers()
        .iter()
        .fold(sum, |sum, row| mix_update(sum, row))
}
