// A module's or a station's count of accepted calls and its last time, and the checks on them.
ghost use Rattle.std.specs.Prelude.{◌≡◌, ◌∷◌, []};
ghost use Rattle.config.specs.Refusal.{verdict_of};
ghost use Rattle.config.specs.Ledger.{opened, resumed, counted, moved, time_check, counted_checks, timed_checks, rate_checks};

use crate::refusal::{LARGEST_RATE, Refusal};

// The latest time of the domain, 2^62, and the most accepted calls, 2^40.
pub const LATEST: u64 = 0x4000_0000_0000_0000;

pub const MOST_CALLS: u64 = 0x100_0000_0000;

#[derive(Clone, Copy, Debug, PartialEq, Eq)]
pub struct Ledger {
    calls: u64,
    last: u64,
}

// The check of making something at a time: 7.
pub fn check_time(time: u64) -> Result<(), Refusal>
    ensures { result ≡ verdict_of (time_check time ∷ []) }
{
    Refusal::TimeBeyond.when(LATEST < time)
}

impl Ledger {
    // No call yet; the time of the making is the first last time.
    pub fn new(time: u64) -> Ledger
        ensures { result ≡ opened time }
    {
        Ledger {
            calls: 0,
            last: time,
        }
    }

    // The same with a count that was kept elsewhere, as over a restart.
    pub fn resumed(self, calls: u64) -> Ledger
        ensures { result ≡ resumed self calls }
    {
        Ledger { calls, ..self }
    }

    // The check of a call that takes no time: 17.
    pub fn check_counted(self) -> Result<(), Refusal>
        ensures { result ≡ verdict_of (counted_checks self) }
    {
        Refusal::CallsUsedUp.when(MOST_CALLS <= self.calls)
    }

    // The checks of a call at a time: 7, 17 and 11.
    pub fn check_timed(self, time: u64) -> Result<(), Refusal>
        ensures { result ≡ verdict_of (timed_checks self time) }
    {
        check_time(time)?;
        self.check_counted()?;
        Refusal::TimeBack.when(time < self.last)
    }

    // The checks of a call that gives a rate at a time: 6, 7, 17 and 11.
    pub fn check_rate(self, time: u64, rate_bps: u32) -> Result<(), Refusal>
        ensures { result ≡ verdict_of (rate_checks self time rate_bps) }
    {
        Refusal::RateBeyond.when(LARGEST_RATE < rate_bps)?;
        self.check_timed(time)
    }

    // One accepted call more.
    // Stays: [2] its twins count in fields of other structs, and what they share is one call of std's `saturating_add`.
    pub fn counted(self) -> Ledger
        ensures { result ≡ counted self }
    {
        Ledger {
            calls: self.calls.saturating_add(1),
            ..self
        }
    }

    // One accepted call more, at a time.
    pub fn moved(self, time: u64) -> Ledger
        ensures { result ≡ moved self time }
    {
        Ledger {
            last: time,
            ..self.counted()
        }
    }

    pub fn calls(self) -> u64
        ensures { result ≡ self.calls }
    {
        self.calls
    }

    pub fn last(self) -> u64
        ensures { result ≡ self.last }
    {
        self.last
    }
}
