// The line that answers a record.
use crate::digest::{DIGEST_START, joined};
use crate::words::Record;
use arrayvec::ArrayVec;
use config::alone::Alone;
use config::ledger::Ledger;
use config::refusal::{ACCEPTED, Refusal};
use std::fmt;
use std::num::{f32_to_bits_with_nan, f64_to_bits_with_nan};

// The most numbers in a line, the operation's among them.
const MOST_NUMBERS: usize = 59;

// Room for a line: 59 numbers of 20 digits, with the spaces and the line's end, have 1,239 bytes.
pub(crate) const LINE_BYTES: usize = 1280;

#[derive(Default, Drop)]
pub(crate) struct Line {
    numbers: ArrayVec<u64, MOST_NUMBERS>,
}

// What a line shows of a value: its fields, in their order.
pub(crate) trait Shown {
    fn show(self, line: Line) -> Line;
}

// The line that answers a record begins with its operation's number.
impl From<Record> for Line {
    fn from(record: Record) -> Line {
        Line::default().with(record.operation)
    }
}

impl Line {
    // One value more.
    pub(crate) fn with(self, value: impl Shown) -> Line {
        value.show(self)
    }

    // One number more; a full line stays.
    fn with_number(mut self, number: u64) -> Line {
        let _ = self.numbers.try_push(number);
        self
    }

    // So many zeros more.
    pub(crate) fn with_zeros(self, zeros: usize) -> Line {
        let mut line = self;
        for _ in 0..zeros {
            line = line.with(0u64);
        }
        line
    }

    // The digest of the numbers.
    pub(crate) fn digest(&self) -> u64 {
        joined(DIGEST_START, self.numbers.as_slice())
    }
}

// The numbers, with a space between.
impl fmt::Display for Line {
    fn fmt<W: fmt::Write>(&self, f: &mut fmt::Formatter<W>) -> fmt::Result {
        let mut space = "";
        for number in self.numbers.as_slice() {
            write!(f, "{space}{number}")?;
            space = " ";
        }
        Ok(())
    }
}

// Stays: [2] a blanket `impl<T: Into<u64>> Shown for T` overlaps those of floats and answers, and the check refuses it.
impl Shown for u64 {
    fn show(self, line: Line) -> Line {
        line.with_number(self)
    }
}

impl Shown for usize {
    fn show(self, line: Line) -> Line {
        line.with_number(self as u64)
    }
}

impl Shown for u32 {
    fn show(self, line: Line) -> Line {
        line.with_number(self.into())
    }
}

impl Shown for u16 {
    fn show(self, line: Line) -> Line {
        line.with_number(self.into())
    }
}

impl Shown for u8 {
    fn show(self, line: Line) -> Line {
        line.with_number(self.into())
    }
}

// 0 or 1.
impl Shown for bool {
    fn show(self, line: Line) -> Line {
        line.with_number(self.into())
    }
}

// Its bits, one quiet pattern for every NaN.
// Stays: [2] the two have no trait in common that gives their bits.
impl Shown for f32 {
    fn show(self, line: Line) -> Line {
        line.with(f32_to_bits_with_nan(self))
    }
}

impl Shown for f64 {
    fn show(self, line: Line) -> Line {
        line.with(f64_to_bits_with_nan(self))
    }
}

impl Shown for () {
    fn show(self, line: Line) -> Line {
        line
    }
}

// Whether there is a time, and the time or 0.
impl Shown for Option<u64> {
    fn show(self, line: Line) -> Line {
        line.with(self.is_some()).with(self.unwrap_or(0))
    }
}

// The answer's number, and what it gives; where it is turned down, the zero of that.
impl<T: Shown + Default> Shown for Result<T, Refusal> {
    fn show(self, line: Line) -> Line {
        match self {
            Ok(told) => line.with(ACCEPTED).with(told),
            Err(refusal) => line.with(u8::from(refusal)).with(T::default()),
        }
    }
}

// The module, and its ledger.
impl<M: Shown> Shown for Alone<M> {
    fn show(self, line: Line) -> Line {
        line.with(self.inner).with(self.ledger)
    }
}

// The count of calls, and the last time.
impl Shown for Ledger {
    fn show(self, line: Line) -> Line {
        line.with(self.calls()).with(self.last())
    }
}
