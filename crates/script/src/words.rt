// The words of a script, and arguments as the calls take them.
use config::config::Priority;

// An operation and five arguments, a little-endian word each.
pub(crate) const RECORD_BYTES: usize = 48;

// An argument. Where it is wider than its place it is taken modulo the place's width.
#[derive(Clone, Copy)]
pub(crate) struct Word(pub(crate) u64);

// The operation and its arguments.
// Stays: [1] a line repeats the number, also of an operation that no suite knows; each suite makes an enum of its own of it.
#[derive(Clone, Copy)]
pub(crate) struct Record {
    pub(crate) operation: u64,
    pub(crate) a: Word,
    pub(crate) b: Word,
    pub(crate) c: Word,
    pub(crate) d: Word,
    pub(crate) e: Word,
}

// No operation of its suite has this number.
#[derive(Clone, Copy, Debug)]
pub(crate) struct Unknown;

impl Record {
    // The record that bytes begin with; none where they are too few.
    pub(crate) fn read(bytes: &[u8]) -> Option<Record> {
        let (words, _) = bytes.as_chunks::<8>();
        let mut words = words.iter().map(|word| u64::from_le_bytes(*word));
        Some(Record {
            operation: words.next()?,
            a: Word(words.next()?),
            b: Word(words.next()?),
            c: Word(words.next()?),
            d: Word(words.next()?),
            e: Word(words.next()?),
        })
    }
}

impl Word {
    // The high half.
    pub(crate) fn high(self) -> Word {
        Word(self.0 >> 32)
    }
}

// Stays: [2] each type takes the bits in its own way; an `impl<T> From<Word> for T` is refused, since neither `From` nor T is this crate's.
impl From<Word> for u64 {
    fn from(word: Word) -> u64 {
        word.0
    }
}

impl From<Word> for usize {
    fn from(word: Word) -> usize {
        word.0 as usize
    }
}

impl From<Word> for u32 {
    fn from(word: Word) -> u32 {
        (word.0 & 0xffff_ffff) as u32
    }
}

impl From<Word> for u8 {
    fn from(word: Word) -> u8 {
        (word.0 & 0xff) as u8
    }
}

// A flag is the last bit.
impl From<Word> for bool {
    fn from(word: Word) -> bool {
        word.0 % 2 == 1
    }
}

// The float whose bits are the low half.
impl From<Word> for f32 {
    fn from(word: Word) -> f32 {
        std::num::f32_from_bits_with_nan(word.into())
    }
}

impl From<Word> for f64 {
    fn from(word: Word) -> f64 {
        std::num::f64_from_bits_with_nan(word.0)
    }
}

// The class, its digit modulo 3.
impl From<Word> for Priority {
    fn from(word: Word) -> Priority {
        Priority::try_from((word.0 % 3) as u8).unwrap_or(Priority::P2)
    }
}
