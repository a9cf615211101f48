// A call packed into a word, and the checksum over what calls answer.
use config::config::Priority;
use pacing::send_action::SendAction;
use queue::entry::InstanceKey;

// A word has, from its low bits on: 4 bits for the kind, 4 for the pacer, 4 for the class, 16 for the length, 16 for the
// key and 20 for the nanoseconds by which the call is later than the one before it.
#[derive(Clone, Copy)]
pub struct Call {
    // The nanoseconds after the call before it.
    pub later: u64,
    // The pacer, one of four.
    pub pacer: u8,
    pub kind: Kind,
}

// A call hands a record in, or asks what to send.
#[derive(Clone, Copy, Debug, PartialEq, Eq)]
pub enum Kind {
    HandIn,
    Send,
}

// The kind of a number; every number above 0 asks.
impl From<u64> for Kind {
    fn from(number: u64) -> Kind {
        match number {
            0 => Kind::HandIn,
            _ => Kind::Send,
        }
    }
}

// What a call hands in.
#[derive(Clone, Copy)]
pub struct Record {
    // Every number above 1 is P2.
    pub class: Priority,
    // Of one topic.
    pub key: InstanceKey,
    // In bytes.
    pub length: usize,
}

impl From<u64> for Call {
    fn from(word: u64) -> Call {
        Call {
            later: word / 17592186044416,
            pacer: (word / 16 % 4) as u8,
            kind: Kind::from(word % 16),
        }
    }
}

impl From<u64> for Record {
    fn from(word: u64) -> Record {
        Record {
            class: Priority::try_from((word / 256 % 16) as u8).unwrap_or(Priority::P2),
            key: InstanceKey::new(7, word / 268435456 % 65536),
            length: (word / 4096 % 65536) as usize,
        }
    }
}

// Where the record of call k begins in the bytes, so that records of one length differ.
pub fn start_of(k: usize) -> usize {
    k % 64
}

// The checksum with one number more: turned left by 7, then joined by xor.
pub fn mix(sum: u64, x: impl Into<u64>) -> u64 {
    ((sum << 7) ^ (sum >> 57)) ^ x.into()
}

// The last byte of a record that is shown; 0 where it is empty.
fn last_of(shown: &[u8]) -> u8 {
    shown.last().map_or(0, |byte| *byte)
}

// The checksum with a send attempt more: what it came to, and the last byte of what is shown.
pub fn mix_action(sum: u64, action: SendAction, shown: &[u8]) -> u64 {
    match action {
        SendAction::Send {
            class,
            sequence,
            length,
            ..
        } => mix(
            mix(mix(mix(sum, u8::from(class)), sequence), length),
            last_of(shown),
        ),
        SendAction::Empty => mix(sum, 3u8),
        SendAction::RateLimited(wait) => mix(mix(sum, 4u8), wait),
    }
}
