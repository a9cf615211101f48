// The key hash and instance keys, over the byte buffer; and that buffer and the pool, which the queue and the pacer share.
use crate::desk::{BUFFER_BYTES, Desk};
use crate::line::{Line, Shown};
use crate::operation::Operation;
use crate::words::{Record, Unknown};
use arrayvec::ArrayVec;
use config::refusal::Refusal;
use queue::coalescing::hash_bytes;
use queue::entry::InstanceKey;

#[derive(Clone, Copy)]
pub(crate) enum CoalescingOperation {
    Empty,
    // The first bytes of words join the buffer.
    Join { length: usize, words: [u64; 4] },
    HashBytes,
    FromTopicAndKey { topic: usize },
    Keyless,
    KeyNew(InstanceKey),
    HashIs(u64),
    Pattern { length: usize, seed: u64 },
    PoolFill { lent: usize, byte: u8 },
    PoolShow,
    PoolLend { lent: usize },
}

impl TryFrom<Record> for CoalescingOperation {
    type Error = Unknown;

    fn try_from(r: Record) -> Result<Self, Unknown> {
        let length = usize::from(r.a);
        Ok(match r.operation {
            112 => Self::Empty,
            113 => Self::Join {
                length,
                words: [r.b.0, r.c.0, r.d.0, r.e.0],
            },
            114 => Self::HashBytes,
            115 => Self::FromTopicAndKey { topic: length },
            116 => Self::Keyless,
            117 => Self::KeyNew(InstanceKey::new(r.a.0, r.b.0)),
            118 => Self::HashIs(r.a.0),
            119 => Self::Pattern {
                length,
                seed: r.b.0,
            },
            120 => Self::PoolFill {
                lent: length,
                byte: r.b.into(),
            },
            121 => Self::PoolShow,
            122 => Self::PoolLend { lent: length },
            _ => return Err(Unknown),
        })
    }
}

impl Operation for CoalescingOperation {
    type State = ();

    fn play(self, _state: &mut (), desk: &mut Desk, line: Line) -> Result<Line, Refusal> {
        Ok(match self {
            Self::Empty => {
                desk.bytes.clear();
                line.with(0u64)
            }
            Self::Join { length, words } => {
                join(&mut desk.bytes, length, words);
                line.with(desk.bytes.len())
            }
            Self::Pattern { length, seed } => {
                desk.bytes.clear();
                pattern(&mut desk.bytes, length, seed);
                line.with(desk.bytes.len())
            }
            Self::PoolFill { lent, byte } => {
                desk.pool.fill(byte);
                desk.pool.lend(lent);
                line.with(desk.pool.lent().len())
            }
            Self::PoolLend { lent } => {
                desk.pool.lend(lent);
                line.with(desk.pool.lent().len())
            }
            Self::PoolShow => {
                let lent = desk.pool.lent();
                line.with(lent.len()).with(hash_bytes(lent))
            }
            Self::HashBytes => line.with(hash_bytes(desk.bytes.as_slice())),
            Self::FromTopicAndKey { topic } => {
                line.with(topic_and_key(desk.bytes.as_slice(), topic))
            }
            Self::Keyless => line.with(InstanceKey::keyless(desk.bytes.as_slice())),
            Self::KeyNew(key) => line.with(key),
            Self::HashIs(hash) => line.with(hash_bytes(desk.bytes.as_slice()) == hash),
        })
    }
}

impl Shown for InstanceKey {
    fn show(self, line: Line) -> Line {
        line.with(self.topic_hash).with(self.key_hash)
    }
}

// The topic is the buffer's first bytes, or all; the key is the rest.
fn topic_and_key(bytes: &[u8], topic: usize) -> InstanceKey {
    let (topic, key) = bytes.split_at(topic.min(bytes.len()));
    InstanceKey::from_topic_and_key(topic, key)
}

// The first bytes of words, low bytes first, join the buffer as far as it goes.
fn join(bytes: &mut ArrayVec<u8, BUFFER_BYTES>, length: usize, words: [u64; 4]) {
    let joining = words.iter().flat_map(|word| word.to_le_bytes());
    for byte in joining.take(length) {
        let _ = bytes.try_push(byte);
    }
}

// So many bytes of a pattern join the buffer as far as it goes.
fn pattern(bytes: &mut ArrayVec<u8, BUFFER_BYTES>, length: usize, seed: u64) {
    for k in 0..length.min(BUFFER_BYTES) {
        let _ = bytes.try_push(pattern_byte(seed, k));
    }
}

// A byte of a pattern, the index modulo the buffer's size: the second byte of a product.
fn pattern_byte(seed: u64, k: usize) -> u8 {
    let at = (k % BUFFER_BYTES) as u64;
    let [_, second, ..] = ((seed % 65536 + at) * 40503).to_le_bytes();
    second
}
