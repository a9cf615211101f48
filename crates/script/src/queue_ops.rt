// The coalescing queue, over the byte buffer and the lent part of the pool.
use crate::desk::Desk;
use crate::digest::{DIGEST_START, joined_entry};
use crate::line::{Line, Shown};
use crate::operation::{Operation, remade, taken};
use crate::words::{Record, Unknown};
use config::alone::Alone;
use config::config::Priority;
use config::refusal::Refusal;
use queue::coalescing::{CoalescingQueue, hash_bytes};
use queue::coalescing_alone;
use queue::coalescing_alone::{Sample, sample_bytes};
use queue::entry::InstanceKey;

#[derive(Clone, Copy)]
pub(crate) enum QueueOperation {
    New { limit: usize },
    Insert(InstanceKey),
    PopFront,
    PeekFront,
    Calls(u64),
}

impl TryFrom<Record> for QueueOperation {
    type Error = Unknown;

    fn try_from(r: Record) -> Result<Self, Unknown> {
        Ok(match r.operation {
            128 => Self::New { limit: r.a.into() },
            129 => Self::Insert(InstanceKey::new(r.a.0, r.b.0)),
            130 => Self::PopFront,
            131 => Self::PeekFront,
            132 => Self::Calls(r.a.into()),
            _ => return Err(Unknown),
        })
    }
}

// Before the first record.
pub(crate) fn first() -> Result<Alone<CoalescingQueue<128>>, Refusal> {
    coalescing_alone::new(1)
}

// The calls take the queue by value and give it back.
impl Operation for QueueOperation {
    type State = Alone<CoalescingQueue<128>>;

    fn play(
        self,
        alone: &mut Alone<CoalescingQueue<128>>,
        desk: &mut Desk,
        line: Line,
    ) -> Result<Line, Refusal> {
        let front = match self {
            Self::New { limit } => remade(coalescing_alone::new(limit)?, alone),
            // The bytes of the buffer go into the lent part of the pool.
            Self::Insert(key) => {
                let (pool, bytes) = (desk.pool.lent_mut(), desk.bytes.as_slice());
                let left = coalescing_alone::insert(*alone, pool, key, bytes);
                taken(left, alone).and(Ok(None))
            }
            Self::PopFront => {
                let left = coalescing_alone::pop_front(*alone, desk.pool.lent());
                taken(left, alone)
            }
            Self::PeekFront => Ok(coalescing_alone::peek_front(alone)),
            Self::Calls(calls) => remade(alone.resumed(calls), alone),
        };
        // A front that stays is read off the whole pool.
        let readable = match self {
            Self::PeekFront => desk.pool.all(),
            _ => desk.pool.lent(),
        };
        let bytes = sample_bytes(front.unwrap_or(None), readable);
        Ok(line.with(front).with(hash_bytes(bytes)).with(&*alone))
    }

    fn nothing(line: Line) -> Line {
        line.with_zeros(5)
            .with(DIGEST_START)
            .with_zeros(7)
            .with(DIGEST_START)
    }
}

// Whether there is a front, and what it is.
impl Shown for Option<Sample> {
    fn show(self, line: Line) -> Line {
        match self {
            Some(sample) => line
                .with(true)
                .with(sample.sequence)
                .with(sample.length)
                .with(sample.key),
            None => line.with_zeros(5),
        }
    }
}

impl Shown for &Alone<CoalescingQueue<128>> {
    fn show(self, line: Line) -> Line {
        let queue = &self.inner;
        let stats = queue.stats();
        // Stays: [3] the queue is a ring, which has no slice to iterate over.
        let waiting = (0..queue.len()).fold(DIGEST_START, |d, place| {
            joined_entry(d, Priority::P2, queue.entry_at(place))
        });
        line.with(queue.len())
            .with(queue.limit())
            .with(queue.next_sequence())
            .with(stats.coalesced)
            .with(stats.dropped)
            .with(stats.bytes)
            .with(self.ledger.calls())
            .with(waiting)
    }
}
