// The writer pacer, over the settings, the byte buffer and the lent part of the pool.
use crate::desk::Desk;
use crate::digest::{DIGEST_START, joined_entry};
use crate::line::{Line, Shown};
use crate::operation::{Operation, remade, taken};
use crate::words::{Record, Unknown};
use config::alone::Alone;
use config::answer::Numbered;
use config::config::{CongestionConfig, Priority};
use config::refusal::Refusal;
use pacing::pacer_counts::WriterPacerMetrics;
use pacing::send_action::{SendAction, sent_bytes};
use pacing::writer_pacer::WriterPacer;
use pacing::writer_pacer_alone;
use pacing::writer_pacer_alone::ConfiguredPacer;
use queue::coalescing::hash_bytes;
use queue::entry::InstanceKey;

#[derive(Clone, Copy)]
pub(crate) enum PacerOperation {
    New { time: u64, rate: u32 },
    Enqueue { time: u64, class: Priority },
    EnqueueP2Keyed { time: u64, key: InstanceKey },
    TrySend { time: u64 },
    SetRate { time: u64, rate: u32 },
    Calls(u64),
}

impl TryFrom<Record> for PacerOperation {
    type Error = Unknown;

    // Stays: [2] the numbers and arguments are this suite's own; the gate refuses impls that a macro of ours would write.
    fn try_from(r: Record) -> Result<Self, Unknown> {
        let time = r.a.into();
        let rate = r.b.into();
        Ok(match r.operation {
            144 => Self::New { time, rate },
            145 => Self::Enqueue {
                time,
                class: r.b.into(),
            },
            146 => Self::EnqueueP2Keyed {
                time,
                key: InstanceKey::new(r.b.0, r.c.0),
            },
            147 => Self::TrySend { time },
            148 => Self::SetRate { time, rate },
            149 => Self::Calls(r.a.into()),
            _ => return Err(Unknown),
        })
    }
}

// Default settings, but for one record of each class in a queue.
// Stays: [4] it is the default but for three fields, and the settings have one `Default`.
pub(crate) fn narrow() -> CongestionConfig {
    CongestionConfig {
        max_queue_p0: 1,
        max_queue_p1: 1,
        max_queue_p2: 1,
        ..CongestionConfig::default()
    }
}

// Before the first record.
pub(crate) fn first() -> Result<Alone<ConfiguredPacer>, Refusal> {
    writer_pacer_alone::with_rate(0, narrow(), 1)
}

// The calls take the pacer by value and give it back.
impl Operation for PacerOperation {
    type State = Alone<ConfiguredPacer>;

    fn play(
        self,
        alone: &mut Alone<ConfiguredPacer>,
        desk: &mut Desk,
        line: Line,
    ) -> Result<Line, Refusal> {
        // Stays: [1] a full queue's 12 is the number of an accepted hand-in, which a `Result` of an action would not tell.
        let mut action = SendAction::Empty;
        let number = match self {
            Self::New { time, rate } => {
                let made = writer_pacer_alone::with_rate(time, desk.settings, rate)?;
                remade::<_, ()>(made, alone).number()
            }
            // The bytes of the buffer go into the lent part of the pool.
            Self::Enqueue { time, class } => {
                let (pool, bytes) = (desk.pool.lent_mut(), desk.bytes.as_slice());
                let left = writer_pacer_alone::enqueue(*alone, time, pool, class, bytes);
                taken(left, alone).number()
            }
            Self::EnqueueP2Keyed { time, key } => {
                let (pool, bytes) = (desk.pool.lent_mut(), desk.bytes.as_slice());
                let left = writer_pacer_alone::enqueue_p2_keyed(*alone, time, pool, key, bytes);
                taken(left, alone).number()
            }
            Self::TrySend { time } => {
                let left = writer_pacer_alone::try_send(*alone, time, desk.pool.lent());
                let tried = taken(left, alone);
                action = tried.unwrap_or(SendAction::Empty);
                tried.number()
            }
            Self::SetRate { time, rate } => {
                taken(writer_pacer_alone::set_rate(*alone, time, rate), alone).number()
            }
            Self::Calls(calls) => {
                let resumed = alone.resumed(calls);
                remade::<_, ()>(resumed, alone).number()
            }
        };
        let ConfiguredPacer { config, pacer } = &alone.inner;
        let sent = sent_bytes(config.limits(), 0, action, desk.pool.lent());
        let acted = line.with(number).with(action).with(hash_bytes(sent));
        Ok(acted.with(pacer).with(alone.ledger).with(waiting(pacer)))
    }

    fn nothing(line: Line) -> Line {
        line.with_zeros(5)
            .with(DIGEST_START)
            .with_zeros(24)
            .with(DIGEST_START)
    }
}

// Which action it is, then the class, sequence and length of a sent record, and the wait.
impl Shown for SendAction {
    fn show(self, line: Line) -> Line {
        match self {
            SendAction::Send {
                class,
                sequence,
                length,
                ..
            } => line
                .with(1u64)
                .with(u8::from(class))
                .with(sequence)
                .with(length)
                .with(0u64),
            SendAction::Empty => line.with_zeros(5),
            SendAction::RateLimited(wait) => line.with(2u64).with_zeros(3).with(wait),
        }
    }
}

// A pacer of the largest queues.
pub(crate) type Pacer = WriterPacer<128, 512, 128>;

// The digest of what waits, in the order of the classes.
pub(crate) fn waiting(pacer: &Pacer) -> u64 {
    let p0 = joined_class(DIGEST_START, pacer, Priority::P0);
    let p1 = joined_class(p0, pacer, Priority::P1);
    joined_class(p1, pacer, Priority::P2)
}

fn joined_class(digest: u64, pacer: &Pacer, class: Priority) -> u64 {
    // Stays: [3] a queue is a ring, which has no slice to iterate over.
    (0..pacer.len(class)).fold(digest, |d, place| {
        joined_entry(d, class, pacer.entry_at(class, place))
    })
}

// All but the digest of what waits: the bucket, the lengths of the queues, the next sequence numbers, P2's bytes and the metrics.
impl Shown for &Pacer {
    fn show(self, line: Line) -> Line {
        line.with(self.tokens())
            .with(self.len(Priority::P0))
            .with(self.len(Priority::P1))
            .with(self.len(Priority::P2))
            .with(self.next_sequence())
            .with(self.next_sequence_p2())
            .with(self.total_bytes_p2())
            .with(self.metrics())
    }
}

impl Shown for WriterPacerMetrics {
    fn show(self, line: Line) -> Line {
        line.with(self.enqueued_p0)
            .with(self.enqueued_p1)
            .with(self.enqueued_p2)
            .with(self.sent_p0)
            .with(self.sent_p1)
            .with(self.sent_p2)
            .with(self.dropped_p1)
            .with(self.coalesced_p2)
            .with(self.dropped_p2)
            .with(self.bytes_sent)
            .with(self.rate_limited)
            .with(self.force_sends_p0)
    }
}
