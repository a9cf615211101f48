// The token bucket.
use crate::desk::Desk;
use crate::line::{Line, Shown};
use crate::operation::{Operation, made_or_zero, remade, taken};
use crate::words::{Record, Unknown};
use config::alone::Alone;
use config::refusal::Refusal;
use pacing::token_bucket::TokenBucket;
use pacing::token_bucket_alone;

#[derive(Clone, Copy)]
pub(crate) enum BucketOperation {
    New { time: u64, rate: u32, capacity: u64 },
    Refill { time: u64 },
    TryConsume { time: u64, bytes: u64 },
    ForceConsume { time: u64, bytes: u64 },
    SetRate { time: u64, rate: u32 },
    SetCapacity { capacity: u64 },
    TimeUntilAvailable { time: u64, bytes: u64 },
    Calls(u64),
}

impl TryFrom<Record> for BucketOperation {
    type Error = Unknown;

    // Stays: [2] the numbers and arguments are this suite's own; the gate refuses impls that a macro of ours would write.
    fn try_from(r: Record) -> Result<Self, Unknown> {
        let time = r.a.into();
        let bytes = r.b.into();
        let rate = r.b.into();
        Ok(match r.operation {
            96 => Self::New {
                time,
                rate,
                capacity: r.c.into(),
            },
            97 => Self::Refill { time },
            98 => Self::TryConsume { time, bytes },
            99 => Self::ForceConsume { time, bytes },
            100 => Self::SetRate { time, rate },
            101 => Self::SetCapacity {
                capacity: r.a.into(),
            },
            102 => Self::TimeUntilAvailable { time, bytes },
            103 => Self::Calls(r.a.into()),
            _ => return Err(Unknown),
        })
    }
}

impl Operation for BucketOperation {
    type State = Alone<TokenBucket>;

    fn play(
        self,
        alone: &mut Alone<TokenBucket>,
        _desk: &mut Desk,
        line: Line,
    ) -> Result<Line, Refusal> {
        let answer = self.called(alone);
        Ok(line.with(answer).with(*alone))
    }
}

impl BucketOperation {
    // What the call gives: whether tokens were taken, the nanoseconds to wait, or 0.
    fn called(self, alone: &mut Alone<TokenBucket>) -> Result<u64, Refusal> {
        match self {
            Self::New {
                time,
                rate,
                capacity,
            } => {
                let made = token_bucket_alone::new(time, rate, capacity);
                made_or_zero(made, TokenBucket::new(0, 0, 0), alone)
            }
            Self::Refill { time } => {
                taken(token_bucket_alone::refill(*alone, time), alone).and(Ok(0))
            }
            Self::TryConsume { time, bytes } => {
                taken(token_bucket_alone::try_consume(*alone, time, bytes), alone).map(u64::from)
            }
            Self::ForceConsume { time, bytes } => {
                taken(
                    token_bucket_alone::force_consume(*alone, time, bytes),
                    alone,
                )
                .and(Ok(0))
            }
            Self::SetRate { time, rate } => {
                taken(token_bucket_alone::set_rate(*alone, time, rate), alone).and(Ok(0))
            }
            Self::SetCapacity { capacity } => {
                taken(token_bucket_alone::set_capacity(*alone, capacity), alone).and(Ok(0))
            }
            Self::TimeUntilAvailable { time, bytes } => taken(
                token_bucket_alone::time_until_available(*alone, time, bytes),
                alone,
            ),
            Self::Calls(calls) => remade(alone.resumed(calls), alone),
        }
    }
}

impl Shown for TokenBucket {
    fn show(self, line: Line) -> Line {
        line.with(self.tokens())
            .with(self.capacity())
            .with(self.rate())
            .with(self.last_refill())
    }
}
