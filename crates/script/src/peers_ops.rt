// The tracker of peers.
use crate::desk::Desk;
use crate::digest::{DIGEST_START, joined};
use crate::line::{Line, Shown};
use crate::operation::{Operation, made_or_zero, remade, taken};
use crate::words::{Record, Unknown};
use config::alone::Alone;
use config::refusal::Refusal;
use signals::peer_rtt_tracker_alone;
use signals::rtt_estimator::{Peer, PeerRttTracker};
use std::num::f32_to_bits_with_nan;

#[derive(Clone, Copy)]
pub(crate) enum PeersOperation {
    New { default: f32 },
    Update { time: u64, peer: u32, sample: f32 },
    Calls(u64),
    Show { place: usize },
}

// Places of a tracker.
const PEER_PLACES: u64 = 64;

impl TryFrom<Record> for PeersOperation {
    type Error = Unknown;

    // Stays: [2] the numbers and arguments are this suite's own; the gate refuses impls that a macro of ours would write.
    fn try_from(r: Record) -> Result<Self, Unknown> {
        Ok(match r.operation {
            80 => Self::New {
                default: r.a.into(),
            },
            81 => Self::Update {
                time: r.a.into(),
                peer: r.b.into(),
                sample: r.c.into(),
            },
            82 => Self::Calls(r.a.into()),
            83 => Self::Show {
                place: (r.a.0 % PEER_PLACES) as usize,
            },
            _ => return Err(Unknown),
        })
    }
}

impl Operation for PeersOperation {
    type State = Alone<PeerRttTracker>;

    // Stays: [2] each arm is a call of this module; what becomes of an answer is said once, by `taken` and `remade`.
    fn play(
        self,
        alone: &mut Alone<PeerRttTracker>,
        _desk: &mut Desk,
        line: Line,
    ) -> Result<Line, Refusal> {
        let answer = match self {
            Self::New { default } => {
                let made = peer_rtt_tracker_alone::new(default);
                made_or_zero(made, PeerRttTracker::new(0.0), alone)
            }
            Self::Update { time, peer, sample } => taken(
                peer_rtt_tracker_alone::update(*alone, time, peer, sample),
                alone,
            ),
            Self::Calls(calls) => remade(alone.resumed(calls), alone),
            Self::Show { place } => return Ok(with_place(line, &alone.inner, place)),
        };
        let line = line.with(answer).with(*alone);
        Ok(line.with(digest(&alone.inner)))
    }
}

// A place, and the peer there or zeros.
fn with_place(line: Line, tracker: &PeerRttTracker, place: usize) -> Line {
    let line = line.with(place);
    if place < usize::from(tracker.peer_count()) {
        line.with(tracker.id_at(place))
            .with(tracker.estimator_at(place))
    } else {
        line.with_zeros(9)
    }
}

// Whether a peer is inflated, and how many they are.
impl Shown for PeerRttTracker {
    fn show(self, line: Line) -> Line {
        line.with(self.any_inflated()).with(self.peer_count())
    }
}

// The peers in the order they were entered.
pub(crate) fn digest(tracker: &PeerRttTracker) -> u64 {
    tracker
        .peers
        .iter()
        .take(tracker.peer_count().into())
        .fold(DIGEST_START, |d, peer| joined_peer(d, peer))
}

fn joined_peer(digest: u64, peer: &Peer) -> u64 {
    let estimator = peer.estimator;
    let last = estimator.last_sample();
    joined(
        digest,
        &[
            peer.id.into(),
            f32_to_bits_with_nan(estimator.rtt()).into(),
            f32_to_bits_with_nan(estimator.baseline()).into(),
            f32_to_bits_with_nan(estimator.variance()).into(),
            estimator.samples(),
            last.is_some().into(),
            last.unwrap_or(0),
        ],
    )
}
