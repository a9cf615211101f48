// A tracker of peers used alone.
ghost use Rattle.std.specs.Prelude.{◌≡◌};
ghost use Rattle.config.specs.Refusal.{verdict_of};
ghost use Rattle.signals.specs.PeerRttTrackerAlone.{new_tracker_alone, peer_checks, tracker_updated_alone};

use crate::rtt_estimator::{PeerRttTracker, check_sample, sample_out};
use config::alone::{Alone, Left};
use config::refusal::Refusal;

// A default outside the samples' range is refused: 4.
// Stays: [2] a check and a making, a line each; one for both modules would take the making as a closure, and each would still need its name.
pub fn new(default_ms: f32) -> Result<Alone<PeerRttTracker>, Refusal>
    ensures { result ≡ new_tracker_alone default_ms }
{
    Refusal::SampleBeyond.when(sample_out(default_ms))?;
    Ok(Alone::new(0, PeerRttTracker::new(default_ms)))
}

// One sample more for a peer: 4, 7, 17, 11 or 14.
// Stays: [5] the Rust's arguments of a sample and document 01's time; a struct of them would be made at each call and taken apart in it.
pub fn update(
    alone: Alone<PeerRttTracker>,
    time: u64,
    peer_id: u32,
    rtt_ms: f32,
) -> Left<Alone<PeerRttTracker>, ()>
    ensures { result ≡ tracker_updated_alone alone time peer_id rtt_ms }
{
    let ledger = alone.ledger.moved(time);
    alone.changed(
        check_peer(&alone, time, peer_id, rtt_ms),
        ledger,
        |tracker| {
            tracker.update(time, peer_id, rtt_ms);
        },
    )
}

// The checks of a peer's sample: those of a sample, and 14 where the peer is new and the table full.
fn check_peer(
    alone: &Alone<PeerRttTracker>,
    time: u64,
    peer_id: u32,
    rtt_ms: f32,
) -> Result<(), Refusal>
    ensures { result ≡ verdict_of (peer_checks alone.now time peer_id rtt_ms) }
{
    check_sample(alone.ledger, time, rtt_ms)?;
    Refusal::TableFull.when(alone.inner.is_full_for(peer_id))
}
