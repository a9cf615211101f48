// Round-trip times: an average, its variance and the least sample, for one peer and for up to 64.
ghost use Rattle.std.specs.Prelude.{◌≡◌, ◌+◌, ◌<◌, ◌≤◌, ◌||◌, not};
ghost use Rattle.numeric.specs.Search.{first};
ghost use Rattle.config.specs.Refusal.{verdict_of};
ghost use Rattle.signals.specs.RttEstimator.{lesser_of, new_estimator, updated, inflated, rto_of, is_at, place_of, known_of, peers_of, new_tracker, tracker_updated, full_for, any_inflated, id_at, shown_at};
ghost use Rattle.signals.specs.RttEstimatorAlone.{sample_out, sample_checks};

use config::ledger::Ledger;
use config::refusal::Refusal;

// Peers that a tracker holds.
const MOST_PEERS: usize = 64;

// Milliseconds: the average, the least sample and the variance; how many samples came, and when the last did.
#[derive(Clone, Copy, Debug, PartialEq)]
pub struct RttEstimator {
    pub rtt_ms: f32,
    pub rtt_min_ms: f32,
    pub rtt_var_ms: f32,
    pub samples: u64,
    pub last_sample: Option<u64>,
}

// The lesser of a sample and the least so far, which a NaN does not replace (std's `min` differs at a NaN that stands).
fn lesser(sample_ms: f32, least: f32) -> f32
    ensures { result ≡ lesser_of sample_ms least }
{
    if sample_ms < least { sample_ms } else { least }
}

// The steps: total, with no refusals.
impl RttEstimator {
    pub fn new(default_ms: f32) -> RttEstimator
        ensures { result ≡ new_estimator default_ms }
    {
        RttEstimator {
            rtt_ms: default_ms,
            rtt_min_ms: default_ms,
            rtt_var_ms: 0.0,
            samples: 0,
            last_sample: None,
        }
    }

    // One sample more. The first is taken as it is; later ones move average and variance by one difference from the old average.
    pub fn update(self, time: u64, sample_ms: f32) -> RttEstimator
        ensures { result ≡ updated self time sample_ms }
    {
        if self.samples == 0 {
            return RttEstimator {
                rtt_ms: sample_ms,
                rtt_min_ms: sample_ms,
                rtt_var_ms: sample_ms / 2.0,
                samples: 1,
                last_sample: Some(time),
            };
        }
        let diff = sample_ms - self.rtt_ms;
        let rtt_ms = self.rtt_ms + 0.125 * diff;
        RttEstimator {
            rtt_ms,
            rtt_min_ms: lesser(sample_ms, self.rtt_min_ms),
            rtt_var_ms: self.rtt_var_ms + 0.25 * (numeric::float::abs_f32(diff) - self.rtt_var_ms),
            samples: self.samples.saturating_add(1),
            last_sample: Some(time),
        }
    }

    // The same on an estimator that is lent: what lies behind the reference is changed in place.
    pub fn update_in_place(&mut self, time: u64, sample_ms: f32)
        ensures { self.new ≡ updated self.old time sample_ms }
    {
        *self = self.update(time, sample_ms);
    }

    // Whether the average is above twice the least sample.
    pub fn is_inflated(self) -> bool
        ensures { result ≡ inflated self }
    {
        self.rtt_ms > self.rtt_min_ms * 2.0
    }

    // The retransmission timeout: the average and four times the variance, at least 1 ms.
    pub fn rto(self) -> f32
        ensures { result ≡ rto_of self }
    {
        numeric::float::max_f32(self.rtt_ms + 4.0 * self.rtt_var_ms, 1.0)
    }

    pub fn rtt(self) -> f32
        ensures { result ≡ self.rtt_ms }
    {
        self.rtt_ms
    }

    pub fn baseline(self) -> f32
        ensures { result ≡ self.rtt_min_ms }
    {
        self.rtt_min_ms
    }

    pub fn variance(self) -> f32
        ensures { result ≡ self.rtt_var_ms }
    {
        self.rtt_var_ms
    }

    pub fn samples(self) -> u64
        ensures { result ≡ self.samples }
    {
        self.samples
    }

    pub fn last_sample(self) -> Option<u64>
        ensures { result ≡ self.last_sample }
    {
        self.last_sample
    }
}

// A peer's id and its estimator.
#[derive(Clone, Copy, Debug, PartialEq)]
pub struct Peer {
    pub id: u32,
    pub estimator: RttEstimator,
}

// Up to 64 peers in the order they were entered.
// Stays: [6] an array and a count: both are public, contracts say what all 64 places hold, free ones too, and the library's vector of fixed room is not Copy.
#[derive(Clone, Copy, Debug, PartialEq)]
pub struct PeerRttTracker {
    pub peers: [Peer; 64],
    pub count: u16,
    pub default_ms: f32,
}

// How many places are taken: the count, held to the table's size.
// Stays: [2] a line over the size of its own table; the writers' is another's, and one for both would take the size along.
fn known(count: u16) -> usize
    ensures { result ≡ known_of count }
{
    usize::from(count).min(MOST_PEERS)
}

impl PeerRttTracker {
    pub fn new(default_ms: f32) -> PeerRttTracker
        ensures { result ≡ new_tracker default_ms }
    {
        let nobody = Peer {
            id: 0,
            estimator: RttEstimator::new(default_ms),
        };
        PeerRttTracker {
            peers: [nobody; 64],
            count: 0,
            default_ms,
        }
    }

    // One sample more for a peer, which is entered where it is new; whether there was room for it: a full table takes no new peer.
    #[tactic(auto, using(std::proofs::lemmas::Grind::common_steps), unfolding(crate::specs::RttEstimator::tracker_updated, crate::specs::RttEstimator::full_for))]
    pub fn update(&mut self, time: u64, peer_id: u32, rtt_ms: f32) -> bool
        ensures tracker_value { self.new ≡ tracker_updated self.old time peer_id rtt_ms }
        ensures room_value { result ≡ not (full_for self.old peer_id) }
    {
        let n = known(self.count);
        let at = self.place_of(peer_id);
        if at < n {
            self.peers[at].estimator.update_in_place(time, rtt_ms);
            return true;
        }
        if n >= MOST_PEERS {
            return false;
        }
        self.peers[n] = Peer {
            id: peer_id,
            estimator: RttEstimator::new(self.default_ms).update(time, rtt_ms),
        };
        self.count = n as u16 + 1;
        true
    }

    // The peers that were entered.
    fn entered(&self) -> &[Peer]
        ensures { result.now ≡ peers_of self.now }
    {
        &self.peers[..known(self.count)]
    }

    // Whether a peer stands in one of the four places from one on: all four are looked at, for one branch of a search.
    #[inline(always)]
    fn is_in_four(&self, place: usize, peer_id: u32) -> bool
        requires { place + 4 ≤ 64 }
        ensures { result ≡ (is_at self.now peer_id place || (is_at self.now peer_id (place + 1) || (is_at self.now peer_id (place + 2) || is_at self.now peer_id (place + 3)))) }
    {
        let peers = &self.peers;
        (peers[place].id == peer_id)
            | ((peers[place + 1].id == peer_id)
                | ((peers[place + 2].id == peer_id) | (peers[place + 3].id == peer_id)))
    }

    // How many of the first n places are passed over, by fours in which the peer does not stand.
    #[inline(always)]
    #[tactic(auto, using(crate::proofs::Searches::place_steps))]
    fn passed_over(&self, n: usize, peer_id: u32) -> usize
        requires { n ≤ 64 }
        ensures upper_bound { result ≤ n }
        ensures none { first (is_at self.now peer_id) result ≡ result }
    {
        let mut place: usize = 0;
        while place + 4 <= n && !self.is_in_four(place, peer_id) {
            place += 4;
        }
        place
    }

    // The place of a peer, or the number of places taken where it is not there.
    // Stays: [1] its definition (`place_of`), under theorems that pages name, gives the number of places taken where the peer is not there.
    #[tactic(auto, using(crate::proofs::Searches::place_steps), unfolding(crate::specs::RttEstimator::place_of))]
    fn place_of(&self, peer_id: u32) -> usize
        ensures { result ≡ place_of self.now peer_id }
    {
        let n = known(self.count);
        let mut place = self.passed_over(n, peer_id);
        while place < n && self.peers[place].id != peer_id {
            place += 1;
        }
        place
    }

    // Whether a peer is not there and there is no room for it.
    pub fn is_full_for(&self, peer_id: u32) -> bool
        ensures { result ≡ full_for self.now peer_id }
    {
        let n = known(self.count);
        n <= self.place_of(peer_id) && MOST_PEERS <= n
    }

    // Whether any peer's round-trip time is inflated.
    pub fn any_inflated(&self) -> bool
        ensures { result ≡ any_inflated self.now }
    {
        self.entered()
            .iter()
            .any(|peer| peer.estimator.is_inflated())
    }

    pub fn peer_count(&self) -> u16
        ensures { result ≡ self.now.count }
    {
        self.count
    }

    // The id of the peer at a place, 0 where none stands.
    pub fn id_at(&self, place: usize) -> u32
        ensures { result ≡ id_at self.now place }
    {
        if place < known(self.count) {
            self.peers[place].id
        } else {
            0
        }
    }

    // The estimator of the peer at a place, zero where none stands.
    pub fn estimator_at(&self, place: usize) -> RttEstimator
        ensures { result ≡ shown_at self.now place }
    {
        if place < known(self.count) {
            self.peers[place].estimator
        } else {
            RttEstimator::new(0.0)
        }
    }
}

// Whether a sample, or a default, lies outside 0 to 1,000,000 ms; a NaN does, and -0.0 does not.
pub(crate) fn sample_out(sample_ms: f32) -> bool
    ensures { result ≡ sample_out sample_ms }
{
    !(sample_ms >= 0.0 && sample_ms <= 1000000.0)
}

// The checks of a sample at a time: 4, 7, 17 and 11.
pub fn check_sample(ledger: Ledger, time: u64, sample_ms: f32) -> Result<(), Refusal>
    ensures { result ≡ verdict_of (sample_checks ledger time sample_ms) }
{
    Refusal::SampleBeyond.when(sample_out(sample_ms))?;
    ledger.check_timed(time)
}
