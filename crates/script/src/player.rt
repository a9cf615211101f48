// The modules that a script plays on, and the operations by suite.
use crate::allocator_ops::AllocatorOperation;
use crate::bucket_ops::BucketOperation;
use crate::coalescing_ops::CoalescingOperation;
use crate::config_ops::ConfigOperation;
use crate::controller_ops::ControllerOperation;
use crate::desk::Desk;
use crate::ecn_ops::EcnOperation;
use crate::line::Line;
use crate::numeric_ops::NumericOperation;
use crate::operation::played;
use crate::pacer_ops::PacerOperation;
use crate::peers_ops::PeersOperation;
use crate::queue_ops::QueueOperation;
use crate::rate_ops::RateOperation;
use crate::rtt_ops::RttOperation;
use crate::scorer_ops::ScorerOperation;
use crate::station_ops::{FullStation, StationOperation};
use crate::words::{RECORD_BYTES, Record, Unknown};
use crate::{
    allocator_ops, controller_ops, pacer_ops, queue_ops, rate_ops, scorer_ops, station_ops,
};
use config::alone::Alone;
use config::refusal::Refusal;
use control::budget_allocator_alone::ConfiguredAllocator;
use control::controller_alone::ConfiguredCongestion;
use control::rate_controller_alone::ConfiguredController;
use control::scorer_alone::ConfiguredScorer;
use pacing::token_bucket::TokenBucket;
use pacing::writer_pacer_alone::ConfiguredPacer;
use queue::coalescing::CoalescingQueue;
use signals::ecn::EcnProcessor;
use signals::rtt_estimator::{PeerRttTracker, RttEstimator};
use std::io;
use std::io::Write;

// What a record's operation plays on.
#[derive(Clone, Copy)]
enum Suite {
    Numeric,
    Config,
    Ecn,
    Rtt,
    Peers,
    Bucket,
    Coalescing,
    Queue,
    Pacer,
    Rate,
    Scorer,
    Allocator,
    Controller,
    Station,
}

// A suite's number is that of its operations over 16.
impl TryFrom<Record> for Suite {
    type Error = Unknown;

    fn try_from(r: Record) -> Result<Suite, Unknown> {
        Ok(match r.operation / 16 {
            1 => Suite::Numeric,
            2 => Suite::Config,
            3 => Suite::Ecn,
            4 => Suite::Rtt,
            5 => Suite::Peers,
            6 => Suite::Bucket,
            7 => Suite::Coalescing,
            8 => Suite::Queue,
            9 => Suite::Pacer,
            10 => Suite::Rate,
            11 => Suite::Scorer,
            12 => Suite::Allocator,
            13 => Suite::Controller,
            14 => Suite::Station,
            _ => return Err(Unknown),
        })
    }
}

#[derive(Drop)]
pub(crate) struct Modules {
    ecn: Alone<EcnProcessor>,
    rtt: Alone<RttEstimator>,
    peers: Alone<PeerRttTracker>,
    bucket: Alone<TokenBucket>,
    queue: Alone<CoalescingQueue<128>>,
    pacer: Alone<ConfiguredPacer>,
    rate: Alone<ConfiguredController>,
    scorer: Alone<ConfiguredScorer>,
    allocator: Alone<ConfiguredAllocator>,
    controller: Alone<ConfiguredCongestion>,
    station: FullStation,
}

impl Modules {
    // Before the first record.
    pub(crate) fn new() -> Result<Modules, Refusal> {
        Ok(Modules {
            ecn: Alone::new(0, EcnProcessor::default()),
            rtt: Alone::new(0, RttEstimator::new(100.0)),
            peers: Alone::new(0, PeerRttTracker::new(100.0)),
            bucket: Alone::new(0, TokenBucket::new(0, 1, 0)),
            queue: queue_ops::first()?,
            pacer: pacer_ops::first()?,
            rate: rate_ops::first()?,
            scorer: scorer_ops::first()?,
            allocator: allocator_ops::first()?,
            controller: controller_ops::first()?,
            station: station_ops::first()?,
        })
    }

    // Plays the whole records of a batch, and writes their lines.
    pub(crate) fn play_batch(
        &mut self,
        desk: &mut Desk,
        batch: &[u8],
        lines: &mut impl Write,
    ) -> io::Result<()> {
        for bytes in batch.chunks(RECORD_BYTES) {
            if let Some(record) = Record::read(bytes) {
                let line = self.play(desk, record);
                writeln!(lines, "{line}")?;
            }
        }
        Ok(())
    }

    // Plays a record. An unknown operation is answered by its number alone.
    fn play(&mut self, desk: &mut Desk, record: Record) -> Line {
        self.play_known(desk, record).unwrap_or(record.into())
    }

    fn play_known(&mut self, desk: &mut Desk, r: Record) -> Result<Line, Unknown> {
        // Stays: [2] an arm names a suite's type and its state; a table of suites would hold a closure for each with the same words.
        match Suite::try_from(r)? {
            Suite::Numeric => played::<NumericOperation>(&mut (), desk, r),
            Suite::Config => played::<ConfigOperation>(&mut (), desk, r),
            Suite::Ecn => played::<EcnOperation>(&mut self.ecn, desk, r),
            Suite::Rtt => played::<RttOperation>(&mut self.rtt, desk, r),
            Suite::Peers => played::<PeersOperation>(&mut self.peers, desk, r),
            Suite::Bucket => played::<BucketOperation>(&mut self.bucket, desk, r),
            Suite::Coalescing => played::<CoalescingOperation>(&mut (), desk, r),
            Suite::Queue => played::<QueueOperation>(&mut self.queue, desk, r),
            Suite::Pacer => played::<PacerOperation>(&mut self.pacer, desk, r),
            Suite::Rate => played::<RateOperation>(&mut self.rate, desk, r),
            Suite::Scorer => played::<ScorerOperation>(&mut self.scorer, desk, r),
            Suite::Allocator => played::<AllocatorOperation>(&mut self.allocator, desk, r),
            Suite::Controller => played::<ControllerOperation>(&mut self.controller, desk, r),
            Suite::Station => played::<StationOperation>(&mut self.station, desk, r),
        }
    }
}
