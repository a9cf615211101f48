// The signals of congestion: marks of explicit congestion notification and round-trip times.
#![tactic(auto, unfolding(config::specs::Refusal::verdict_of, crate::specs::Ecn::recorded, crate::specs::Ecn::responded, crate::specs::Ecn::counted, crate::specs::Ecn::window_signals, crate::specs::Ecn::closed, crate::specs::Ecn::processed_tos, crate::specs::Ecn::processed_ce, crate::specs::EcnAlone::tos_alone, crate::specs::EcnAlone::ce_alone, crate::specs::RttEstimator::updated, crate::specs::RttEstimator::inflated, crate::specs::RttEstimator::full_for, crate::specs::RttEstimatorAlone::sample_out, crate::specs::RttEstimatorAlone::new_alone, crate::specs::RttEstimatorAlone::updated_alone, crate::specs::PeerRttTrackerAlone::new_tracker_alone, crate::specs::PeerRttTrackerAlone::tracker_updated_alone))]

pub mod ecn;
pub mod ecn_alone;
pub mod peer_rtt_tracker_alone;
pub mod rtt_estimator;
pub mod rtt_estimator_alone;
