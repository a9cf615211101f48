// Paced sending: the token bucket, and the writer pacer over its three queues.
#![tactic(auto, unfolding(config::specs::Refusal::verdict_of, queue::specs::Waiting::joined, queue::specs::Waiting::joins, queue::specs::Waiting::next_slot, queue::specs::Waiting::roomy, crate::specs::TokenBucket::credit, crate::specs::TokenBucket::wait_of, crate::specs::TokenBucket::refilled, crate::specs::TokenBucket::tried, crate::specs::TokenBucket::forced, crate::specs::TokenBucket::rated, crate::specs::TokenBucket::resized, crate::specs::TokenBucket::told, crate::specs::TokenBucketAlone::made_alone, crate::specs::TokenBucketAlone::refilled_alone, crate::specs::TokenBucketAlone::tried_alone, crate::specs::TokenBucketAlone::forced_alone, crate::specs::TokenBucketAlone::rated_alone, crate::specs::TokenBucketAlone::resized_alone, crate::specs::TokenBucketAlone::told_alone, crate::specs::WriterPacer::enqueue_p0, crate::specs::WriterPacer::enqueue_p1, crate::specs::WriterPacer::enqueue_p2, crate::specs::WriterPacer::enqueue, crate::specs::WriterPacer::hand_in_noted, crate::specs::WriterPacer::handed_in, crate::specs::WriterPacer::hand_in_stored, crate::specs::WriterPacer::gone, crate::specs::WriterPacer::attempt_p0, crate::specs::WriterPacer::paid, crate::specs::WriterPacer::waited, crate::specs::WriterPacer::limited, crate::specs::WriterPacer::attempt, crate::specs::WriterPacer::send_noted, crate::specs::WriterPacer::sent_from, crate::specs::WriterPacer::sent_if, crate::specs::WriterPacer::rate_set, crate::specs::WriterPacerAlone::made_alone, crate::specs::WriterPacerAlone::handed_alone, crate::specs::WriterPacerAlone::pool_handed, crate::specs::WriterPacerAlone::sent_alone, crate::specs::WriterPacerAlone::rated_alone))]

pub mod pacer_counts;
pub mod queues;
pub mod send_action;
pub mod token_bucket;
pub mod token_bucket_alone;
pub mod writer_pacer;
pub mod writer_pacer_alone;
