// Congestion control: the score of the signals, the rate that it steers, the writers' shares of that rate, and the controller over them.
#![tactic(auto)]

pub mod budget_allocator;
pub mod budget_allocator_alone;
pub mod controller;
pub mod controller_alone;
pub mod metrics;
pub mod rate_controller;
pub mod rate_controller_alone;
pub mod scorer;
pub mod scorer_alone;
