// A station: one controller and up to four writers with a pacer each.
#![tactic(auto, unfolding(config::specs::Refusal::verdict_of, control::specs::BudgetAllocator::budget_of, control::specs::Controller::tos_in, crate::specs::Station::is_here, crate::specs::Station::joined, crate::specs::Station::with_pacer, crate::specs::Station::left_by, crate::specs::Station::made_by, crate::specs::Station::made_station, crate::specs::Station::register_leaves, crate::specs::Station::registered_station, crate::specs::Station::eagain_station, crate::specs::Station::nacks_station, crate::specs::Station::tos_station, crate::specs::Station::rtt_station, crate::specs::Station::budgeted, crate::specs::Station::budgeted_all, crate::specs::Station::ticked_by, crate::specs::Station::ticked_station, crate::specs::Station::rated_station, crate::specs::Station::handed_station, crate::specs::Station::pool_by, crate::specs::Station::pool_handed, crate::specs::Station::sent_station))]

pub mod by_value;
pub mod roster;
pub mod station;
