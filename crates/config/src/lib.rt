// What every module needs: the settings and their checks, why a call is turned down, and a call's ledger.
#![tactic(auto, unfolding(crate::specs::Refusal::verdict_of))]

pub mod alone;
pub mod answer;
pub mod config;
pub mod ledger;
pub mod per_class;
pub mod refusal;
