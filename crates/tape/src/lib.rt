// The tape: calls on a station as words, what a run of them does, and the lines that it prints.
#![tactic(auto)]

pub mod item;
pub mod run;
pub mod text;
