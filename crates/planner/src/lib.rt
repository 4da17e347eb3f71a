// The planner: one job in, one plan out. Assumes nothing.
#![tactic(auto)]

mod bests;
mod bytes;
mod charged;
mod gap;
pub mod job;
pub mod plan;
mod positions;
mod refuse;
mod rows;
mod search;
mod top;
mod write;
