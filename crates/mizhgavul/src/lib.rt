// The planner over bare numbers, as callers in C hand them over: one function, which the crate mizhgavul_c exports and
// include/mizhgavul.h declares. Lists come beside one another, and the answer leaves as a number, the total through a reference, because C
// has them so. Assumes nothing.
#![tactic(auto)]

ghost use Rattle.model.specs.Answer.{Answered};
ghost use Rattle.planner.specs.Given.{job_of};

use planner::job::Job;
use table::Table;
use units::Microwatts;

// Plans a job: the planner's own answer, 0 or the number of the first cause that applies, with the total in `total_pw`.
pub fn mizhgavul_plan(
    islands: u64,
    cores: u64,
    island_power_uw: u32,
    frequencies_khz: &[u32],
    powers_uw: &[u32],
    loads_khz: &[u64],
    plan: &mut [u8],
    levels: &mut [u8],
    total_pw: &mut u64,
) -> u32
    ensures { Answered (job_of islands cores island_power_uw frequencies_khz.now powers_uw.now loads_khz.now) plan.old levels.old result total_pw.new plan.new levels.new }
{
    let job = Job {
        islands,
        cores,
        island_power: Microwatts(island_power_uw),
        table: Table {
            frequencies: frequencies_khz,
            powers: powers_uw,
        },
        loads: loads_khz,
    };
    match planner::plan::plan(&job, plan, levels) {
        Ok(total) => {
            *total_pw = total.0;
            0
        }
        Err(cause) => {
            *total_pw = 0;
            u32::from(cause)
        }
    }
}
