// The library for callers in C: the planner's function under its name there. A slice arrives as a pointer and a count, and a reference as a
// pointer, so lists stand beside one another here, and the answer is a number with the total beside it. Assumes nothing.
#![tactic(auto)]

ghost use Rattle.model.specs.Answer.{Answered};
ghost use Rattle.planner.specs.Given.{job_of};

// Plans a job, as `mizhgavul_plan` of the crate mizhgavul does: a crate for callers in C can't be one for Rattle's, so there are two.
#[unsafe(no_mangle)]
pub extern "C" fn mizhgavul_plan(
    islands: u64,
    cores: u64,
    island_power_uw: u32,
    frequencies_khz: &[u32],
    powers_uw: &[u32],
    loads_khz: &[u64],
    plan: &mut [u8],
    levels: &mut [u8],
    total_pw: &mut u64,
) -> u32
    ensures { Answered
        (job_of islands cores island_power_uw frequencies_khz.now powers_uw.now loads_khz.now)
        plan.old levels.old
        result total_pw.new
        plan.new levels.new }
{
    mizhgavul::mizhgavul_plan(
        islands,
        cores,
        island_power_uw,
        frequencies_khz,
        powers_uw,
        loads_khz,
        plan,
        levels,
        total_pw,
    )
}
