// The planner's entry: a job is judged first, then planned on the side, and the lent buffers are written when nothing can refuse any more.
// Arrays are as long as the largest board needs, and a part of each is used, because nothing here is allocated; the buffers stand beside
// one another, because C lends them so and `Answered` speaks of each. `plan` asks nothing; the functions before it ask for lists whose
// lengths go together and for parts of the plan, and every caller shows it.
ghost use Rattle.std.specs.Prelude.{◌≡◌, ◌++◌, ◌*◌, ◌≤◌, length, drop};
ghost use Rattle.model.specs.Limits.{most_islands, most_levels};
ghost use Rattle.model.specs.Plan.{Named, padded};
ghost use Rattle.model.specs.Power.{levels as level_bytes};
ghost use Rattle.model.specs.Refusals.{RoomEnough, number_of};
ghost use Rattle.model.specs.Answer.{total_of, Answered};
ghost use Rattle.planner.specs.Given.{given};
ghost use Rattle.planner.specs.Positions.{Looked, Below};
ghost use Rattle.planner.specs.Settled.{Solved, SettledJob, HandedBack};

use super::bests::{Bests, SQUARE};
use super::bytes::number_levels;
use super::charged::Positions;
use super::job::{Job, Sound};
use super::positions::{charge_all, look_up};
use super::refuse::judge_job;
use super::rows::MOST_ISLANDS;
use super::search::search;
use super::write::Run;
use board::Board;
use model::Refusal;
use units::Picowatts;

// The least total of the board, and its full plan.
fn solve(positions: &Positions, islands: usize, full: &mut [u8]) -> Picowatts
    requires few_islands { islands ≤ most_islands }
    requires whole_board { length positions.now.loads.now ≡ islands * positions.now.cores }
    requires as_long { length full.old ≡ length positions.now.loads.now }
    ensures { let p = positions.now in Solved p.cores p.own.0 p.loads.now p.rates.now islands result.0 full.new }
{
    let mut totals = [0u64; SQUARE];
    search(&mut totals, positions, islands);
    let bests = Bests {
        positions: *positions,
        totals: &totals,
        islands,
    };
    bests.write_run(
        full,
        Run {
            start: 0,
            islands,
            base: 0,
        },
    );
    bests.at(0, islands)
}

// The same for a job that nothing refuses, with the level of each position: the loads are looked up in the table and charged.
fn settle(sound: &Sound<'_>, loads: &[u64], steps: &mut [u8], full: &mut [u8]) -> Picowatts
    requires laid_out { loads.now ≡ padded (given sound.now.job) }
    requires step_a_position { length steps.old ≡ sound.now.job.islands * sound.now.job.cores }
    requires island_a_position { length full.old ≡ sound.now.job.islands * sound.now.job.cores }
    ensures { SettledJob (given sound.now.job) steps.new result.0 full.new }
{
    let places = sound.places();
    let mut rates = [0u64; Board::PLACES];
    look_up(sound, loads, steps);
    charge_all(sound, steps, &mut rates[..places]);
    let positions = Positions {
        cores: sound.cores(),
        own: Picowatts::from(sound.job.island_power),
        loads,
        rates: &rates[..places],
    };
    solve(&positions, sound.islands(), full)
}

// The same, with the loads of the job laid out behind the padding.
fn settle_job(sound: &Sound<'_>, steps: &mut [u8], full: &mut [u8]) -> Picowatts
    requires step_a_position { length steps.old ≡ sound.now.job.islands * sound.now.job.cores }
    requires island_a_position { length full.old ≡ sound.now.job.islands * sound.now.job.cores }
    ensures { SettledJob (given sound.now.job) steps.new result.0 full.new }
{
    let places = sound.places();
    let mut loads = [0u64; Board::PLACES];
    loads[sound.padding()..places].copy_from_slice(sound.job.loads);
    settle(sound, &loads[..places], steps, full)
}

// Writes both buffers, from the island and the level of each load.
fn hand_back(sound: &Sound<'_>, shown: &[u8], steps: &[u8], plan: &mut [u8], levels: &mut [u8])
    requires island_a_load { length shown.now ≡ length sound.now.job.loads.now }
    requires step_a_load { length steps.now ≡ length sound.now.job.loads.now }
    requires islands_in_range { Named 0 sound.now.job.islands shown.now }
    requires steps_in_range { Below most_levels steps.now }
    requires looked { Looked sound.now.job.table.frequencies.now sound.now.job.loads.now steps.now }
    requires room { RoomEnough (given sound.now.job) (length plan.old) (length levels.old) }
    ensures plan_written { plan.new ≡ shown.now ++ drop (length sound.now.job.loads.now) plan.old }
    ensures levels_written { levels.new ≡ level_bytes (given sound.now.job) shown.now ++ drop sound.now.job.islands levels.old }
{
    let islands = sound.islands();
    let mut numbers = [0u8; MOST_ISLANDS];
    number_levels(sound, shown, steps, &mut numbers[..islands]);
    plan[..shown.len()].copy_from_slice(shown);
    levels[..islands].copy_from_slice(&numbers[..islands]);
}

// Plans a job that nothing refuses, and writes both buffers.
fn planned(sound: &Sound<'_>, plan: &mut [u8], levels: &mut [u8]) -> Picowatts
    requires { RoomEnough (given sound.now.job) (length plan.old) (length levels.old) }
    ensures { HandedBack (given sound.now.job) plan.old levels.old result.0 plan.new levels.new }
{
    let places = sound.places();
    let front = sound.padding();
    let mut steps = [0u8; Board::PLACES];
    let mut full = [0u8; Board::PLACES];
    let total = settle_job(sound, &mut steps[..places], &mut full[..places]);
    hand_back(
        sound,
        &full[front..places],
        &steps[front..places],
        plan,
        levels,
    );
    total
}

// Plans a job: any numbers and lists, buffers of any length. The answer is the total, with one byte a load in `plan`, its island, and one
// byte an island in `levels`, its level; or it is the first cause that applies, and then neither buffer is changed.
pub fn plan(job: &Job<'_>, plan: &mut [u8], levels: &mut [u8]) -> Result<Picowatts, Refusal>
    ensures { Answered (given job.now) plan.old levels.old (number_of result) (total_of result) plan.new levels.new }
{
    judge_job(job, plan.len(), levels.len())?;
    let sound = Sound { job: *job };
    Ok(planned(&sound, plan, levels))
}
