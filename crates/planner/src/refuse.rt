// Whether a job is refused, and by which cause: the nine are tried in their order. Nothing is asked and nothing is written here.
ghost use Rattle.std.specs.Prelude.{◌++◌, ◌≤◌, ◌↔◌, IsTrue};
ghost use Rattle.model.specs.Refusals.{Tried, last_of, conditions, number_of};
ghost use Rattle.model.specs.Refusals.{size_conditions, table_conditions, power_conditions, load_conditions, room_conditions};
ghost use Rattle.planner.specs.Given.{given};

use super::job::Job;
use board::Board;
use model::Refusal;
use units::Kilohertz;

// Whether the last load is within the last frequency; where a list is empty, 0 stands for its last entry.
fn slow_enough(frequencies: &[u32], loads: &[u64]) -> bool
    ensures { IsTrue result ↔ last_of loads.now ≤ last_of frequencies.now }
{
    let fastest = frequencies.last().copied().unwrap_or(0);
    let heaviest = loads.last().copied().unwrap_or(0);
    Kilohertz::from(fastest).carries(Kilohertz(heaviest))
}

// Causes 1 to 5: the board and the table.
fn judge_board(job: &Job<'_>) -> Result<(), Refusal>
    ensures { let j = given job.now in Tried
        (size_conditions j.islands j.cores ++ (table_conditions j.table ++ power_conditions j.island_power))
        (number_of result) }
{
    let board = Board::new(job.islands, job.cores, job.island_power)?;
    job.table.judge()?;
    if !board.power_allowed() {
        return Err(Refusal::IslandPower);
    }
    Ok(())
}

// Causes 6 to 8: the loads. A product of sizes that 64 bits do not hold is above every count.
fn judge_loads(job: &Job<'_>) -> Result<(), Refusal>
    ensures { Tried (load_conditions (given job.now)) (number_of result) }
{
    if job.islands.saturating_mul(job.cores) < job.loads.len() as u64 {
        return Err(Refusal::Count);
    }
    if !job.loads.is_sorted() {
        return Err(Refusal::Order);
    }
    if !slow_enough(job.table.frequencies, job.loads) {
        return Err(Refusal::Speed);
    }
    Ok(())
}

// Cause 9: the room in the two lent buffers, two numbers as `room_conditions` has them.
fn judge_room(job: &Job<'_>, plan_room: usize, level_room: usize) -> Result<(), Refusal>
    ensures { Tried (room_conditions (given job.now) plan_room level_room) (number_of result) }
{
    if plan_room < job.loads.len() || (level_room as u64) < job.islands {
        return Err(Refusal::Buffers);
    }
    Ok(())
}

// All nine, for a job and the lengths of the two lent buffers.
pub(crate) fn judge_job(job: &Job<'_>, plan_room: usize, level_room: usize) -> Result<(), Refusal>
    ensures { Tried (conditions (given job.now) plan_room level_room) (number_of result) }
{
    judge_board(job)?;
    judge_loads(job)?;
    judge_room(job, plan_room, level_room)
}
