// The level bytes: the level number of each island. The islands and the levels of the loads stand beside the loads, because each is a part
// of an array that is worked out for the whole board, and a list of records would only be taken apart again.
// `number_levels` asks for lists whose lengths go together, islands and levels of the job, and level numbers that are all 0; its caller
// shows it.
ghost use Rattle.std.specs.Prelude.{◌≡◌, ◌-◌, ◌<◌, length};
ghost use Rattle.model.specs.Limits.{most_levels};
ghost use Rattle.model.specs.Plan.{Named};
ghost use Rattle.model.specs.Power.{levels};
ghost use Rattle.planner.specs.Given.{given};
ghost use Rattle.planner.specs.Positions.{Looked, Below, Blank};

use super::job::Sound;

// The index of an island's level byte: islands are numbered from 1. A byte is no type of its own here, so this is no `From`.
fn index(island: u8) -> usize
    requires { 0 < island }
    ensures { result ≡ island - 1 }
{
    (island as usize) - 1
}

// The level number of each island. Loads come lightest first, so the last load above 0 on an island is its heaviest.
pub(crate) fn number_levels(sound: &Sound<'_>, plan: &[u8], steps: &[u8], numbers: &mut [u8])
    requires island_a_load { length plan.now ≡ length sound.now.job.loads.now }
    requires step_a_load { length steps.now ≡ length sound.now.job.loads.now }
    requires islands_in_range { Named 0 sound.now.job.islands plan.now }
    requires steps_in_range { Below most_levels steps.now }
    requires looked { Looked sound.now.job.table.frequencies.now sound.now.job.loads.now steps.now }
    requires number_an_island { length numbers.old ≡ sound.now.job.islands }
    requires all_zero { Blank numbers.old }
    ensures { numbers.new ≡ levels (given sound.now.job) plan.now }
{
    for (k, load) in sound.job.loads.iter().enumerate() {
        if 0 < *load {
            numbers[index(plan[k])] = steps[k] + 1;
        }
    }
}
