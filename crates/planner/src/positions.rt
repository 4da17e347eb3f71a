// The positions of a board: the level of each, and what an island is charged whose heaviest load stands there. `steps` are levels counted
// from 0. Loads, levels and charges are lists beside one another and not one of records, because the loads are lent as numbers and the
// levels handed on as bytes: records would be made of the one and taken apart for the other. Functions here ask for lists whose lengths go
// together and for levels of the table; every caller within the crate shows it.
ghost use Rattle.std.specs.Prelude.{◌≡◌, ◌*◌, ◌<◌, ◌^◌, length};
ghost use Rattle.model.specs.Limits.{million};
ghost use Rattle.model.specs.Level.{rounded_up, cost};
ghost use Rattle.planner.specs.Given.{given};
ghost use Rattle.planner.specs.Positions.{Looked, Costed, Below};

use super::job::Sound;
use table::Table;
use units::{Femtojoules, Kilohertz, Microwatts, Picowatts};

// The level of each position, counted from 0.
#[tactic(auto, using(crate::proofs::Charges::lowest_most))]
pub(crate) fn look_up(sound: &Sound<'_>, positions: &[u64], steps: &mut [u8])
    requires { length steps.old ≡ length positions.now }
    ensures { Looked sound.now.job.table.frequencies.now positions.now steps.new }
{
    for (k, step) in steps.iter_mut().enumerate() {
        *step = sound.job.table.level(Kilohertz(positions[k])) as u8;
    }
}

// The cost of a level: the power over the frequency in femtojoules per cycle, rounded up.
#[tactic(auto, unfolding(model::specs::Level::rounded_up))]
fn cost(frequency: Kilohertz, power: Microwatts) -> Femtojoules
    requires { (0 < frequency.0) × (frequency.0 < 2 ^ 32) }
    ensures { result.0 ≡ rounded_up (power.0 * million) frequency.0 }
{
    let f = frequency.0;
    let picowatts = Picowatts::from(power).0;
    Femtojoules((picowatts + (f - 1)) / f)
}

// The cost of a level, by its number.
#[tactic(auto, unfolding(model::specs::Level::cost))]
fn cost_at(sound: &Sound<'_>, step: u8) -> Femtojoules
    requires { step < length sound.now.job.table.frequencies.now }
    ensures { result.0 ≡ cost (given sound.now.job).table step }
{
    let Table {
        frequencies,
        powers,
    } = sound.job.table;
    let k = step as usize;
    cost(Kilohertz::from(frequencies[k]), Microwatts(powers[k]))
}

// The cost of each position's level.
pub(crate) fn charge_all(sound: &Sound<'_>, steps: &[u8], rates: &mut [u64])
    requires steps_in_table { Below (length sound.now.job.table.frequencies.now) steps.now }
    requires rate_a_step { length rates.old ≡ length steps.now }
    ensures { Costed (given sound.now.job).table steps.now rates.new }
{
    for (k, rate) in rates.iter_mut().enumerate() {
        *rate = cost_at(sound, steps[k]).0;
    }
}
