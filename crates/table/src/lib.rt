// The level table: whether it is refused, and which level a load gets. The two lists are lent as the caller has them; a value is wrapped in
// its unit where it is multiplied or handed on, and range and order are tested on the bare numbers. `judge` and `level` ask nothing; of
// what they call, the slope test asks for lists of one length and for frequencies of 32 bits.
#![tactic(auto)]

ghost use Rattle.std.specs.Prelude.{◌≡◌, ◌↔◌, ◌*◌, ◌<◌, ◌^◌, IsTrue, ltb, length};
ghost use Rattle.model.specs.Table.{WellShaped, Between, Rising, WellRanged, NotFalling};
ghost use Rattle.model.specs.Level.{lowest};
ghost use Rattle.table.specs.Judged.{TableAnswer, table_of};

use model::Refusal;
use units::{Kilohertz, Microwatts};

const MOST_LEVELS: usize = 32;

const LEAST_FREQUENCY: u32 = 1000;

const MOST_FREQUENCY: u32 = 4000000;

const LEAST_POWER: u32 = 1;

const MOST_POWER: u32 = 10000000;

// A level table as the caller has it: a frequency in kilohertz and a power in microwatts for each level, or any other two lists.
#[derive(Clone, Copy)]
pub struct Table<'a> {
    pub frequencies: &'a [u32],
    pub powers: &'a [u32],
}

// Whether every value is at least low and at most high.
fn between(values: &[u32], low: u32, high: u32) -> bool
    ensures { IsTrue result ↔ Between low high values.now }
{
    values.iter().all(|value| (low..=high).contains(value))
}

// Whether every value is above the one before it.
fn rising(values: &[u32]) -> bool
    ensures { IsTrue result ↔ Rising values.now }
{
    values
        .array_windows::<2>()
        .all(|[value, next]| value < next)
}

// Whether power over frequency falls from one level to the next. Each side is multiplied by both frequencies, so nothing is rounded.
fn falls(
    frequency: Kilohertz,
    power: Microwatts,
    next_frequency: Kilohertz,
    next_power: Microwatts,
) -> bool
    requires { (frequency.0 < 2 ^ 32) × (next_frequency.0 < 2 ^ 32) }
    ensures { result ≡ ltb (next_power.0 * frequency.0) (power.0 * next_frequency.0) }
{
    (next_power.0 as u64) * frequency.0 < (power.0 as u64) * next_frequency.0
}

impl Table<'_> {
    // Whether there are some levels, not too many, and as many powers as frequencies.
    fn well_shaped(&self) -> bool
        ensures { IsTrue result ↔ WellShaped (table_of self.now.frequencies.now self.now.powers.now) }
    {
        (1..=MOST_LEVELS).contains(&self.frequencies.len())
            && self.powers.len() == self.frequencies.len()
    }

    // Whether all frequencies and powers are in range and the frequencies rise.
    fn well_ranged(&self) -> bool
        ensures { IsTrue result ↔ WellRanged (table_of self.now.frequencies.now self.now.powers.now) }
    {
        between(self.frequencies, LEAST_FREQUENCY, MOST_FREQUENCY)
            && between(self.powers, LEAST_POWER, MOST_POWER)
            && rising(self.frequencies)
    }

    // Whether power over frequency falls nowhere in the table.
    fn not_falling(&self) -> bool
        requires { length self.now.powers.now ≡ length self.now.frequencies.now }
        ensures { IsTrue result ↔ NotFalling (table_of self.now.frequencies.now self.now.powers.now) }
    {
        self.frequencies
            .array_windows::<2>()
            .zip(self.powers.array_windows::<2>())
            .all(|([frequency, next_frequency], [power, next_power])| {
                !falls(
                    Kilohertz::from(*frequency),
                    Microwatts(*power),
                    Kilohertz::from(*next_frequency),
                    Microwatts(*next_power),
                )
            })
    }

    // Whether the table is sound; if not, the first of the causes 2, 3 and 4 that applies.
    pub fn judge(&self) -> Result<(), Refusal>
        ensures { TableAnswer (table_of self.now.frequencies.now self.now.powers.now) result }
    {
        if !self.well_shaped() {
            return Err(Refusal::Levels);
        }
        if !self.well_ranged() {
            return Err(Refusal::Ranges);
        }
        if !self.not_falling() {
            return Err(Refusal::Slopes);
        }
        Ok(())
    }

    // The lowest level whose frequency is at least the load, counted from 0, or the number of levels where there is none: no Option, because
    // this number is the model's `lowest`, and a load has it before it is known whether it is refused.
    pub fn level(&self, load: Kilohertz) -> usize
        ensures { result ≡ lowest self.now.frequencies.now load.0 }
    {
        self.frequencies
            .iter()
            .position(|frequency| Kilohertz::from(*frequency).carries(load))
            .unwrap_or(self.frequencies.len())
    }
}
