// The four quantities of a job as types of their own, so that a frequency or a load can't stand where a power or a cost is
// expected, and the conversions between them that no input breaks. They are four tuple structs, the form that 01 has for this place, and
// not one with the unit as a parameter. Sums and products of them are the planner's: they may overflow, and what is public asks nothing
// of its caller, so no operator stands here. Assumes nothing.
#![tactic(auto)]

ghost use Rattle.std.specs.Prelude.{◌≡◌, ◌*◌, leb};

// A frequency or a load: kilocycles per second. 64 bits wide, because loads arrive so; a frequency is widened, a load never cut.
#[derive(Clone, Copy, PartialEq, Eq, PartialOrd, Ord)]
pub struct Kilohertz(pub u64);

// A power as the caller gives it: of one core at a level, or of an active island by itself.
#[derive(Clone, Copy, PartialEq, Eq, PartialOrd, Ord)]
pub struct Microwatts(pub u32);

// The cost of a level: femtojoules per cycle.
#[derive(Clone, Copy, PartialEq, Eq, PartialOrd, Ord)]
pub struct Femtojoules(pub u64);

// A power as the planner reports it. One kilohertz at one femtojoule per cycle is one picowatt.
#[derive(Clone, Copy, PartialEq, Eq, PartialOrd, Ord)]
pub struct Picowatts(pub u64);

// A frequency of the level table.
impl From<u32> for Kilohertz {
    ghost from_gives = { λ frequency r. r.0 ≡ frequency };

    fn from(frequency: u32) -> Self {
        Kilohertz(frequency as u64)
    }
}

impl Kilohertz {
    // Whether a level of this frequency is fast enough for a load.
    pub fn carries(self, load: Kilohertz) -> bool
        ensures { result ≡ leb load.0 self.0 }
    {
        load <= self
    }
}

// One microwatt is 1000000 picowatts; from 32 bits the product always fits.
impl From<Microwatts> for Picowatts {
    ghost from_gives = { λ power r. r.0 ≡ power.0 * 1000000 };

    fn from(power: Microwatts) -> Self {
        Picowatts((power.0 as u64) * 1000000)
    }
}
