// The positions of a board: at each a load, and what an island is charged whose heaviest load that is. Islands are of one size, and there
// are so few positions and so low loads and charges that every sum of the search fits in 64 bits. Methods ask for one of the positions;
// every caller within the crate shows it.
ghost use Rattle.std.specs.Prelude.{◌≡◌, ◌≤◌, ◌<◌, length, get_or};
ghost use Rattle.model.specs.Limits.{most_cores, most_places};
ghost use Rattle.planner.specs.Bounds.{most_own, Light, Cheap};

use units::{Femtojoules, Kilohertz, Picowatts};

// The lists hold bare numbers, kilohertz and femtojoules per cycle, and each is given its unit where it is read.
#[derive(Clone, Copy)]
pub(crate) struct Positions<'a> {
    pub(crate) cores: usize,
    pub(crate) own: Picowatts,
    pub(crate) loads: &'a [u64],
    pub(crate) rates: &'a [u64],
    ghost some_core: { 0 < cores },
    ghost few_cores: { cores ≤ most_cores },
    ghost few_places: { length loads.now ≤ most_places },
    ghost light: { Light loads.now },
    ghost cheap: { Cheap loads.now rates.now },
    ghost own_low: { own.0 ≤ most_own },
}

// A position is what loops count, so each method asks that it is one: a type for it would be made anew at every turn. Two lists of two
// units have a method each, of one line.
impl Positions<'_> {
    pub(crate) fn load(&self, at: usize) -> Kilohertz
        requires { at < length self.now.loads.now }
        ensures { result.0 ≡ get_or self.now.loads.now at 0 }
    {
        Kilohertz(self.loads[at])
    }

    // What an island is charged whose heaviest load stands there.
    pub(crate) fn rate(&self, at: usize) -> Femtojoules
        requires { at < length self.now.loads.now }
        ensures { result.0 ≡ get_or self.now.rates.now at 0 }
    {
        Femtojoules(self.rates[at])
    }
}
