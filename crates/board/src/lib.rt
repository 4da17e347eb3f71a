// The board: how many islands, how many cores on each, and what an active island draws by itself. Its limits are named here, once.
// Assumes nothing.
#![tactic(auto)]

ghost use Rattle.std.specs.Prelude.{◌≡◌, leb};
ghost use Rattle.model.specs.Limits.{most_island_power};
ghost use Rattle.board.specs.NewBoard.{BoardAnswer, LimitsAgree};

use model::Refusal;
use units::Microwatts;

#[derive(Clone, Copy)]
pub struct Board {
    pub islands: u64,
    pub cores: u64,
    pub power: Microwatts,
}

impl Board {
    pub const ISLANDS: u64 = 8;

    pub const CORES: u64 = 8;

    pub const PLACES: usize = 64;

    pub const ISLAND_POWER: u32 = 1000000000;

    // A board of any two sizes: refused by 1 where one of them is 0 or above its limit. The island power is taken as it comes,
    // because the table is tried before it.
    pub fn new(islands: u64, cores: u64, power: Microwatts) -> Result<Self, Refusal>
        ensures answer { BoardAnswer islands cores power result }
        ensures limits { LimitsAgree Board.ISLANDS Board.CORES Board.PLACES Board.ISLAND_POWER }
    {
        if !(1..=Board::ISLANDS).contains(&islands) || !(1..=Board::CORES).contains(&cores) {
            return Err(Refusal::Sizes);
        }
        Ok(Board {
            islands,
            cores,
            power,
        })
    }

    // Whether the island power is within its limit: a job is refused by 5 where it is not.
    pub fn power_allowed(self) -> bool
        ensures { result ≡ leb self.power.0 most_island_power }
    {
        self.power <= Microwatts(Board::ISLAND_POWER)
    }
}
