// The table of bests: a square by first and last position, where the best total of each run stands.
// A run begins at a position, counted from 0, and has whole islands; its last position holds the heaviest load of its top island. Functions
// here ask for a run within the largest board; every caller within the crate shows it.
ghost use Rattle.std.specs.Prelude.{◌≡◌, ℕ, ◌+◌, ◌*◌, ◌≤◌, ◌<◌};
ghost use Rattle.model.specs.Limits.{most_places};
ghost use Rattle.planner.specs.Square.{place, best_at};
ghost use Rattle.planner.specs.Bounds.{Bounded};

use super::charged::Positions;
use board::Board;
use units::Picowatts;

// The table has a place for every first and every last position.
pub(crate) const SQUARE: usize = Board::PLACES * Board::PLACES;

// The place of a run of some islands: by its first and its last position, in one list, because `best_at` of specs/Square, of which
// `run_most` and `gaps_fit` are said, is about one. A run is given here by its start and its islands, which loops count, and within the
// largest board: a value for it would be made anew at every turn.
#[tactic(auto, unfolding(crate::specs::Square::place))]
fn place(cores: usize, start: usize, islands: usize) -> usize
    requires some { 0 < islands * cores }
    requires within { start + islands * cores ≤ most_places }
    ensures { result ≡ place cores start islands }
{
    start * Board::PLACES + (start + islands * cores - 1)
}

// Stores the total of a run of some islands.
#[tactic(auto, using(crate::proofs::Square::place_within, crate::proofs::Square::best_stored, crate::proofs::Square::best_others))]
pub(crate) fn store(
    totals: &mut [u64; SQUARE],
    cores: usize,
    start: usize,
    islands: usize,
    total: Picowatts,
)
    requires some_core { 0 < cores }
    requires some_island { 0 < islands }
    requires within { start + islands * cores ≤ most_places }
    ensures stored { best_at cores totals.new start islands ≡ total.0 }
    ensures others_kept { (i g : ℕ) → i + g * cores ≤ most_places → ¬ ((i ≡ start) × (g ≡ islands)) → best_at cores totals.new i g ≡ best_at cores totals.old i g }
{
    totals[place(cores, start, islands)] = total.0;
}

// The positions, with a table that has picowatts for each of their runs of at most so many islands, so low that every sum fits. That these
// are the bests is what `search` says of its table.
#[derive(Clone, Copy)]
pub(crate) struct Bests<'a> {
    pub(crate) positions: Positions<'a>,
    pub(crate) totals: &'a [u64; SQUARE],
    pub(crate) islands: usize,
    ghost bounded: { Bounded positions.cores positions.loads.now totals.now islands },
}

impl Bests<'_> {
    // What the table has for a run. A run of no islands costs nothing and has no place.
    #[tactic(auto, using(crate::proofs::Square::place_within), unfolding(crate::specs::Square::best_at))]
    pub(crate) fn at(&self, start: usize, islands: usize) -> Picowatts
        requires { start + islands * self.now.positions.cores ≤ most_places }
        ensures { result.0 ≡ best_at self.now.positions.cores self.now.totals.now start islands }
    {
        if islands < 1 {
            return Picowatts(0);
        }
        Picowatts(self.totals[place(self.positions.cores, start, islands)])
    }
}
