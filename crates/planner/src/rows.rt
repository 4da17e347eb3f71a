// The rows of a run: for the lowest members of its top island, the least cost with each number of islands in the gaps below them.
// Methods ask for a figure that the rows have; every caller within the crate shows it.
ghost use Rattle.std.specs.Prelude.{◌≡◌, ◌<◌, ℕ};
ghost use Rattle.model.specs.Limits.{most_islands, most_cores};
ghost use Rattle.planner.specs.Rows.{row_at};

use board::Board;
use units::Picowatts;

// The islands of the largest board. A row of figures has one for each number of islands in the gaps: from 0, and fewer than all, because
// the top island stands in no gap.
pub(crate) const MOST_ISLANDS: usize = Board::ISLANDS as usize;

// Figures in picowatts, one row after another; row r is that of the lowest r + 1 members. One list and not a list of rows, because
// `row_at`, of which `gaps_fit` is said, is of one. Members and islands are what loops count: a type that holds the bounds of either would
// be made anew at every turn, so the methods ask for them.
#[derive(Drop)]
pub(crate) struct Rows {
    pub(crate) figures: [u64; Board::PLACES],
}

impl Rows {
    #[tactic(auto, unfolding(crate::specs::Rows::row_at))]
    pub(crate) fn at(&self, r: usize, n: usize) -> Picowatts
        requires few_members { r < most_cores }
        requires few_islands { n < most_islands }
        ensures { result.0 ≡ row_at self.now.figures r n }
    {
        Picowatts(self.figures[r * MOST_ISLANDS + n])
    }

    #[tactic(auto, unfolding(crate::specs::Rows::row_at))]
    pub(crate) fn set(&mut self, r: usize, n: usize, cost: Picowatts)
        requires few_members { r < most_cores }
        requires few_islands { n < most_islands }
        ensures stored { row_at self.new.figures r n ≡ cost.0 }
        ensures others_kept { (s k : ℕ) → k < most_islands → ¬ ((s ≡ r) × (k ≡ n)) → row_at self.new.figures s k ≡ row_at self.old.figures s k }
    {
        self.figures[r * MOST_ISLANDS + n] = cost.0;
    }
}
