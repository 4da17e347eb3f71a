// The search: the totals of all runs, from the shortest up, by the recurrence over those of shorter ones.
// Functions here ask for runs of no more islands than a board may have, and for a table that has low totals of shorter ones; every caller
// within the crate shows it.
ghost use Rattle.std.specs.Prelude.{◌≤◌, ◌<◌};
ghost use Rattle.model.specs.Limits.{most_islands};
ghost use Rattle.planner.specs.Square.{Grown, Found};
ghost use Rattle.planner.specs.Bounds.{Bounded};

use super::bests::{Bests, SQUARE, store};
use super::charged::Positions;
use super::rows::{MOST_ISLANDS, Rows};
use board::Board;

// All runs of m + 1 islands, added to a table that has the shorter ones.
#[tactic(auto, using(crate::proofs::Growing::growing_more))]
fn runs_of(totals: &mut [u64; SQUARE], positions: &Positions, rows: &mut Rows, m: usize)
    requires few { m < most_islands }
    requires bounded { let p = positions.now in Bounded p.cores p.loads.now totals.old m }
    ensures { let p = positions.now in Grown p.cores p.own.0 p.loads.now p.rates.now totals.old totals.new m }
{
    let cores = positions.cores;
    let size = (m + 1) * cores;
    // A difference that saturates needs no such test, and costs six instructions more in a hundred.
    if positions.loads.len() < size {
        return;
    }
    for start in 0..positions.loads.len() - size + 1 {
        let bests = Bests {
            positions: *positions,
            totals,
            islands: m,
        };
        let total = bests.top(start, m).run_cost(rows);
        store(totals, cores, start, m + 1, total);
    }
}

// The whole table, from the shortest runs up.
#[tactic(auto, using(crate::proofs::Growing::known_more))]
pub(crate) fn search(totals: &mut [u64; SQUARE], positions: &Positions, islands: usize)
    requires { islands ≤ most_islands }
    ensures found { let p = positions.now in Found p.cores p.own.0 p.loads.now p.rates.now totals.new islands }
    ensures bounded { let p = positions.now in Bounded p.cores p.loads.now totals.new islands }
{
    let mut rows = Rows {
        figures: [0u64; Board::PLACES],
    };
    for m in 0..islands {
        // m is below MOST_ISLANDS, so the remainder is m itself; it tells the compiler how short the rows are, which halves the search.
        runs_of(totals, positions, &mut rows, m % MOST_ISLANDS);
    }
}
