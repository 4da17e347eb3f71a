// The gap below a member: how many of the islands below stand in it.
// Methods ask for rows and bests so low that what any gap costs fits in 64 bits; every caller within the crate shows it.
ghost use Rattle.std.specs.Prelude.{◌≡◌, suc, ◌+◌, ◌*◌, ◌≤◌, ◌<◌, ◌^◌};
ghost use Rattle.model.specs.Limits.{most_islands, most_cores, most_places};
ghost use Rattle.optimum.specs.Best.{first, least};
ghost use Rattle.planner.specs.Bounds.{AllBelow};
ghost use Rattle.planner.specs.Members.{gap_costs};

use super::bests::Bests;
use super::rows::Rows;
use units::Picowatts;

// The islands in the gap, and what it costs with all below it.
#[derive(Clone, Copy)]
pub(crate) struct Gap {
    pub(crate) islands: usize,
    pub(crate) cost: Picowatts,
}

impl Bests<'_> {
    // What the gap below the highest of r + 2 members costs with all below it, if g of the m islands stand in the gap.
    #[tactic(auto, unfolding(optimum::specs::Best::gap_cost))]
    fn gap_cost(&self, rows: &Rows, start: usize, r: usize, m: usize, g: usize) -> Picowatts
        requires few_members { r < most_cores }
        requires few_islands { m < most_islands }
        requires gap_within { g ≤ m }
        requires run_within { start + (m * self.now.positions.cores + suc r) ≤ most_places }
        requires fits { gap_costs self.now rows.now start r m g < 2 ^ 64 }
        ensures { result.0 ≡ gap_costs self.now rows.now start r m g }
    {
        let left = m - g;
        let gap = self.at(start + (left * self.positions.cores + (r + 1)), g);
        let rest = rows.at(r, left);
        Picowatts(gap.0 + rest.0)
    }

    // The smallest gap that costs least.
    #[tactic(auto, using(crate::proofs::Figures::gap_new, crate::proofs::Figures::gap_kept), unfolding(optimum::specs::Best::first, optimum::specs::Best::least))]
    pub(crate) fn least_gap(&self, rows: &Rows, start: usize, r: usize, m: usize) -> Gap
        requires few_members { r < most_cores }
        requires few_islands { m < most_islands }
        requires run_within { start + (m * self.now.positions.cores + suc r) ≤ most_places }
        requires all_fit { AllBelow (2 ^ 64) m (gap_costs self.now rows.now start r m) }
        ensures smallest { result.islands ≡ first m (gap_costs self.now rows.now start r m) }
        ensures least { result.cost.0 ≡ least m (gap_costs self.now rows.now start r m) }
    {
        let mut least = Gap {
            islands: 0,
            cost: self.gap_cost(rows, start, r, m, 0),
        };
        // `1..=m` returns in two places, and every clause would be proved twice; `min_by_key` does not say which of equal costs it takes.
        for g in 1..m + 1 {
            let cost = self.gap_cost(rows, start, r, m, g);
            if cost < least.cost {
                least = Gap { islands: g, cost };
            }
        }
        least
    }
}
