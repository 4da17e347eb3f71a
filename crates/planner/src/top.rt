// The top island of a run: the rows that its members fill from the lowest up, and with them the total of the run.
// A run here has one island more than may stand in its gaps. Methods ask for a member of the island, with the rows below it filled; every
// caller within the crate shows it.
ghost use Rattle.std.specs.Prelude.{◌≡◌, suc, ◌+◌, ◌-◌, ◌*◌, ◌≤◌, ◌<◌, ◌^◌, length, get_or};
ghost use Rattle.model.specs.Limits.{most_islands};
ghost use Rattle.optimum.specs.Best.{itself};
ghost use Rattle.planner.specs.Square.{best_at, run_cost};
ghost use Rattle.planner.specs.Written.{Low};

use super::bests::Bests;
use super::rows::Rows;
use units::{Femtojoules, Kilohertz, Picowatts};

// By the first position of its run, the islands that may stand in its gaps, and what each kilohertz on it is charged: the rate of the run's
// last position, where its heaviest load stands.
#[derive(Clone, Copy)]
pub(crate) struct Top<'a> {
    pub(crate) bests: Bests<'a>,
    pub(crate) start: usize,
    pub(crate) inner: usize,
    pub(crate) rate: Femtojoules,
    ghost few: { inner < most_islands },
    ghost known: { inner ≤ bests.islands },
    ghost within: { start + suc inner * bests.positions.cores ≤ length bests.positions.loads.now },
    ghost charged: { rate.0 ≡ get_or bests.positions.rates.now (start + (inner * bests.positions.cores + (bests.positions.cores - 1))) 0 },
}

impl<'a> Bests<'a> {
    // The top island of a run of one island more than stand in its gaps.
    pub(crate) fn top(self, start: usize, inner: usize) -> Top<'a>
        requires few { inner < most_islands }
        requires known { inner ≤ self.islands }
        requires within { start + suc inner * self.positions.cores ≤ length self.positions.loads.now }
        ensures bests { result.bests ≡ self.entry }
        ensures start { result.start ≡ start }
        ensures inner { result.inner ≡ inner }
    {
        let cores = self.positions.cores;
        let last = start + (inner * cores + (cores - 1));
        Top {
            bests: self,
            start,
            inner,
            rate: self.positions.rate(last),
        }
    }
}

// What an island draws by itself: nothing where its heaviest load is 0.
#[tactic(auto, unfolding(optimum::specs::Best::itself))]
fn by_itself(own: Picowatts, top: Kilohertz) -> Picowatts
    ensures { result.0 ≡ itself own.0 top.0 }
{
    if top < Kilohertz(1) {
        return Picowatts(0);
    }
    own
}

// What a load is charged. One kilohertz at one femtojoule per cycle is one picowatt.
fn drawn(rate: Femtojoules, load: Kilohertz) -> Picowatts
    requires { rate.0 * load.0 < 2 ^ 64 }
    ensures { result.0 ≡ rate.0 * load.0 }
{
    Picowatts(rate.0 * load.0)
}

impl Top<'_> {
    ghost use Rattle.planner.specs.Members.{TopFilled};

    // What the member at a position is charged, with what the rest costs.
    fn with_member(&self, at: usize, rest: Picowatts) -> Picowatts
        requires within { at < length self.now.bests.positions.loads.now }
        requires sum_fits { self.now.rate.0 * get_or self.now.bests.positions.loads.now at 0 + rest.0 < 2 ^ 64 }
        ensures { result.0 ≡ self.now.rate.0 * get_or self.now.bests.positions.loads.now at 0 + rest.0 }
    {
        Picowatts(drawn(self.rate, self.bests.positions.load(at)).0 + rest.0)
    }

    // The row of the lowest member: what it is charged, and the best of the run below it.
    #[tactic(auto, using(crate::proofs::Figures::lowest_figure))]
    fn lowest_row(&self, rows: &mut Rows)
        ensures { TopFilled self.now rows.new 0 }
    {
        for n in 0..self.inner + 1 {
            let at = self.start + n * self.bests.positions.cores;
            let below = self.bests.at(self.start, n);
            rows.set(0, n, self.with_member(at, below));
        }
    }

    // The row of one member more, from those below it.
    #[tactic(auto, using(crate::proofs::Figures::next_figure, crate::proofs::TopFits::figure_fits, crate::proofs::TopFits::row_gaps_fit))]
    fn next_row(&self, rows: &mut Rows, r: usize)
        requires member { suc r < self.now.bests.positions.cores }
        requires filled { TopFilled self.now rows.old r }
        ensures { TopFilled self.now rows.new (suc r) }
    {
        for n in 0..self.inner + 1 {
            let at = self.start + (n * self.bests.positions.cores + (r + 1));
            let gap = self.bests.least_gap(rows, self.start, r, n);
            rows.set(r + 1, n, self.with_member(at, gap.cost));
        }
    }

    // The rows of all members.
    pub(crate) fn fill_rows(&self, rows: &mut Rows)
        ensures filled { TopFilled self.now rows.new (self.now.bests.positions.cores - 1) }
        ensures low { Low rows.new.figures (self.now.bests.positions.cores - 1) self.now.inner }
    {
        self.lowest_row(rows);
        for r in 0..self.bests.positions.cores - 1 {
            self.next_row(rows, r);
        }
    }

    // The total of the run.
    #[tactic(auto, using(crate::proofs::TopFits::cost_fits), unfolding(crate::specs::Square::run_cost, optimum::specs::Best::top_load, optimum::specs::Best::load_at))]
    pub(crate) fn run_cost(&self, rows: &mut Rows) -> Picowatts
        ensures { let p = self.now.bests.positions in result.0 ≡ run_cost p.cores p.own.0 p.loads.now p.rates.now (best_at p.cores self.now.bests.totals.now) self.now.start self.now.inner }
    {
        self.fill_rows(rows);
        let positions = self.bests.positions;
        let cores = positions.cores;
        let last = self.start + (self.inner * cores + (cores - 1));
        let itself = by_itself(positions.own, positions.load(last));
        let members = rows.at(cores - 1, self.inner);
        Picowatts(itself.0 + members.0)
    }
}
