// The plan writer: a run hands its gaps on, and each gap hands its run back.
// From the highest member down, each gap gets the fewest islands that attain the least total: so members are greatest at the first
// difference. Functions here ask for a plan as long as the positions, for a run within them, and for rows so low that every sum fits in
// 64 bits; every caller within the crate shows it.
ghost use Rattle.std.specs.Prelude.{◌≡◌, suc, ◌+◌, ◌*◌, ◌≤◌, ◌<◌, length};
ghost use Rattle.model.specs.Limits.{most_islands};
ghost use Rattle.planner.specs.Written.{Low, RunWritten, GapsWritten};

use super::bests::Bests;
use super::rows::Rows;
use board::Board;

// A run: its first position, its islands, and the number of the island before its lowest. Below a member, the runs in the gaps count
// as one: their islands are numbered from the lowest gap up.
#[derive(Clone, Copy)]
pub(crate) struct Run {
    pub(crate) start: usize,
    pub(crate) islands: usize,
    pub(crate) base: usize,
}

// The plan is lent apart from the bests, which are read while it is written; so its length stands in the clauses.
impl Bests<'_> {
    // Writes the island numbers of a run: its top island has the highest.
    #[tactic(auto, using(optimum::proofs::Recurrence::islands_parted, crate::proofs::Writing::none_written))]
    #[cycle(write_gaps_write_run)]
    pub(crate) fn write_run(&self, full: &mut [u8], run: Run)
        requires known { run.islands ≤ self.now.islands }
        requires numbered { run.base + run.islands ≤ most_islands }
        requires within { run.start + run.islands * self.now.positions.cores ≤ length self.now.positions.loads.now }
        requires as_long { length full.old ≡ length self.now.positions.loads.now }
        ensures { let p = self.now.positions in RunWritten p.cores p.loads.now p.rates.now self.now.totals.now full.old full.new run.start run.base run.islands }
    {
        let Run {
            start,
            islands,
            base,
        } = run;
        if islands < 1 {
            return;
        }
        let m = islands - 1;
        let mut rows = Rows {
            figures: [0u64; Board::PLACES],
        };
        self.top(start, m).fill_rows(&mut rows);
        let below = Run { islands: m, ..run };
        self.write_gaps(full, &rows, below, self.positions.cores - 1, base + islands);
    }

    // Writes the lowest r + 1 members of an island, and the runs in the gaps below them.
    #[tactic(auto, using(optimum::proofs::First::first_within, optimum::proofs::Recurrence::islands_parted, crate::proofs::TopFits::low_gaps_fit))]
    #[cycle(write_gaps_write_run)]
    fn write_gaps(&self, full: &mut [u8], rows: &Rows, below: Run, r: usize, top: usize)
        requires known { below.islands ≤ self.now.islands }
        requires numbered { below.base + below.islands < most_islands }
        requires top_number { top ≤ most_islands }
        requires member { r < self.now.positions.cores }
        requires low { Low rows.now.figures r below.islands }
        requires within { below.start + (below.islands * self.now.positions.cores + suc r) ≤ length self.now.positions.loads.now }
        requires as_long { length full.old ≡ length self.now.positions.loads.now }
        ensures { let p = self.now.positions in GapsWritten p.cores p.loads.now p.rates.now self.now.totals.now full.old full.new rows.now.figures top below.start below.base r below.islands }
    {
        let Run {
            start,
            islands: m,
            base,
        } = below;
        let cores = self.positions.cores;
        full[start + (m * cores + r)] = top as u8;
        if r < 1 {
            self.write_run(full, below);
            return;
        }
        let gap = self.least_gap(rows, start, r - 1, m);
        let left = m - gap.islands;
        let in_gap = Run {
            start: start + (left * cores + r),
            islands: gap.islands,
            base: base + left,
        };
        self.write_run(full, in_gap);
        let lower = Run {
            islands: left,
            ..below
        };
        self.write_gaps(full, rows, lower, r - 1, top);
    }
}
