// The job as the caller hands it over, and a job that nothing refuses. Assumes nothing.
ghost use Rattle.std.specs.Prelude.{◌≡◌, ◌+◌, ◌*◌, ◌≤◌, length};
ghost use Rattle.model.specs.Limits.{most_places};
ghost use Rattle.optimum.specs.Passed.{Passed};
ghost use Rattle.planner.specs.Given.{given};

use table::Table;
use units::Microwatts;

// What is to be planned: the sizes of the board, what an active island draws by itself, the levels, and the loads in kilohertz. Any
// numbers and lists.
#[derive(Clone, Copy)]
pub struct Job<'a> {
    pub islands: u64,
    pub cores: u64,
    pub island_power: Microwatts,
    pub table: Table<'a>,
    pub loads: &'a [u64],
}

// A job that nothing refuses.
#[derive(Clone, Copy)]
pub(crate) struct Sound<'a> {
    pub(crate) job: Job<'a>,
    ghost passed: { Passed (given job) },
}

// The sizes are counts where the planner reckons with them: two fields read as another width, each in a line.
impl Sound<'_> {
    pub(crate) fn islands(&self) -> usize
        ensures { result ≡ self.now.job.islands }
    {
        self.job.islands as usize
    }

    pub(crate) fn cores(&self) -> usize
        ensures { result ≡ self.now.job.cores }
    {
        self.job.cores as usize
    }

    // How many positions the board has.
    pub(crate) fn places(&self) -> usize
        ensures product { result ≡ self.now.job.islands * self.now.job.cores }
        ensures few { result ≤ most_places }
    {
        self.islands() * self.cores()
    }

    // How many positions stand in front of the first load.
    pub(crate) fn padding(&self) -> usize
        ensures { result + length self.now.job.loads.now ≡ self.now.job.islands * self.now.job.cores }
    {
        self.places() - self.job.loads.len()
    }
}
