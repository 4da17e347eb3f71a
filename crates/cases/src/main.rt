// Plans the fourteen board cases and writes `case,answer,picowatts`, then a line for each. What it writes is held to the file stdout
// beside src/.
#![tactic(auto)]

use board::Board;
use planner::job::Job;
use planner::plan::plan;
use std::io;
use table::Table;
use units::{Microwatts, Picowatts};

const T: Table<'static> = Table {
    frequencies: &[100000, 200000, 400000],
    powers: &[10000, 40000, 160000],
};

// Plans a job with buffers of its own, long enough for every board.
fn show(rt: &impl Print, case: u64, job: Job<'_>) -> io::Result<()> {
    let mut plan_bytes = [0u8; Board::PLACES];
    let mut level_bytes = [0u8; Board::PLACES];
    let (answer, total) = match plan(&job, &mut plan_bytes, &mut level_bytes) {
        Ok(total) => (0, total),
        Err(cause) => (u32::from(cause), Picowatts(0)),
    };
    println!(rt; "{case},{answer},{}", total.0)
}

// Cases with table T on two islands of two cores.
fn cases_1_to_8(rt: &impl Print) -> io::Result<()> {
    let four = Job {
        islands: 2,
        cores: 2,
        island_power: Microwatts(0),
        table: T,
        loads: &[50000, 100000, 200000, 400000],
    };
    show(rt, 1, four)?;
    show(
        rt,
        2,
        Job {
            island_power: Microwatts(20000),
            ..four
        },
    )?;
    let zeros = Job {
        loads: &[0, 0, 100000, 100000],
        ..four
    };
    show(rt, 3, zeros)?;
    show(
        rt,
        4,
        Job {
            island_power: Microwatts(1),
            ..zeros
        },
    )?;
    let two = Job {
        loads: &[100000, 400000],
        ..four
    };
    show(rt, 5, two)?;
    show(
        rt,
        6,
        Job {
            island_power: Microwatts(30000),
            ..two
        },
    )?;
    show(
        rt,
        7,
        Job {
            island_power: Microwatts(40000),
            ..two
        },
    )?;
    show(rt, 8, Job { loads: &[], ..four })
}

// One load, or three, on one island.
fn cases_9_to_12(rt: &impl Print) -> io::Result<()> {
    let one = Job {
        islands: 1,
        cores: 1,
        island_power: Microwatts(0),
        table: Table {
            frequencies: &[3000],
            powers: &[1],
        },
        loads: &[3000],
    };
    show(rt, 9, one)?;
    show(
        rt,
        10,
        Job {
            table: T,
            loads: &[400001],
            ..one
        },
    )?;
    let falling = Table {
        frequencies: &[100000, 200000],
        powers: &[10000, 19999],
    };
    show(
        rt,
        11,
        Job {
            table: falling,
            loads: &[100000],
            ..one
        },
    )?;
    show(
        rt,
        12,
        Job {
            cores: 2,
            table: T,
            loads: &[2, 1, 0],
            ..one
        },
    )
}

// Boards of the largest size, the last with a full one at its limits.
fn cases_13_and_14(rt: &impl Print) -> io::Result<()> {
    let eight = Job {
        islands: 8,
        cores: 8,
        island_power: Microwatts(0),
        table: Table {
            frequencies: &[354400, 1000000],
            powers: &[89025, 2000000],
        },
        loads: &[
            354400, 354400, 354400, 354400, 354400, 354400, 354400, 1000000,
        ],
    };
    show(rt, 13, eight)?;
    let full = Job {
        island_power: Microwatts(1000000000),
        table: Table {
            frequencies: &[4000000],
            powers: &[10000000],
        },
        loads: &[4000000; Board::PLACES],
        ..eight
    };
    show(rt, 14, full)
}

fn main(rt: HostRuntime) -> io::Result<()> {
    println!(rt; "case,answer,picowatts")?;
    cases_1_to_8(&rt)?;
    cases_9_to_12(&rt)?;
    cases_13_and_14(&rt)
}
