// Judges a row of level tables, good and damaged, and writes the answer to each as `table,answer`; then the level of some loads in
// table T as `load,level`, counted from 0, with 3 where no level is fast enough. What it writes is held to the file stdout beside
// src/. A name says what is wrong; `at` is the last value that passes, `past` the first that does not.
#![tactic(auto)]

use std::io;
use table::Table;
use units::Kilohertz;

const T: Table<'static> = Table {
    frequencies: &[100000, 200000, 400000],
    powers: &[10000, 40000, 160000],
};

// Takes two lists and not a table, so that each of the rows below is one line.
fn show(rt: &impl Print, name: &str, frequencies: &[u32], powers: &[u32]) -> io::Result<()> {
    let table = Table {
        frequencies,
        powers,
    };
    let number = match table.judge() {
        Ok(()) => 0,
        Err(cause) => u32::from(cause),
    };
    println!(rt; "{name},{number}")
}

// Number and equality of lengths.
fn shapes(rt: &impl Print) -> io::Result<()> {
    let one = [1000u32; 1];
    let other = [1000u32; 2];
    let many = [1000u32; 33];
    let powers = [1000u32; 33];
    show(rt, "empty", &one[0..0], &other[0..0])?;
    show(rt, "no frequencies", &one[0..0], &other[0..1])?;
    show(rt, "no powers", &one, &other[0..0])?;
    show(rt, "a power too many", &one, &other)?;
    show(rt, "a power too few", &other, &one)?;
    show(rt, "levels past", &many, &powers)?;
    show(rt, "levels at not rising", &many[0..32], &powers[0..32])
}

// As many levels as there may be, all of one slope.
fn longest(rt: &impl Print) -> io::Result<()> {
    let rising = [
        1000u32, 1001, 1002, 1003, 1004, 1005, 1006, 1007, 1008, 1009, 1010, 1011, 1012, 1013,
        1014, 1015, 1016, 1017, 1018, 1019, 1020, 1021, 1022, 1023, 1024, 1025, 1026, 1027, 1028,
        1029, 1030, 1031,
    ];
    show(rt, "levels at", &rising, &rising)
}

// Each end of each range, and values that 32 bits hold and the ranges do not.
fn ranges(rt: &impl Print) -> io::Result<()> {
    let ok = [2000u32];
    let zero = [0u32];
    let most = [4294967295u32];
    show(rt, "frequency at low", &[1000u32], &ok)?;
    show(rt, "frequency past low", &[999u32], &ok)?;
    show(rt, "frequency at high", &[4000000u32], &ok)?;
    show(rt, "frequency past high", &[4000001u32], &ok)?;
    show(rt, "frequency 0", &zero, &ok)?;
    show(rt, "frequency 2^32-1", &most, &ok)?;
    show(rt, "power at low", &ok, &[1u32])?;
    show(rt, "power 0", &ok, &zero)?;
    show(rt, "power at high", &ok, &[10000000u32])?;
    show(rt, "power past high", &ok, &[10000001u32])?;
    show(rt, "power 2^32-1", &ok, &most)?;
    show(rt, "all 2^32-1", &most, &most)
}

// Order of frequencies, and exact slopes.
fn slopes(rt: &impl Print) -> io::Result<()> {
    show(rt, "equal frequencies", &[1000u32, 1000], &[1u32, 1])?;
    show(rt, "falling frequencies", &[2000u32, 1000], &[1u32, 1])?;
    show(rt, "equal slopes", &[1000u32, 2000], &[1u32, 2])?;
    show(
        rt,
        "falling slope equal costs",
        &[1000000u32, 2000000],
        &[1u32, 1],
    )?;
    show(rt, "falls late", &[1000u32, 2000, 4000], &[1u32, 2, 3])?;
    show(rt, "3 before 4", &[1000u32, 2000, 4000], &[2u32, 1, 0])?;
    show(rt, "case 11", &[100000u32, 200000], &[10000u32, 19999])?;
    show(
        rt,
        "case 11 with 20000",
        &[100000u32, 200000],
        &[10000u32, 20000],
    )?;
    show(rt, "table T", T.frequencies, T.powers)?;
    show(
        rt,
        "widest products",
        &[3999999u32, 4000000],
        &[10000000u32, 10000000],
    )
}

fn show_level(rt: &impl Print, load: u64) -> io::Result<()> {
    println!(rt; "{load},{}", T.level(Kilohertz(load)))
}

// A load between two levels, at one and past one; and one whose lower 32 bits would fit.
fn levels(rt: &impl Print) -> io::Result<()> {
    show_level(rt, 0)?;
    show_level(rt, 1)?;
    show_level(rt, 100000)?;
    show_level(rt, 100001)?;
    show_level(rt, 400000)?;
    show_level(rt, 400001)?;
    show_level(rt, 4295067296)?;
    show_level(rt, 18446744073709551615)
}

fn main(rt: HostRuntime) -> io::Result<()> {
    println!(rt; "table,answer")?;
    shapes(&rt)?;
    longest(&rt)?;
    ranges(&rt)?;
    slopes(&rt)?;
    println!(rt; "load,level")?;
    levels(&rt)
}
