// Says whether the plan file on descriptor 3 is a plan for the map file on standard input, in a line on standard output. No more
// than 4,096 bytes are read of either file. A longer one is never accepted: a map file has at most 2,046 bytes and a plan file at
// most 2,707, so the first byte after its last part is among those that are read.
#![tactic(auto)]

use array::{Refusal, Verdict};
use console::Console;
use readers::Head;
use std::io::Result;

// The descriptors of the map file, which is standard input, and of the plan file.
const STDIN_FILENO: i32 = 0;

const PLAN_FILENO: i32 = 3;

// Prints the number and the place of a refused file of this kind.
fn print_refusal(rt: &impl Print, kind: &str, r: Refusal) -> Result<()> {
    println!(rt; "{kind} refused {} {}", r.number(), r.place)
}

// Compares a plan that was read with a map that was read: first their sizes, then by the plan check. Of a plan it prints the sizes, the
// number of paths and the trials on record, of a refusal the number and both places.
fn compare(
    rt: &impl Print,
    map: Head,
    grid: &[u8],
    plan: Head,
    directions: &[u8],
    trials: u32,
) -> Result<()> {
    if map.rows != plan.rows || map.columns != plan.columns {
        return println!(rt;
            "sizes {} {} {} {}",
            map.rows, map.columns, plan.rows, plan.columns
        );
    }
    match plans::check_plan(map.rows, map.columns, grid, directions) {
        Ok(()) => println!(rt;
            "plan {} {} {} {trials}",
            plan.rows, plan.columns, plan.count
        ),
        Err(r) => println!(rt; "no plan {} {} {}", r.number(), r.place, r.second),
    }
}

// Reads the plan file and compares it with a map that was read.
fn check_file(rt: &impl Print, map: Head, grid: &[u8], s: &[u8]) -> Result<()> {
    let mut directions = [0u8; 1024];
    match readers::read_plan(s, &mut directions) {
        Ok((plan, trials)) => compare(rt, map, grid, plan, &directions, trials),
        Err(r) => print_refusal(rt, "plan", r),
    }
}

fn main() {
    let mut map_file = io::buffer();
    let n = io::read_full(STDIN_FILENO, &mut map_file);
    let mut plan_file = io::buffer();
    let k = io::read_full(PLAN_FILENO, &mut plan_file);
    let mut grid = [2u8; 1024];
    // What cannot be written is lost: the status stays 0.
    let _ = match readers::read_map(&map_file[..n], &mut grid) {
        Ok(map) => check_file(&Console, map, &grid, &plan_file[..k]),
        Err(r) => print_refusal(&Console, "map", r),
    };
}
