// Writes the plan file of the map file on standard input, of which no more than 4,096 bytes are read, to standard output, with
// the trials on record. The first byte on descriptor 3 says by which planner. Why there is no plan file goes to standard error,
// and nothing to standard output then; bin/record puts it in words.
#![tactic(auto)]

use array::Refusal;
use console::Console;
use exact::Decision;
use readers::Head;
use repair::{Answer, Planner};
use std::io::Result;
use trials::Outcome;

// The descriptors of standard input and of the letter that says by which planner.
const STDIN_FILENO: i32 = 0;

const CHOICE_FILENO: i32 = 3;

// The limit of trials, which is that of the listing.
const LIMIT: u32 = 1000000;

// Tells the number and the place of a refused map file.
fn tell_refusal(rt: &impl Eprint, r: Refusal) -> Result<()> {
    eprintln!(rt; "refused {} at byte {}", r.number(), r.place)
}

// Writes the plan file of a repaired map, which has at most 2,707 bytes.
fn write_plan(
    rt: &(impl Print + Eprint),
    head: Head,
    directions: &[u8],
    trials: u32,
) -> Result<()> {
    let mut file = [0u8; 4096];
    match writers::write_plan(head.rows, head.columns, directions, trials, &mut file) {
        Ok(k) => match rt.write_all(&file[..k]) {
            Ok(()) => Ok(()),
            Err(_) => eprintln!(rt; "cut"),
        },
        Err(r) => eprintln!(rt; "unwritten {}", r.number()),
    }
}

// Writes the plan file where trials found a plan.
fn write_outcome(
    rt: &(impl Print + Eprint),
    head: Head,
    o: Outcome,
    directions: &[u8],
) -> Result<()> {
    match o {
        Outcome::Repaired(t) => write_plan(rt, head, directions, t),
        Outcome::Beyond(t) => eprintln!(rt; "beyond {t}"),
        Outcome::Spent(t) => eprintln!(rt; "spent {t}"),
    }
}

// Writes the plan file where the exact planner found a plan; it counts no trials, so there are 0 on record.
fn write_decision(
    rt: &(impl Print + Eprint),
    head: Head,
    d: Decision,
    directions: &[u8],
) -> Result<()> {
    match d {
        Decision::Repaired => write_plan(rt, head, directions, 0),
        Decision::Beyond => eprintln!(rt; "beyond"),
    }
}

// Plans a map that was read.
fn plan_map(rt: &(impl Print + Eprint), planner: Planner, head: Head, grid: &[u8]) -> Result<()> {
    let mut directions = [0u8; 1024];
    match repair::plan_by(
        planner,
        head.rows,
        head.columns,
        grid,
        &mut directions,
        LIMIT,
    ) {
        Answer::Planned(o) => write_outcome(rt, head, o, &directions),
        Answer::Decided(d) => write_decision(rt, head, d, &directions),
        Answer::Refused(r) => tell_refusal(rt, r),
    }
}

// The planner of a letter: `q` is the quick one, `e` the exact one.
fn planner_of(letter: u8) -> Planner {
    match letter {
        b'q' => Planner::Quick,
        b'e' => Planner::Exact,
        _ => Planner::Trials,
    }
}

fn main() {
    let mut choice = [0u8; 1];
    io::read_full(CHOICE_FILENO, &mut choice);
    let mut buf = io::buffer();
    let n = io::read_full(STDIN_FILENO, &mut buf);
    let mut grid = [2u8; 1024];
    // What cannot be written is lost: the status stays 0.
    let _ = match readers::read_map(&buf[..n], &mut grid) {
        Ok(head) => plan_map(&Console, planner_of(choice[0]), head, &grid),
        Err(r) => tell_refusal(&Console, r),
    };
}
