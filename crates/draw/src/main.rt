// Draws the wafer of the map file on standard input, of which no more than 4,096 bytes are read, and its repair, as an SVG on standard output.
#![tactic(auto)]

mod counts;
mod heading;
mod layers;
mod links;
mod wafer;
mod words;

use array::Refusal;
use console::Console;
use counts::Counted;
use readers::Head;
use repair::Answer;
use std::fmt::{Result, Write};
use trials::Outcome;
use wafer::Wafer;

// The descriptor of standard input.
const STDIN_FILENO: i32 = 0;

// The limit of trials.
const LIMIT: u32 = 1000000;

// An outcome in words, before its number of trials.
fn verdict(o: Outcome) -> (&'static str, u32) {
    match o {
        Outcome::Repaired(t) => ("repaired with", t),
        Outcome::Beyond(t) => ("beyond repair after", t),
        Outcome::Spent(t) => ("spent: more than", t),
    }
}

// The title: the sizes, the number of faults and the outcome.
fn title(out: &mut impl Write, head: Head, o: Outcome) -> Result {
    let faults = Counted {
        number: head.count as u64,
        thing: "fault",
    };
    let (words, t) = verdict(o);
    let trials = Counted {
        number: u64::from(t),
        thing: "trial",
    };
    write!(
        out,
        "<text class='t' x='20' y='34'>{} x {}, ",
        head.rows, head.columns
    )?;
    writeln!(out, "{faults}, {words} {trials}</text>")
}

// The length from the first to the last of k + 2 rows or columns with a margin, and `least` at the least.
fn extent(margin: u16, k: usize, least: usize) -> usize {
    (wafer::last_units(k) + usize::from(margin)).max(least)
}

// The beginning of the picture of a map: its symbols, title and legend, which needs more height where there is a plan.
fn draw_frame(out: &mut impl Write, head: Head, o: Outcome) -> Result {
    let planned = matches!(o, Outcome::Repaired(_));
    let least = if planned { 503 } else { 0 };
    words::open(
        out,
        extent(320, head.columns, 560),
        extent(150, head.rows, least),
    )?;
    out.write_str(words::SYMBOLS)?;
    title(out, head, o)?;
    words::legend(out, extent(140, head.columns, 0), planned)?;
    writeln!(out, "<g transform='translate(76 100)'>")
}

// The picture of a refused file: the number, the place and the reason.
fn draw_refusal(out: &mut impl Write, r: Refusal) -> Result {
    words::open(out, 560, 100)?;
    writeln!(
        out,
        "<text class='t' x='20' y='40'>refused {} at byte {}</text>",
        r.number(),
        r.place
    )?;
    writeln!(
        out,
        "<text class='g' x='20' y='68'>{}</text>",
        words::reason(r.number())
    )?;
    writeln!(out, "</svg>")
}

// The picture of a map that was planned. Where there is no plan, the directions are 0, placement and routing refuse them, and the layers that
// show a plan are empty.
fn draw_planned(
    out: &mut impl Write,
    head: Head,
    o: Outcome,
    grid: &[u8],
    directions: &[u8],
) -> Result {
    let n = head.rows;
    let m = head.columns;
    let mut places = [0u16; 1024];
    let mut across = [0u8; 1024];
    let mut down = [0u8; 1024];
    let _ = repair::place_cells(n, m, grid, directions, &mut places);
    let _ = repair::route_switches(n, m, grid, directions, &mut across, &mut down);
    let wafer = Wafer {
        n,
        m,
        grid,
        directions,
        places: &places,
        across: &across,
        down: &down,
    };
    draw_frame(out, head, o)?;
    layers::draw(out, &wafer)?;
    writeln!(out, "</g>\n</svg>")
}

// Plans and draws a map that was read. Only the exact planner, which is not asked here, answers a decision.
fn draw_map(out: &mut impl Write, head: Head, grid: &[u8]) -> Result {
    let mut directions = [0u8; 1024];
    match repair::plan_repair(head.rows, head.columns, grid, &mut directions, LIMIT) {
        Answer::Planned(o) => draw_planned(out, head, o, grid, &directions),
        Answer::Decided(_) => Ok(()),
        Answer::Refused(r) => draw_refusal(out, r),
    }
}

fn main() {
    let mut buf = io::buffer();
    let k = io::read_full(STDIN_FILENO, &mut buf);
    let mut grid = [0u8; 1024];
    // What cannot be written is lost: the status stays 0.
    let _ = match readers::read_map(&buf[..k], &mut grid) {
        Ok(head) => draw_map(&mut Console, head, &grid),
        Err(r) => draw_refusal(&mut Console, r),
    };
}
