// The calls. Each lends the operation as many elements of its buffers as the lines before it say, and prints the answer.
use crate::buffers::Buffer;
use crate::reports::{self, Report};
use crate::settings::{BYTES, ELEMENTS, State};
use crate::show::{self, Shown, Size};
use array::{Refusal, Verdict};
use exact::Decision;
use plans::Fault;
use readers::Head;
use repair::{Answer, Planner};
use runs::Ran;
use track::Followed;
use trials::Outcome;

// A list of up to four faults.
#[derive(Clone, Copy)]
pub struct Faults {
    list: [Fault; 4],
    count: usize,
}

impl Faults {
    // POSITION DIRECTION .., of which the last two must be such words; others that are none count as 0.
    fn of(words: &[&[u8]]) -> Option<Self> {
        let (pairs, rest) = words.as_chunks::<2>();
        if !rest.is_empty() || 4 < pairs.len() {
            return None;
        }
        if let Some([position, direction]) = pairs.last() {
            words::number(position)?;
            words::byte(direction)?;
        }
        Some(Faults {
            list: std::array::from_fn(|i| fault(pairs.get(i))),
            count: pairs.len(),
        })
    }
}

// The fault that two words say.
fn fault(words: Option<&[&[u8]; 2]>) -> Fault {
    let [position, direction] = words.copied().unwrap_or_default();
    Fault {
        position: words::number(position).unwrap_or(0),
        direction: words::byte(direction).unwrap_or(0),
    }
}

// The calls, with what their lines give beside the buffers.
#[derive(Clone, Copy)]
pub enum Call {
    Check,
    Faults(Faults),
    Plan(Planner, u32),
    Place,
    Route,
    Follow(usize, usize),
    Run(Planner, u32),
    Number(usize),
    List(Planner, usize),
    ReadMap,
    ReadPlan,
    WriteMap(usize),
    WritePlan(u32, usize),
    Start,
    Report(Report),
    Preview(Option<Report>),
}

impl Call {
    pub fn of(words: &[&[u8]]) -> Option<Self> {
        Some(match words {
            [b"check"] => Call::Check,
            [b"faults", faults @ ..] => Call::Faults(Faults::of(faults)?),
            [b"plan", how @ ..] => {
                let (planner, limit) = planned(how)?;
                Call::Plan(planner, limit)
            }
            [b"place"] => Call::Place,
            [b"route"] => Call::Route,
            [b"follow", cell, side] => Call::Follow(words::number(cell)?, words::number(side)?),
            [b"run", how @ ..] => {
                let (planner, limit) = planned(how)?;
                Call::Run(planner, limit)
            }
            [b"number", at] => Call::Number(words::number(at)?),
            [b"list", b"exactly", length] => Call::List(Planner::Exact, room(length)?),
            [b"list", b"quickly", length] => Call::List(Planner::Quick, room(length)?),
            [b"list", length] => Call::List(Planner::Trials, room(length)?),
            [b"read", b"map"] => Call::ReadMap,
            [b"read", b"plan"] => Call::ReadPlan,
            [b"write", b"map", length] => Call::WriteMap(room(length)?),
            [b"write", b"plan", trials, length] => Call::WritePlan(count(trials)?, room(length)?),
            [b"start", ..] => Call::Start,
            [b"report", report @ ..] => Call::Report(Report::of(report)?),
            [b"preview", report @ ..] => Call::Preview(Report::of(report)),
            _ => return None,
        })
    }
}

// The planner that the words of a call name, and its limit, which the exact one has not.
fn planned(words: &[&[u8]]) -> Option<(Planner, u32)> {
    match words {
        [b"exactly"] => Some((Planner::Exact, 0)),
        [b"quickly", limit] => Some((Planner::Quick, count(limit)?)),
        [limit] => Some((Planner::Trials, count(limit)?)),
        _ => None,
    }
}

// A number of trials.
fn count(word: &[u8]) -> Option<u32> {
    u32::try_from(words::number(word)?).ok()
}

// The length of a file buffer to write to.
fn room(word: &[u8]) -> Option<usize> {
    words::number(word).filter(|k| *k <= BYTES)
}

// Makes the call of a line.
pub fn make(call: Call, s: &mut State) {
    match call {
        Call::Check => check(s),
        Call::Faults(faults) => check_faults(s, faults),
        Call::Plan(planner, limit) => plan(s, planner, limit),
        Call::Place => place(s),
        Call::Route => route(s),
        Call::Follow(cell, side) => follow(s, cell, side),
        Call::Run(planner, limit) => run(s, planner, limit),
        Call::Number(at) => number(s, at),
        Call::List(planner, length) => list(s, planner, length),
        Call::ReadMap => read_map(s),
        Call::ReadPlan => read_plan(s),
        Call::WriteMap(length) => write_map(s, length),
        Call::WritePlan(trials, length) => write_plan(s, trials, length),
        Call::Start => reports::make_start(s),
        Call::Report(report) => reports::make_report(s, report),
        Call::Preview(report) => reports::make_preview(s, report),
    }
}

// A refusal, with whether every element that the call may write still has its mark.
fn refuse(r: Refusal, kept: bool) {
    show::say_refusal(r);
    show::say_kept(kept);
}

fn check(s: &State) {
    let Size { n, m } = s.size;
    let v = plans::check_plan(n, m, s.grid.lent(), s.directions.lent());
    show::say_verdict(v, "accepted");
}

fn check_faults(s: &State, faults: Faults) {
    let Size { n, m } = s.size;
    let listed = &faults.list[..faults.count.min(4)];
    let v = lists::check_fault_list(n, m, s.grid.lent(), listed);
    show::say_verdict(v, "accepted");
}

fn say_outcome(o: Outcome) {
    let (name, trials) = match o {
        Outcome::Repaired(t) => ("repaired", t),
        Outcome::Beyond(t) => ("beyond", t),
        Outcome::Spent(t) => ("spent", t),
    };
    show::say(name);
    show::say_number(trials as usize);
}

// Says what a planner has found, unless it has refused.
fn say_answer(a: Answer) -> Result<(), Refusal> {
    match a {
        Answer::Planned(o) => say_outcome(o),
        Answer::Decided(Decision::Repaired) => show::say("repaired"),
        Answer::Decided(Decision::Beyond) => show::say("beyond"),
        Answer::Refused(r) => return Err(r),
    }
    Ok(())
}

fn plan_into(s: &State, planner: Planner, limit: u32, out: &mut [u8]) -> Answer {
    let Size { n, m } = s.size;
    match planner {
        Planner::Trials => repair::plan_repair(n, m, s.grid.lent(), out, limit),
        Planner::Quick => repair::plan_quickly(n, m, s.grid.lent(), out, limit),
        Planner::Exact => repair::plan_exactly(n, m, s.grid.lent(), out),
    }
}

// Planning by any planner; the exact one has no limit. The directions are those of the calls after it.
fn plan(s: &mut State, planner: Planner, limit: u32) {
    let mut out = s.directions.marked_alike();
    match say_answer(plan_into(s, planner, limit, out.lent_mut())) {
        Ok(()) => {
            show::show(Shown::Directions, s.size, out.lent());
            s.directions.take(out.lent());
        }
        Err(r) => refuse(r, out.is_kept()),
    }
}

fn place(s: &State) {
    let Size { n, m } = s.size;
    let mut out = Buffer::<u16, ELEMENTS>::marked(s.places);
    let (grid, directions) = (s.grid.lent(), s.directions.lent());
    match repair::place_cells(n, m, grid, directions, out.lent_mut()) {
        Ok(()) => {
            show::say("placed");
            show::show(Shown::Places, s.size, out.lent());
        }
        Err(r) => refuse(r, out.is_kept()),
    }
}

// The two switch buffers.
fn show_switches(size: Size, across: &[u8], down: &[u8]) {
    show::say(" across");
    show::show(Shown::Across, size, across);
    show::say(" down");
    show::show(Shown::Down, size, down);
}

fn route(s: &mut State) {
    let Size { n, m } = s.size;
    let mut across = s.across.marked_alike();
    let mut down = s.down.marked_alike();
    let grid = s.grid.lent();
    let directions = s.directions.lent();
    match repair::route_switches(n, m, grid, directions, across.lent_mut(), down.lent_mut()) {
        Ok(()) => {
            show::say("routed");
            show_switches(s.size, across.lent(), down.lent());
            s.across.take(across.lent());
            s.down.take(down.lent());
        }
        Err(r) => refuse(r, across.is_kept() && down.is_kept()),
    }
}

fn follow(s: &State, cell: usize, side: usize) {
    let Size { n, m } = s.size;
    let grid = s.grid.lent();
    let directions = s.directions.lent();
    let across = s.across.lent();
    let down = s.down.lent();
    match repair::follow_link(n, m, grid, directions, across, down, cell, side) {
        Ok(l) => {
            show::say("entered");
            show::say_number(l.position);
            show::say_number(usize::from(l.port));
            show::say_number(usize::from(l.switches));
        }
        Err(r) => show::say_refusal(r),
    }
}

// The buffers that a run writes.
#[derive(Drop)]
struct Written {
    directions: Buffer<u8, ELEMENTS>,
    places: Buffer<u16, ELEMENTS>,
    across: Buffer<u8, ELEMENTS>,
    down: Buffer<u8, ELEMENTS>,
}

impl Written {
    fn new(s: &State) -> Self {
        Written {
            directions: s.directions.marked_alike(),
            places: Buffer::marked(s.places),
            across: s.across.marked_alike(),
            down: s.down.marked_alike(),
        }
    }

    // A run by any planner.
    fn run(&mut self, s: &State, planner: Planner, limit: u32) -> Ran {
        let Size { n, m } = s.size;
        let grid = s.grid.lent();
        let d = self.directions.lent_mut();
        let p = self.places.lent_mut();
        let a = self.across.lent_mut();
        let w = self.down.lent_mut();
        match planner {
            Planner::Trials => runs::repair_run(n, m, grid, limit, d, p, a, w),
            Planner::Quick => runs::run_quickly(n, m, grid, limit, d, p, a, w),
            Planner::Exact => runs::run_exactly(n, m, grid, d, p, a, w),
        }
    }

    fn is_kept(&self) -> bool {
        (self.directions.is_kept() && self.places.is_kept())
            && (self.across.is_kept() && self.down.is_kept())
    }

    fn show(&self, size: Size) {
        show::say(" directions");
        show::show(Shown::Directions, size, self.directions.lent());
        show::say(" places");
        show::show(Shown::Places, size, self.places.lent());
        show_switches(size, self.across.lent(), self.down.lent());
    }
}

fn say_links(links: usize) {
    show::say(" links");
    show::say_number(links);
}

fn run(s: &State, planner: Planner, limit: u32) {
    let mut out = Written::new(s);
    let r = out.run(s, planner, limit);
    match say_answer(r.answer) {
        Ok(()) => {
            say_links(r.links);
            out.show(s.size);
        }
        Err(e) => {
            show::say_refusal(e);
            say_links(r.links);
            show::say_kept(out.is_kept());
        }
    }
}

fn number(s: &State, at: usize) {
    match formats::read_number(s.file.lent(), at) {
        Ok((v, next)) => {
            show::say("read");
            show::say_number(v as usize);
            show::say_number(next);
        }
        Err(r) => show::say_refusal(r),
    }
}

fn say_head(head: Head) {
    show::say_number(head.rows);
    show::say_number(head.columns);
    show::say_number(head.count);
}

// The size of a file that was read.
fn size_of(head: Head) -> Size {
    Size {
        n: head.rows,
        m: head.columns,
    }
}

// Reading a map. It is the grid of the calls after it.
fn read_map(s: &mut State) {
    let mut out = s.grid.marked_alike();
    match readers::read_map(s.file.lent(), out.lent_mut()) {
        Ok(head) => {
            show::say("map");
            say_head(head);
            show::show(Shown::Grid, size_of(head), out.lent());
            s.grid.take(out.lent());
            s.size = size_of(head);
        }
        Err(r) => refuse(r, out.is_kept()),
    }
}

// Reading a plan. Its directions are those of the calls after it.
fn read_plan(s: &mut State) {
    let mut out = s.directions.marked_alike();
    match readers::read_plan(s.file.lent(), out.lent_mut()) {
        Ok((head, trials)) => {
            show::say("plan");
            say_head(head);
            show::say_number(trials as usize);
            show::show(Shown::Directions, size_of(head), out.lent());
            s.directions.take(out.lent());
        }
        Err(r) => refuse(r, out.is_kept()),
    }
}

fn say_length(k: usize) {
    show::say("length");
    show::say_number(k);
    show::say(":");
}

// The bytes after the length that was answered.
fn say_rest(out: &Buffer<u8, BYTES>, k: usize) {
    show::say(", rest");
    show::say_kept(out.is_kept_from(k));
}

// What a writer answers. The file that it wrote is the file of the calls after it.
fn keep_file(s: &mut State, answer: Result<usize, Refusal>, out: &Buffer<u8, BYTES>) {
    match answer {
        Ok(k) => {
            say_length(k);
            show::show_bytes(out.first(k));
            say_rest(out, k);
            s.file.take(out.first(k));
            s.file.lend(k);
        }
        Err(r) => refuse(r, out.is_kept()),
    }
}

fn write_map(s: &mut State, length: usize) {
    let Size { n, m } = s.size;
    let mut out = Buffer::marked(length);
    let answer = writers::write_map(n, m, s.grid.lent(), out.lent_mut());
    keep_file(s, answer, &out);
}

fn write_plan(s: &mut State, trials: u32, length: usize) {
    let Size { n, m } = s.size;
    let mut out = Buffer::marked(length);
    let answer = writers::write_plan(n, m, s.directions.lent(), trials, out.lent_mut());
    keep_file(s, answer, &out);
}

fn list_into(s: &State, planner: Planner, out: &mut [u8]) -> Result<usize, Refusal> {
    match planner {
        Planner::Trials => listing::report(s.file.lent(), out),
        Planner::Quick => listing::report_quickly(s.file.lent(), out),
        Planner::Exact => listing::report_exactly(s.file.lent(), out),
    }
}

fn list(s: &State, planner: Planner, length: usize) {
    let mut out = Buffer::<u8, BYTES>::marked(length);
    match list_into(s, planner, out.lent_mut()) {
        Ok(k) => {
            say_length(k);
            show::show_text(out.first(k));
            say_rest(&out, k);
        }
        Err(r) => refuse(r, out.is_kept()),
    }
}
