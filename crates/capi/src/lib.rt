// The operations for controllers in C and Rust (include/chantspruce.h): each makes one call and returns its answer as a flat struct.
#![tactic(auto)]

ghost use Rattle.std.specs.Prelude.{◌≡◌};
ghost use Rattle.formats.specs.Number.{number_at};
ghost use Rattle.plans.specs.Check.{check_plan};
ghost use Rattle.lists.specs.FaultList.{check_fault_list};
ghost use Rattle.track.specs.Ports.{wafer};
ghost use Rattle.repair.specs.Operations.{plan_by, directions_by, plan_repair, directions_after};
ghost use Rattle.repair.specs.Operations.{plan_quickly, directions_quickly, plan_exactly, directions_exactly};
ghost use Rattle.repair.specs.Operations.{place_cells, places_after};
ghost use Rattle.repair.specs.Operations.{route_switches, across_after, down_after, follow_link};
ghost use Rattle.repair.specs.declared.Planner.TheVariants.{Trials, Quick, Exact};
ghost use Rattle.runs.specs.Run.{given};
ghost use Rattle.readers.specs.Reading.{read_map, read_plan};
ghost use Rattle.writers.specs.Writing.{write_map, write_plan};
ghost use Rattle.listing.specs.Listing.{reported};
ghost use Rattle.sessions.specs.Session.{session_started, report_test, session_reported};
ghost use Rattle.previews.specs.Preview.{foretold};
ghost use Rattle.capi.specs.Flat.{flat_verdict, flat_started, flat_preview, planned_as};
ghost use Rattle.capi.specs.Flat.{flat_outcome, flat_answer, flat_run, RanFlat, flat_link};
ghost use Rattle.capi.specs.Flat.{flat_number, flat_head, flat_plan_head, flat_length};

use array::{Refusal, Verdict};
use exact::Decision;
use plans::Fault;
use previews::{Foretold, Previewed};
use readers::Head;
use repair::{Answer, Planner};
use runs::Ran;
use sessions::Session;
use track::Followed;
use trials::Outcome;

// Every struct begins with `number` (0 where the call is accepted, else the number of the refusal), `place` and `second`. The values
// after them are 0 where the call is refused.

// The plan check, placement, routing and reports.
#[repr(C)]
#[derive(Clone, Copy, Default)]
pub struct ChantspruceVerdict {
    pub number: u32,
    pub place: usize,
    pub second: usize,
}

// The start of a session: the session that reports are handed.
#[repr(C)]
#[derive(Clone, Copy)]
pub struct ChantspruceStarted {
    pub number: u32,
    pub place: usize,
    pub second: usize,
    pub session: Session,
}

// The preview of a report: the direction that the processor would have, and all counters as they would be.
#[repr(C)]
#[derive(Clone, Copy)]
pub struct ChantsprucePreview {
    pub number: u32,
    pub place: usize,
    pub second: usize,
    pub direction: u32,
    pub south: [u8; 1024],
    pub north: [u8; 1024],
    pub east: [u8; 1024],
    pub west: [u8; 1024],
}

// The planners and the runs. `outcome` is 1 repaired, 2 beyond repair, 3 spent; `count` the trials, or the limit where it is
// spent, and 0 from the exact planner, which counts none; `links` how many links a run found to reach their neighbour.
#[repr(C)]
#[derive(Clone, Copy, Default)]
pub struct ChantsprucePlan {
    pub number: u32,
    pub place: usize,
    pub second: usize,
    pub outcome: u32,
    pub count: u32,
    pub links: usize,
}

// The follower: the position entered, the port (W, E, N, S are 0 to 3), and the switches passed.
#[repr(C)]
#[derive(Clone, Copy, Default)]
pub struct ChantspruceLink {
    pub number: u32,
    pub place: usize,
    pub second: usize,
    pub position: usize,
    pub port: u32,
    pub switches: u32,
}

// The number reader: the value, and the offset after it.
#[repr(C)]
#[derive(Clone, Copy, Default)]
pub struct ChantspruceNumber {
    pub number: u32,
    pub place: usize,
    pub second: usize,
    pub value: u32,
    pub next: usize,
}

// The map reader: N, M and the count of records.
#[repr(C)]
#[derive(Clone, Copy, Default)]
pub struct ChantspruceHead {
    pub number: u32,
    pub place: usize,
    pub second: usize,
    pub rows: usize,
    pub columns: usize,
    pub count: usize,
}

// The plan reader: the same and T, the trials on record.
#[repr(C)]
#[derive(Clone, Copy, Default)]
pub struct ChantsprucePlanHead {
    pub number: u32,
    pub place: usize,
    pub second: usize,
    pub rows: usize,
    pub columns: usize,
    pub count: usize,
    pub trials: u32,
}

// The file writers and the listing: the length written.
#[repr(C)]
#[derive(Clone, Copy, Default)]
pub struct ChantspruceLength {
    pub number: u32,
    pub place: usize,
    pub second: usize,
    pub length: usize,
}

// The answers as flat structs.

impl From<Verdict> for ChantspruceVerdict {
    ghost from_gives = { λ v r. r ≡ flat_verdict v };

    #[tactic(auto, unfolding(crate::specs::Flat::flat_verdict))]
    fn from(answer: Verdict) -> Self {
        match answer {
            Ok(()) => Self::default(),
            Err(refusal) => Self {
                number: u32::from(refusal.number()),
                place: refusal.place,
                second: refusal.second,
            },
        }
    }
}

// Inner part: an outcome by its kind and the count that it carries.
fn planned(outcome: u32, count: u32, links: usize) -> ChantsprucePlan
    ensures { result ≡ planned_as outcome count links }
{
    ChantsprucePlan {
        outcome,
        count,
        links,
        ..Default::default()
    }
}

// Inner part: 1 repaired, 2 beyond repair, 3 spent.
#[tactic(auto, unfolding(crate::specs::Flat::flat_outcome))]
fn flat_outcome(o: Outcome, links: usize) -> ChantsprucePlan
    ensures { result ≡ flat_outcome o links }
{
    match o {
        Outcome::Repaired(t) => planned(1, t, links),
        Outcome::Beyond(t) => planned(2, t, links),
        Outcome::Spent(limit) => planned(3, limit, links),
    }
}

impl From<Ran> for ChantsprucePlan {
    ghost from_gives = { λ ran r. r ≡ flat_run ran };

    #[tactic(auto, unfolding(crate::specs::Flat::flat_answer, crate::specs::Flat::flat_decision))]
    fn from(ran: Ran) -> Self {
        match ran.answer {
            Answer::Planned(outcome) => flat_outcome(outcome, ran.links),
            Answer::Decided(Decision::Repaired) => planned(1, 0, ran.links),
            Answer::Decided(Decision::Beyond) => planned(2, 0, ran.links),
            Answer::Refused(refusal) => Self {
                number: u32::from(refusal.number()),
                place: refusal.place,
                second: refusal.second,
                ..Default::default()
            },
        }
    }
}

impl From<Followed> for ChantspruceLink {
    ghost from_gives = { λ f r. r ≡ flat_link f };

    #[tactic(auto, unfolding(crate::specs::Flat::flat_link))]
    fn from(answer: Followed) -> Self {
        match answer {
            Ok(landing) => Self {
                position: landing.position,
                port: u32::from(landing.port),
                switches: u32::from(landing.switches),
                ..Default::default()
            },
            Err(refusal) => Self {
                number: u32::from(refusal.number()),
                place: refusal.place,
                second: refusal.second,
                ..Default::default()
            },
        }
    }
}

impl From<Result<(u32, usize), Refusal>> for ChantspruceNumber {
    ghost from_gives = { λ a r. r ≡ flat_number a };

    #[tactic(auto, unfolding(crate::specs::Flat::flat_number))]
    fn from(answer: Result<(u32, usize), Refusal>) -> Self {
        match answer {
            Ok((value, next)) => Self {
                value,
                next,
                ..Default::default()
            },
            Err(refusal) => Self {
                number: u32::from(refusal.number()),
                place: refusal.place,
                second: refusal.second,
                ..Default::default()
            },
        }
    }
}

impl From<Result<Head, Refusal>> for ChantspruceHead {
    ghost from_gives = { λ a r. r ≡ flat_head a };

    #[tactic(auto, unfolding(crate::specs::Flat::flat_head))]
    fn from(answer: Result<Head, Refusal>) -> Self {
        match answer {
            Ok(head) => Self {
                rows: head.rows,
                columns: head.columns,
                count: head.count,
                ..Default::default()
            },
            Err(refusal) => Self {
                number: u32::from(refusal.number()),
                place: refusal.place,
                second: refusal.second,
                ..Default::default()
            },
        }
    }
}

impl From<Result<(Head, u32), Refusal>> for ChantsprucePlanHead {
    ghost from_gives = { λ a r. r ≡ flat_plan_head a };

    #[tactic(auto, unfolding(crate::specs::Flat::flat_plan_head))]
    fn from(answer: Result<(Head, u32), Refusal>) -> Self {
        match answer {
            Ok((head, trials)) => Self {
                rows: head.rows,
                columns: head.columns,
                count: head.count,
                trials,
                ..Default::default()
            },
            Err(refusal) => Self {
                number: u32::from(refusal.number()),
                place: refusal.place,
                second: refusal.second,
                ..Default::default()
            },
        }
    }
}

impl From<Result<usize, Refusal>> for ChantspruceLength {
    ghost from_gives = { λ a r. r ≡ flat_length a };

    #[tactic(auto, unfolding(crate::specs::Flat::flat_length))]
    fn from(answer: Result<usize, Refusal>) -> Self {
        match answer {
            Ok(length) => Self {
                length,
                ..Default::default()
            },
            Err(refusal) => Self {
                number: u32::from(refusal.number()),
                place: refusal.place,
                second: refusal.second,
                ..Default::default()
            },
        }
    }
}

// Inner parts: what is called with any planner.

fn plan_by(
    planner: Planner,
    n: usize,
    m: usize,
    grid: &[u8],
    directions: &mut [u8],
    limit: u32,
) -> ChantsprucePlan
    ensures answer { result ≡ flat_answer (plan_by planner n m grid.now directions.old limit) 0 }
    ensures buffer { directions.new
        ≡ directions_by planner n m grid.now directions.old limit }
{
    let answer = repair::plan_by(planner, n, m, grid, directions, limit);
    Ran { answer, links: 0 }.into()
}

fn run_by(
    planner: Planner,
    n: usize,
    m: usize,
    grid: &[u8],
    limit: u32,
    directions: &mut [u8],
    places: &mut [u16],
    across: &mut [u8],
    down: &mut [u8],
) -> ChantsprucePlan
    ensures { RanFlat
        (given planner n m grid.now limit
        directions.old places.old across.old down.old)
        result directions.new places.new across.new down.new }
{
    runs::run_by(planner, n, m, grid, limit, directions, places, across, down).into()
}

fn report_by(planner: Planner, s: &[u8], out: &mut [u8]) -> ChantspruceLength
    ensures { (result ≡ flat_length (reported planner s.now out.old).0)
        × (out.new ≡ (reported planner s.now out.old).1) }
{
    listing::report_by(planner, s, out).into()
}

// The operations.

#[unsafe(no_mangle)]
pub extern "C" fn chantspruce_check_plan(
    n: usize,
    m: usize,
    grid: &[u8],
    directions: &[u8],
) -> ChantspruceVerdict
    ensures { result ≡ flat_verdict (check_plan n m grid.now directions.now) }
{
    plans::check_plan(n, m, grid, directions).into()
}

#[unsafe(no_mangle)]
pub extern "C" fn chantspruce_check_fault_list(
    n: usize,
    m: usize,
    grid: &[u8],
    faults: &[Fault],
) -> ChantspruceVerdict
    ensures { result ≡ flat_verdict (check_fault_list n m grid.now faults.now) }
{
    lists::check_fault_list(n, m, grid, faults).into()
}

#[unsafe(no_mangle)]
pub extern "C" fn chantspruce_plan_repair(
    n: usize,
    m: usize,
    grid: &[u8],
    directions: &mut [u8],
    limit: u32,
) -> ChantsprucePlan
    ensures answer { result ≡ flat_answer (plan_repair n m grid.now directions.old limit) 0 }
    ensures buffer { directions.new ≡ directions_after n m grid.now directions.old limit }
{
    plan_by(Planner::Trials, n, m, grid, directions, limit)
}

#[unsafe(no_mangle)]
pub extern "C" fn chantspruce_plan_quickly(
    n: usize,
    m: usize,
    grid: &[u8],
    directions: &mut [u8],
    limit: u32,
) -> ChantsprucePlan
    ensures answer { result ≡ flat_answer (plan_quickly n m grid.now directions.old limit) 0 }
    ensures buffer { directions.new
        ≡ directions_quickly n m grid.now directions.old limit }
{
    plan_by(Planner::Quick, n, m, grid, directions, limit)
}

#[unsafe(no_mangle)]
pub extern "C" fn chantspruce_plan_exactly(
    n: usize,
    m: usize,
    grid: &[u8],
    directions: &mut [u8],
) -> ChantsprucePlan
    ensures answer { result ≡ flat_answer (plan_exactly n m grid.now directions.old) 0 }
    ensures buffer { directions.new ≡ directions_exactly n m grid.now directions.old }
{
    plan_by(Planner::Exact, n, m, grid, directions, 0)
}

#[unsafe(no_mangle)]
pub extern "C" fn chantspruce_place_cells(
    n: usize,
    m: usize,
    grid: &[u8],
    directions: &[u8],
    places: &mut [u16],
) -> ChantspruceVerdict
    ensures verdict { result ≡ flat_verdict (place_cells n m grid.now directions.now places.old) }
    ensures buffer { places.new ≡ places_after n m grid.now directions.now places.old }
{
    repair::place_cells(n, m, grid, directions, places).into()
}

#[unsafe(no_mangle)]
pub extern "C" fn chantspruce_route_switches(
    n: usize,
    m: usize,
    grid: &[u8],
    directions: &[u8],
    across: &mut [u8],
    down: &mut [u8],
) -> ChantspruceVerdict
    ensures verdict { result ≡ flat_verdict (route_switches n m grid.now directions.now across.old down.old) }
    ensures buffers { (across.new ≡ across_after n m grid.now directions.now across.old down.old) × (down.new ≡ down_after n m grid.now directions.now across.old down.old) }
{
    repair::route_switches(n, m, grid, directions, across, down).into()
}

#[unsafe(no_mangle)]
pub extern "C" fn chantspruce_follow_link(
    n: usize,
    m: usize,
    grid: &[u8],
    directions: &[u8],
    across: &[u8],
    down: &[u8],
    cell: usize,
    side: usize,
) -> ChantspruceLink
    ensures { result ≡ flat_link (follow_link (wafer n m grid.now directions.now across.now down.now) cell side) }
{
    repair::follow_link(n, m, grid, directions, across, down, cell, side).into()
}

// The promise of a run, demand 3 with it, holds of the run's own result, which is returned flat.
#[unsafe(no_mangle)]
pub extern "C" fn chantspruce_repair_run(
    n: usize,
    m: usize,
    grid: &[u8],
    limit: u32,
    directions: &mut [u8],
    places: &mut [u16],
    across: &mut [u8],
    down: &mut [u8],
) -> ChantsprucePlan
    ensures { RanFlat
        (given Trials n m grid.now limit
        directions.old places.old across.old down.old)
        result directions.new places.new across.new down.new }
{
    run_by(
        Planner::Trials,
        n,
        m,
        grid,
        limit,
        directions,
        places,
        across,
        down,
    )
}

#[unsafe(no_mangle)]
pub extern "C" fn chantspruce_run_quickly(
    n: usize,
    m: usize,
    grid: &[u8],
    limit: u32,
    directions: &mut [u8],
    places: &mut [u16],
    across: &mut [u8],
    down: &mut [u8],
) -> ChantsprucePlan
    ensures { RanFlat
        (given Quick n m grid.now limit
        directions.old places.old across.old down.old)
        result directions.new places.new across.new down.new }
{
    run_by(
        Planner::Quick,
        n,
        m,
        grid,
        limit,
        directions,
        places,
        across,
        down,
    )
}

#[unsafe(no_mangle)]
pub extern "C" fn chantspruce_run_exactly(
    n: usize,
    m: usize,
    grid: &[u8],
    directions: &mut [u8],
    places: &mut [u16],
    across: &mut [u8],
    down: &mut [u8],
) -> ChantsprucePlan
    ensures { RanFlat
        (given Exact n m grid.now 0
        directions.old places.old across.old down.old)
        result directions.new places.new across.new down.new }
{
    run_by(
        Planner::Exact,
        n,
        m,
        grid,
        0,
        directions,
        places,
        across,
        down,
    )
}

#[unsafe(no_mangle)]
pub extern "C" fn chantspruce_read_number(s: &[u8], at: usize) -> ChantspruceNumber
    ensures { result ≡ flat_number (number_at s.now at) }
{
    formats::read_number(s, at).into()
}

#[unsafe(no_mangle)]
pub extern "C" fn chantspruce_read_map(s: &[u8], grid: &mut [u8]) -> ChantspruceHead
    ensures { (result ≡ flat_head (read_map s.now grid.old).0) × (grid.new ≡ (read_map s.now grid.old).1) }
{
    readers::read_map(s, grid).into()
}

#[unsafe(no_mangle)]
pub extern "C" fn chantspruce_read_plan(s: &[u8], directions: &mut [u8]) -> ChantsprucePlanHead
    ensures { (result ≡ flat_plan_head (read_plan s.now directions.old).0)
        × (directions.new ≡ (read_plan s.now directions.old).1) }
{
    readers::read_plan(s, directions).into()
}

#[unsafe(no_mangle)]
pub extern "C" fn chantspruce_write_map(
    n: usize,
    m: usize,
    grid: &[u8],
    out: &mut [u8],
) -> ChantspruceLength
    ensures { (result ≡ flat_length (write_map n m grid.now out.old).0) × (out.new ≡ (write_map n m grid.now out.old).1) }
{
    writers::write_map(n, m, grid, out).into()
}

#[unsafe(no_mangle)]
pub extern "C" fn chantspruce_write_plan(
    n: usize,
    m: usize,
    directions: &[u8],
    trials: u32,
    out: &mut [u8],
) -> ChantspruceLength
    ensures { (result ≡ flat_length (write_plan n m directions.now trials out.old).0)
        × (out.new ≡ (write_plan n m directions.now trials out.old).1) }
{
    writers::write_plan(n, m, directions, trials, out).into()
}

#[unsafe(no_mangle)]
pub extern "C" fn chantspruce_report(s: &[u8], out: &mut [u8]) -> ChantspruceLength
    ensures { (result ≡ flat_length (reported Trials s.now out.old).0)
        × (out.new ≡ (reported Trials s.now out.old).1) }
{
    report_by(Planner::Trials, s, out)
}

#[unsafe(no_mangle)]
pub extern "C" fn chantspruce_report_quickly(s: &[u8], out: &mut [u8]) -> ChantspruceLength
    ensures { (result ≡ flat_length (reported Quick s.now out.old).0)
        × (out.new ≡ (reported Quick s.now out.old).1) }
{
    report_by(Planner::Quick, s, out)
}

#[unsafe(no_mangle)]
pub extern "C" fn chantspruce_report_exactly(s: &[u8], out: &mut [u8]) -> ChantspruceLength
    ensures { (result ≡ flat_length (reported Exact s.now out.old).0)
        × (out.new ≡ (reported Exact s.now out.old).1) }
{
    report_by(Planner::Exact, s, out)
}

#[unsafe(no_mangle)]
pub extern "C" fn chantspruce_start_session(
    n: usize,
    m: usize,
    grid: &[u8],
    directions: &[u8],
) -> ChantspruceStarted
    ensures { result ≡ flat_started (check_plan n m grid.now directions.now)
        (session_started n m grid.now directions.now) }
{
    let mut session = Session::none();
    let answer = sessions::begin_session(n, m, grid, directions, &mut session);
    let ChantspruceVerdict {
        number,
        place,
        second,
    } = answer.into();
    ChantspruceStarted {
        number,
        place,
        second,
        session,
    }
}

// The session is altered in place: its fields are handed to the step, and the session that comes back is stored.
#[unsafe(no_mangle)]
pub extern "C" fn chantspruce_report_processor(
    s: &mut Session,
    failing: bool,
    position: usize,
) -> ChantspruceVerdict
    ensures verdict { result ≡ flat_verdict (report_test s.old failing position) }
    ensures session { s.new ≡ session_reported s.old failing position }
{
    let r = sessions::report_fields(
        s.rows,
        s.columns,
        s.grid,
        s.directions,
        s.south,
        s.north,
        s.east,
        s.west,
        failing,
        position,
    );
    *s = r.session;
    r.answer.into()
}

// A preview of a session that is handed over by value, flat.
fn flat_preview(s: Session, failing: bool, position: usize) -> ChantsprucePreview
    ensures { result ≡ flat_preview (report_test s failing position) (foretold s failing position) }
{
    let Previewed { answer, foretold } = previews::preview(s, failing, position);
    let Foretold {
        direction,
        south,
        north,
        east,
        west,
    } = foretold;
    let ChantspruceVerdict {
        number,
        place,
        second,
    } = answer.into();
    ChantsprucePreview {
        number,
        place,
        second,
        direction: u32::from(direction),
        south,
        north,
        east,
        west,
    }
}

// The session is only read: the report is made on a copy.
#[unsafe(no_mangle)]
pub extern "C" fn chantspruce_preview_processor(
    s: &Session,
    failing: bool,
    position: usize,
) -> ChantsprucePreview
    ensures { result ≡ flat_preview (report_test s.now failing position)
        (foretold s.now failing position) }
{
    flat_preview(*s, failing, position)
}
