// Sessions: field reports of processors that fail and recover one at a time (document 02, T-07).
// start_session, report and report_fields are for callers; the other functions are inner parts.
#![tactic(auto)]

ghost use Rattle.std.specs.Prelude.{◌≡◌, true, false, ◌≤◌, ◌<◌, get_or, IfOk, Err};
ghost use Rattle.array.specs.Place.{inner, processor};
ghost use Rattle.array.specs.Map.{faulty_mark, dead_mark};
ghost use Rattle.array.specs.Tests.{told, or_else, refuse_if, verdict_of};
ghost use Rattle.paths.specs.Path.{Start, member, path};
ghost use Rattle.plans.specs.Check.{check_plan};
ghost use Rattle.counters.specs.Inner.{is_coming};
ghost use Rattle.sessions.specs.Session.{no_session, begun, session, session_started, qualifies, taken, kept_paths_test};
ghost use Rattle.sessions.specs.Session.{session_test, report_test, session_reported};
ghost use Rattle.sessions.specs.Inner.{Started, Standing, PathOrNone, counter_of, reported_test, unused_test, used_test, some_direction};
ghost use Rattle.sessions.specs.Inner.{taken_judged, altered};

use array::{Reason, Refusal, Shape, Verdict};
use counters::Change;
use paths::Path;
use plans::DirectedMap;

// A session, laid out as in C: a map with the directions of a plan for it, and for each direction a counter by position: how many kept
// paths of other processors meet or nearly miss a path from there.
#[repr(C)]
#[derive(Clone, Copy)]
pub struct Session {
    pub rows: usize,
    pub columns: usize,
    pub grid: [u8; 1024],
    pub directions: [u8; 1024],
    pub south: [u8; 1024],
    pub north: [u8; 1024],
    pub east: [u8; 1024],
    pub west: [u8; 1024],
}

// An answer with the session as it is then.
#[derive(Clone, Copy)]
pub struct Reported {
    pub answer: Verdict,
    pub session: Session,
}

// Whether p lies on a path.
fn is_on(kept: Path, p: usize) -> bool
    ensures { result ≡ member p (path kept.shape.rows kept.shape.columns kept.start kept.direction) }
{
    let x = p / 32;
    let y = p % 32;
    let v = kept.start / 32;
    let w = kept.start % 32;
    match kept.direction {
        1 => (y == w) & (v <= x) & (x <= kept.shape.rows + 1),
        2 => (y == w) & (x <= v),
        3 => (x == v) & (w <= y) & (y <= kept.shape.columns + 1),
        _ => (x == v) & (y <= w),
    }
}

// Test 22 of a failing processor, by its mark.
fn check_mark(mark: u8, p: usize) -> Verdict
    ensures { result ≡ refuse_if (faulty_mark mark) 22 p 0 }
{
    if array::is_faulty(mark) {
        return Err(Refusal::at(Reason::NothingNew, p));
    }
    Ok(())
}

// Tests 22 and 23 of a recovering processor, by its mark.
fn check_used(mark: u8, p: usize) -> Verdict
    ensures { result ≡ used_test mark p }
{
    if mark == 0 {
        return Err(Refusal::at(Reason::NothingNew, p));
    }
    if array::is_dead(mark) {
        return Err(Refusal::at(Reason::InUseOrDead, p));
    }
    Ok(())
}

impl Session {
    // What stands for a session where its start is refused.
    pub fn none() -> Self
        ensures { result ≡ no_session }
    {
        Session {
            rows: 0,
            columns: 0,
            grid: [0; 1024],
            directions: [0; 1024],
            south: [0; 1024],
            north: [0; 1024],
            east: [0; 1024],
            west: [0; 1024],
        }
    }

    // Becomes the session of a plan, its counters made afresh.
    #[tactic(auto, using(crate::proofs::Few::kept))]
    fn begin(&mut self, plan: &DirectedMap)
        requires { check_plan plan.now.map.shape.rows plan.now.map.shape.columns plan.now.map.grid.now
            plan.now.directions.now ≡ Ok tt }
        ensures { self.new ≡ begun plan.now.map.shape.rows plan.now.map.shape.columns plan.now.map.grid.now
            plan.now.directions.now }
    {
        let shape = plan.map.shape;
        let directions = plan.directions;
        self.rows = shape.rows;
        self.columns = shape.columns;
        self.grid = *plan.map.grid;
        self.directions = *directions;
        self.south = [0; 1024];
        self.north = [0; 1024];
        self.east = [0; 1024];
        self.west = [0; 1024];
        counters::count_all(
            shape,
            directions,
            &mut self.south,
            &mut self.north,
            &mut self.east,
            &mut self.west,
        );
    }

    // Tests 1 to 7 of the session, and 15 of a reported position.
    fn check_reported(&self, p: usize) -> Verdict
        ensures { result ≡ reported_test self.now p }
    {
        let plan = plans::check_tests(self.rows, self.columns, true, &self.grid, &self.directions)?;
        if !plan.map.shape.is_processor(p) {
            return Err(Refusal::at(Reason::NoSuchLink, 0));
        }
        Ok(())
    }

    // The path from p in direction d.
    fn path(&self, p: usize, d: u8) -> Path
        requires { Start self.now.rows self.now.columns p d }
        ensures { (result.shape.rows ≡ self.now.rows) × (result.shape.columns ≡ self.now.columns) × (result.start ≡ p)
            × (result.direction ≡ d) }
    {
        let shape = Shape {
            rows: self.rows,
            columns: self.columns,
        };
        Path {
            shape,
            start: p,
            direction: d,
        }
    }

    // Test 23 of a failing processor: it lies on no kept path.
    fn check_kept(&self, p: usize) -> Verdict
        requires { Started self.now.rows self.now.columns self.now.directions }
        ensures { result ≡ kept_paths_test self.now.rows self.now.columns self.now.directions p }
    {
        for (q, &e) in self.directions.iter().enumerate() {
            if e != 0 && is_on(self.path(q, e), p) {
                return Err(Refusal::at(Reason::InUseOrDead, p));
            }
        }
        Ok(())
    }

    // Tests 22 and 23 of a failing processor.
    fn check_unused(&self, p: usize) -> Verdict
        requires { Standing self.now p }
        ensures { result ≡ unused_test self.now.rows self.now.columns self.now.grid self.now.directions p }
    {
        check_mark(self.grid[p], p)?;
        self.check_kept(p)
    }

    // The counter of direction d at p.
    fn counter(&self, d: u8, p: usize) -> u8
        requires { p < 1024 }
        ensures { result ≡ counter_of self.now d p }
    {
        match d {
            1 => self.south[p],
            2 => self.north[p],
            3 => self.east[p],
            _ => self.west[p],
        }
    }

    // Whether a path from p in direction d may be taken: its counter is 0, and it is open.
    fn does_qualify(&self, p: usize, d: u8) -> bool
        requires { Start self.now.rows self.now.columns p d }
        ensures { result ≡ qualifies self.now.rows self.now.columns self.now.grid p d (counter_of self.now d p) }
    {
        self.counter(d, p) == 0 && self.path(p, d).is_open(&self.grid)
    }

    // The first direction in which a path from an inner position may be taken.
    fn find_direction(&self, p: usize) -> Option<u8>
        requires { Standing self.now p × (inner self.now.rows self.now.columns p ≡ true) }
        ensures { result ≡ some_direction (taken self.now p) }
    {
        (1..5).find(|d| self.does_qualify(p, *d))
    }

    // The direction that a failing processor takes, or 24; a spare takes none, 0.
    fn take_direction(&self, p: usize) -> Result<u8, Refusal>
        requires { Standing self.now p }
        ensures { result ≡ taken_judged self.now p }
    {
        if !array::is_inner(self.rows, self.columns, p) {
            return Ok(0);
        }
        self.find_direction(p)
            .ok_or(Refusal::at(Reason::NoDirection, p))
    }

    // Alters the counters by the path from p in direction e, if there is one.
    fn alter_counters(&mut self, change: Change, p: usize, e: u8)
        requires { PathOrNone self.old.rows self.old.columns p e }
        ensures { self.new ≡ altered self.old (is_coming change) p e }
    {
        if e != 0 {
            let table = paths::clash_table();
            let path = self.path(p, e);
            counters::alter_all(
                path,
                &table,
                change,
                &mut self.south,
                &mut self.north,
                &mut self.east,
                &mut self.west,
            );
        }
    }

    // A processor fails: it gets the mark of a fault, and its path comes.
    fn fail(&mut self, p: usize) -> Verdict
        ensures answer { result ≡ report_test self.old true p }
        ensures session { self.new ≡ session_reported self.old true p }
    {
        self.check_reported(p)?;
        self.check_unused(p)?;
        let e = self.take_direction(p)?;
        self.grid[p] = 1;
        self.directions[p] = e;
        self.alter_counters(Change::Comes, p, e);
        Ok(())
    }

    // A processor recovers: it is healthy, and its path goes.
    fn recover(&mut self, p: usize) -> Verdict
        ensures answer { result ≡ report_test self.old false p }
        ensures session { self.new ≡ session_reported self.old false p }
    {
        self.check_reported(p)?;
        check_used(self.grid[p], p)?;
        let e = self.directions[p];
        self.grid[p] = 0;
        self.directions[p] = 0;
        self.alter_counters(Change::Goes, p, e);
        Ok(())
    }

    // A processor fails or recovers.
    fn change(&mut self, failing: bool, p: usize) -> Verdict
        ensures answer { result ≡ report_test self.old failing p }
        ensures session { self.new ≡ session_reported self.old failing p }
    {
        if failing {
            self.fail(p)
        } else {
            self.recover(p)
        }
    }
}

// A processor fails or recovers: the answer, and the session as it is then. The session is altered where it is handed back, so that
// there is one copy.
pub fn report(s: Session, failing: bool, position: usize) -> Reported
    ensures answer { told result.answer ≡ told (report_test s failing position) }
    ensures session { result.session ≡ session_reported s failing position }
{
    let mut reported = Reported {
        answer: Ok(()),
        session: s,
    };
    reported.answer = reported.session.change(failing, position);
    reported
}

// The same by the fields of a session.
pub fn report_fields(
    rows: usize,
    columns: usize,
    grid: [u8; 1024],
    directions: [u8; 1024],
    south: [u8; 1024],
    north: [u8; 1024],
    east: [u8; 1024],
    west: [u8; 1024],
    failing: bool,
    position: usize,
) -> Reported
    ensures answer { told result.answer
        ≡ told (report_test (session rows columns grid directions south north east west) failing position) }
    ensures session { result.session
        ≡ session_reported (session rows columns grid directions south north east west) failing position }
{
    let session = Session {
        rows,
        columns,
        grid,
        directions,
        south,
        north,
        east,
        west,
    };
    let mut reported = Reported {
        answer: Ok(()),
        session,
    };
    reported.answer = reported.session.change(failing, position);
    reported
}

// Inner part: starts a session where all is 0, which stays as it is where the plan check refuses.
#[tactic(auto, unfolding(crate::specs::Session::session_started))]
pub fn begin_session(
    n: usize,
    m: usize,
    grid: &[u8],
    directions: &[u8],
    session: &mut Session,
) -> Verdict
    requires { session.old ≡ no_session }
    ensures answer { told result ≡ told (check_plan n m grid.now directions.now) }
    ensures session { session.new ≡ session_started n m grid.now directions.now }
{
    let right = (grid.len() == 1024) & (directions.len() == 1024);
    let plan = plans::check_tests(n, m, right, grid, directions)?;
    session.begin(&plan);
    Ok(())
}

// A session from a plan, its counters made afresh; all 0 where the plan check refuses.
pub fn start_session(n: usize, m: usize, grid: &[u8], directions: &[u8]) -> Reported
    ensures answer { told result.answer ≡ told (check_plan n m grid.now directions.now) }
    ensures session { result.session ≡ session_started n m grid.now directions.now }
{
    let mut session = Session::none();
    let answer = begin_session(n, m, grid, directions, &mut session);
    Reported { answer, session }
}
