// The calls that start a session, report to it or preview a report. The session is held from line to line.
use crate::settings::State;
use crate::show::{self, Shown, Size};
use array::Verdict;
use previews::Foretold;
use sessions::Session;

// What is held before the first start, and what a refused start gives.
pub fn no_session() -> Session {
    Session {
        rows: 0,
        columns: 0,
        grid: [0; 1024],
        directions: [0; 1024],
        south: [0; 1024],
        north: [0; 1024],
        east: [0; 1024],
        west: [0; 1024],
    }
}

// The counters of a session, or those that are foretold.
#[derive(Clone, Copy, PartialEq, Eq)]
struct Counters<'a> {
    south: &'a [u8],
    north: &'a [u8],
    east: &'a [u8],
    west: &'a [u8],
}

impl<'a> From<&'a Session> for Counters<'a> {
    fn from(s: &'a Session) -> Self {
        Counters {
            south: &s.south,
            north: &s.north,
            east: &s.east,
            west: &s.west,
        }
    }
}

impl<'a> From<&'a Foretold> for Counters<'a> {
    fn from(f: &'a Foretold) -> Self {
        Counters {
            south: &f.south,
            north: &f.north,
            east: &f.east,
            west: &f.west,
        }
    }
}

fn is_same(a: &Session, b: &Session) -> bool {
    (a.rows == b.rows && a.columns == b.columns)
        && (a.grid == b.grid && a.directions == b.directions)
        && Counters::from(a) == Counters::from(b)
}

// The elements that differ in two buffers, with what they are in the second.
fn say_changes(name: &str, a: &[u8], b: &[u8]) {
    show::say(name);
    for (p, (old, new)) in a.iter().zip(b).enumerate() {
        if old != new {
            show::say_number(p);
            show::say(":");
            show::say_digits(usize::from(*new));
        }
    }
}

fn say_counters(a: Counters, b: Counters) {
    say_changes(" south", a.south, b.south);
    say_changes(" north", a.north, b.north);
    say_changes(" east", a.east, b.east);
    say_changes(" west", a.west, b.west);
}

// What an accepted report has changed.
fn say_report(a: &Session, b: &Session) {
    if a.rows != b.rows || a.columns != b.columns {
        show::say(" size changed");
    }
    say_changes(" mark", &a.grid, &b.grid);
    say_changes(" direction", &a.directions, &b.directions);
    say_counters(Counters::from(a), Counters::from(b));
}

// A session that was started: its wafer, and the counters that are not 0.
fn say_session(s: &Session) {
    let size = Size {
        n: s.rows,
        m: s.columns,
    };
    show::say_number(s.rows);
    show::say_number(s.columns);
    show::say(" grid");
    show::show(Shown::Grid, size, &s.grid);
    show::say(" directions");
    show::show(Shown::Directions, size, &s.directions);
    say_counters(Counters::from(&no_session()), Counters::from(s));
}

fn say_empty(empty: bool) {
    show::say(if empty { " empty" } else { " filled" });
}

pub fn make_start(s: &mut State) {
    let r = sessions::start_session(s.size.n, s.size.m, s.grid.lent(), s.directions.lent());
    match r.answer {
        Ok(()) => {
            show::say("started");
            say_session(&r.session);
        }
        Err(e) => {
            show::say_refusal(e);
            say_empty(is_same(&no_session(), &r.session));
        }
    }
    s.held = r.session;
}

// A report: whether the processor fails or recovers, and its position.
#[derive(Clone, Copy)]
pub struct Report {
    failing: bool,
    position: usize,
}

impl Report {
    // `fail POSITION` or `recover POSITION`.
    pub fn of(words: &[&[u8]]) -> Option<Self> {
        let (failing, position) = match words {
            [b"fail", position] => (true, position),
            [b"recover", position] => (false, position),
            _ => return None,
        };
        Some(Report {
            failing,
            position: words::number(position)?,
        })
    }
}

pub fn make_report(s: &mut State, report: Report) {
    let r = sessions::report(s.held, report.failing, report.position);
    match r.answer {
        Ok(()) => {
            show::say("accepted");
            say_report(&s.held, &r.session);
        }
        Err(e) => {
            show::say_refusal(e);
            show::say_kept(is_same(&s.held, &r.session));
        }
    }
    s.held = r.session;
}

// Whether everything that is foretold is 0.
fn is_nothing(f: &Foretold) -> bool {
    f.direction == 0 && Counters::from(f) == Counters::from(&no_session())
}

fn say_preview(s: Session, report: Report) {
    let r = previews::preview(s, report.failing, report.position);
    match r.answer {
        Ok(()) => {
            show::say("accepted direction");
            show::say_number(usize::from(r.foretold.direction));
            say_counters(Counters::from(&s), Counters::from(&r.foretold));
        }
        Err(e) => {
            show::say_refusal(e);
            say_empty(is_nothing(&r.foretold));
        }
    }
}

// A preview, or a line that is a wrong one. After it the session that is held is the one before it.
pub fn make_preview(s: &State, report: Option<Report>) {
    let before = s.held;
    match report {
        Some(report) => say_preview(s.held, report),
        None => show::say("error"),
    }
    show::say_kept(is_same(&before, &s.held));
}
