// Tells what a session over the map file on descriptor 3 and the plan file on descriptor 4 answers to the reports on
// standard input, a line on standard output for each. A line of the input is `fail ROW COLUMN` or `recover ROW COLUMN`, a
// report, or `preview ROW COLUMN`, which asks what a failure there would do. A blank line and one whose first character is #
// are skipped, and the first other one ends the history. No more than 4,096 bytes are read of either file, of which a longer
// one is never accepted, and no input of 65,536 bytes or more is taken.
#![tactic(auto)]

ghost use Rattle.std.specs.Prelude.{◌≡◌};
ghost use Rattle.history.specs.Held.{held_after};

use array::{Refusal, Verdict};
use console::Console;
use readers::Head;
use sessions::Session;
use std::fmt;
use words::{FirstWords, Lines};

// The descriptors that are read: standard input, the map file and the plan file.
const STDIN_FILENO: i32 = 0;

const MAP: i32 = 3;

const PLAN: i32 = 4;

// A position that no array has.
const NONE: usize = 1024;

// What a line asks: that a processor fails, that one recovers, or what a failure would do.
#[derive(Clone, Copy)]
enum Asked {
    Fail,
    Recover,
    Preview,
}

impl Asked {
    fn of(word: &[u8]) -> Option<Self> {
        match word {
            b"fail" => Some(Asked::Fail),
            b"recover" => Some(Asked::Recover),
            b"preview" => Some(Asked::Preview),
            _ => None,
        }
    }
}

impl fmt::Display for Asked {
    fn fmt<W: fmt::Write>(&self, f: &mut fmt::Formatter<W>) -> fmt::Result {
        f.write_str(match self {
            Asked::Fail => "fail",
            Asked::Recover => "recover",
            Asked::Preview => "preview",
        })
    }
}

// A line that asks something of the processor in a row and a column.
#[derive(Clone, Copy)]
struct Line {
    asked: Asked,
    row: usize,
    column: usize,
}

impl Line {
    fn of(words: &[&[u8]]) -> Option<Self> {
        let [asked, row, column] = words else {
            return None;
        };
        Some(Line {
            asked: Asked::of(asked)?,
            row: words::number(row)?,
            column: words::number(column)?,
        })
    }

    fn position(&self) -> usize {
        if self.row < 32 && self.column < 32 {
            self.row * 32 + self.column
        } else {
            NONE
        }
    }
}

impl fmt::Display for Line {
    fn fmt<W: fmt::Write>(&self, f: &mut fmt::Formatter<W>) -> fmt::Result {
        let Line { asked, row, column } = self;
        write!(f, "{asked} {row} {column}")
    }
}

// What a line is answered: that the path in a direction has come or gone, or only a spare's mark where the direction is 0;
// that a failure would do so and change so many counters; or a refusal.
#[derive(Clone, Copy)]
enum Told {
    Changed(u8),
    Foretold(u8, usize),
    Refused(Refusal),
}

impl fmt::Display for Told {
    fn fmt<W: fmt::Write>(&self, f: &mut fmt::Formatter<W>) -> fmt::Result {
        match self {
            Told::Changed(direction) => f.write_str(change(*direction)),
            Told::Foretold(direction, counters) => write!(f, "{} {counters}", change(*direction)),
            Told::Refused(r) => write!(f, "refused {} {}", r.number(), r.place),
        }
    }
}

// What comes or goes in this direction.
fn change(direction: u8) -> &'static str {
    match direction {
        1 => "path S",
        2 => "path N",
        3 => "path E",
        4 => "path W",
        _ => "spare",
    }
}

// What a report is answered that changes the path in this direction.
fn reported(answer: Verdict, direction: u8) -> Told {
    match answer {
        Ok(()) => Told::Changed(direction),
        Err(r) => Told::Refused(r),
    }
}

// What a failure would do.
fn previewed(s: Session, p: usize) -> Told {
    let r = previews::preview(s, true, p);
    match r.answer {
        Ok(()) => Told::Foretold(r.foretold.direction, previews::count_changes(s, r.foretold)),
        Err(e) => Told::Refused(e),
    }
}

// The direction that a session has at a position, 0 where it has none.
fn direction_at(s: Session, p: usize) -> u8 {
    s.directions.get(p).copied().unwrap_or(0)
}

// Does what a line asks: the session that is held then, and the answer.
fn carry_out(s: Session, asked: Asked, p: usize) -> (Session, Told)
    ensures { result.0 ≡ held_after s asked p }
{
    match asked {
        Asked::Fail => {
            let r = sessions::report(s, true, p);
            (r.session, reported(r.answer, direction_at(r.session, p)))
        }
        Asked::Recover => {
            let r = sessions::report(s, false, p);
            (r.session, reported(r.answer, direction_at(s, p)))
        }
        Asked::Preview => (s, previewed(s, p)),
    }
}

// Tells what each line of a text is answered, up to the first that is wrong.
fn tell_all(rt: &impl Print, first: Session, text: &[u8]) -> std::io::Result<()> {
    let mut held = first;
    for (i, line) in Lines::of(text).enumerate() {
        let words = FirstWords::of(line);
        let words = words.as_slice();
        if matches!(words, [] | [[b'#', ..], ..]) {
            continue;
        }
        let Some(line) = Line::of(words) else {
            return println!(rt; "wrong {}", i + 1);
        };
        let (after, told) = carry_out(held, line.asked, line.position());
        println!(rt; "{line} {told}")?;
        held = after;
    }
    Ok(())
}

// Why two files start no session.
#[derive(Clone, Copy)]
enum NoSession {
    Map(Refusal),
    Plan(Refusal),
    Sizes(Head, Head),
    Refused(Refusal),
}

impl fmt::Display for NoSession {
    fn fmt<W: fmt::Write>(&self, f: &mut fmt::Formatter<W>) -> fmt::Result {
        match self {
            NoSession::Map(r) => write!(f, "map refused {} {}", r.number(), r.place),
            NoSession::Plan(r) => write!(f, "plan refused {} {}", r.number(), r.place),
            NoSession::Sizes(map, plan) => {
                write!(
                    f,
                    "sizes {} {} {} {}",
                    map.rows, map.columns, plan.rows, plan.columns
                )
            }
            NoSession::Refused(r) => write!(f, "no plan {} {} {}", r.number(), r.place, r.second),
        }
    }
}

// The session that a map file and a plan file start, and the head of the plan.
fn start(map: &[u8], plan: &[u8]) -> Result<(Session, Head), NoSession> {
    let mut grid = [2u8; 1024];
    let map = match readers::read_map(map, &mut grid) {
        Ok(head) => head,
        Err(r) => return Err(NoSession::Map(r)),
    };
    let mut directions = [0u8; 1024];
    let plan = match readers::read_plan(plan, &mut directions) {
        Ok((head, _)) => head,
        Err(r) => return Err(NoSession::Plan(r)),
    };
    if map.rows != plan.rows || map.columns != plan.columns {
        return Err(NoSession::Sizes(map, plan));
    }
    let r = sessions::start_session(map.rows, map.columns, &grid, &directions);
    match r.answer {
        Ok(()) => Ok((r.session, plan)),
        Err(e) => Err(NoSession::Refused(e)),
    }
}

// Tells of the session that the files start, and of each line of the text.
fn tell(rt: &impl Print, map: &[u8], plan: &[u8], text: &[u8]) -> std::io::Result<()> {
    if 65536 <= text.len() {
        return println!(rt; "long");
    }
    match start(map, plan) {
        Ok((session, head)) => {
            println!(rt; "session {} {} {}", head.rows, head.columns, head.count)?;
            tell_all(rt, session, text)
        }
        Err(e) => println!(rt; "{e}"),
    }
}

fn main() {
    let mut map = io::buffer();
    let n = io::read_full(MAP, &mut map);
    let mut plan = io::buffer();
    let k = io::read_full(PLAN, &mut plan);
    let mut text = io::large_buffer();
    let length = io::read_full(STDIN_FILENO, &mut text);
    // What cannot be written is lost: the status stays 0.
    let _ = tell(&Console, &map[..n], &plan[..k], &text[..length]);
}
