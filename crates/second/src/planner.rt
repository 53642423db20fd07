// The second planner: trials by masks. A line is a column for a vertical path and a row for a horizontal one, and a mask has a bit for each place
// along a line. Bits past the last spare change nothing: no fault and no start is there, and two paths that share such a place share the spare.
ghost use Rattle.std.specs.Prelude.{◌<◌, ◌≤◌};

use crate::maps::{Direction, Map, Path, Plan, Spot};

#[derive(Clone, Copy, PartialEq, Eq)]
pub enum Outcome {
    Repaired,
    Beyond,
    Spent,
}

// What a planner answers: T, or the limit where it is spent, and the plan, which is empty unless the map is repaired.
#[derive(Clone, Copy, PartialEq, Eq)]
pub struct Planned {
    pub outcome: Outcome,
    pub trials: u32,
    pub plan: Plan,
}

impl Planned {
    pub fn is_spent(&self) -> bool {
        self.outcome == Outcome::Spent
    }
}

fn bit(i: usize) -> u32 {
    1 << (i % 32)
}

// The bits above i, or below i.
fn bits_beyond(i: usize, above: bool) -> u32 {
    let from = u32::MAX << (i % 32);
    if above { from << 1 } else { !from }
}

impl Path {
    fn line(self) -> usize
        ensures { result < 32 }
    {
        if self.direction.is_vertical() {
            self.start.column
        } else {
            self.start.row
        }
    }

    // The start on its line.
    fn along(self) -> usize
        ensures { result < 32 }
    {
        if self.direction.is_vertical() {
            self.start.row
        } else {
            self.start.column
        }
    }

    fn first_bit(self) -> u32 {
        bit(self.along())
    }

    // The places after its start that a path takes up on its line.
    fn bits_ahead(self) -> u32 {
        bits_beyond(self.along(), self.direction.is_forward())
    }

    fn bits(self) -> u32 {
        self.first_bit() | self.bits_ahead()
    }
}

// The faults of each row and of each column, and the places in each row at which no path may start, by its direction.
#[derive(Clone, Copy)]
struct Lines {
    rows: [u32; 32],
    columns: [u32; 32],
    stuck: [[u32; 32]; 4],
}

impl Lines {
    fn of(map: &Map) -> Lines {
        let mut lines = Lines {
            rows: [0; 32],
            columns: [0; 32],
            stuck: [[0; 32]; 4],
        };
        for spot in (0..1024).map(Spot::at) {
            lines.add(map, spot);
        }
        lines
    }

    // Sets the bits of a spot where it is faulty.
    fn add(&mut self, map: &Map, start: Spot) {
        if map.is_fault(start) {
            self.rows[start.row] |= bit(start.column);
            self.columns[start.column] |= bit(start.row);
        }
        for (stuck, direction) in self.stuck.iter_mut().zip(Direction::ALL) {
            if (Path { start, direction }).is_stuck(map) {
                stuck[start.row] |= bit(start.column);
            }
        }
    }

    // Whether the path may not start there, or a fault lies ahead of it.
    fn is_closed(&self, path: Path) -> bool {
        let stuck = self.stuck[path.direction as usize][path.start.row];
        let faults = if path.direction.is_vertical() {
            self.columns[path.start.column]
        } else {
            self.rows[path.start.row]
        };
        stuck & bit(path.start.column) != 0 || faults & path.bits_ahead() != 0
    }
}

// The paths that are kept: the processors taken in each row, and the starts on each line, by the direction.
#[derive(Clone, Copy)]
struct Kept {
    taken: [u32; 32],
    starts: [[u32; 32]; 4],
}

impl Kept {
    const NONE: Kept = Kept {
        taken: [0; 32],
        starts: [[0; 32]; 4],
    };

    // Whether a kept path in the opposite direction starts ahead on a line beside.
    fn is_near(&self, path: Path) -> bool {
        let starts = &self.starts[path.direction.opposite() as usize];
        let beside = starts[(path.line() + 1) % 32] | starts[(path.line() + 31) % 32];
        beside & path.bits_ahead() != 0
    }

    // Whether a processor of the path is taken.
    fn is_taken(&self, path: Path) -> bool {
        let bits = path.bits();
        if path.direction.is_vertical() {
            let column = bit(path.start.column);
            self.taken
                .iter()
                .enumerate()
                .any(|(x, row)| bits & bit(x) != 0 && row & column != 0)
        } else {
            self.taken[path.start.row] & bits != 0
        }
    }

    // The kept paths with one more.
    fn with(&self, path: Path) -> Kept {
        let mut more = *self;
        let starts = &mut more.starts[path.direction as usize];
        starts[path.line()] |= path.first_bit();
        let bits = path.bits();
        if path.direction.is_vertical() {
            let column = bit(path.start.column);
            for (x, row) in more.taken.iter_mut().enumerate() {
                if bits & bit(x) != 0 {
                    *row |= column;
                }
            }
        } else {
            more.taken[path.start.row] |= bits;
        }
        more
    }
}

// The error of a search whose limit does not allow a further trial.
#[derive(Clone, Copy)]
struct Spent;

// A search: the map, its masks, the directions given so far, and how many trials are made and allowed.
#[derive(Drop)]
struct Search<'a> {
    map: &'a Map,
    lines: Lines,
    plan: Plan,
    trials: u32,
    limit: u32,
}

impl Search<'_> {
    // Makes a trial: whether a path is open and clear of the kept ones.
    fn is_free(&mut self, kept: &Kept, path: Path) -> Result<bool, Spent> {
        if self.limit <= self.trials {
            return Err(Spent);
        }
        self.trials += 1;
        Ok(!self.lines.is_closed(path) && !kept.is_near(path) && !kept.is_taken(path))
    }

    // Gives the faults from a position on their directions, in all ways until one succeeds. Answers whether one does.
    fn extend(&mut self, from: usize, kept: &Kept) -> Result<bool, Spent> {
        let Some(start) = self.map.next_fault(from) else {
            return Ok(true);
        };
        for direction in Direction::ALL {
            let path = Path { start, direction };
            if self.is_free(kept, path)? {
                self.plan.put(path);
                if self.extend(start.position() + 1, &kept.with(path))? {
                    return Ok(true);
                }
            }
        }
        Ok(false)
    }
}

// The planner on a well-formed map.
pub fn plan(map: &Map, limit: u32) -> Planned {
    let mut search = Search {
        map,
        lines: Lines::of(map),
        plan: Plan::EMPTY,
        trials: 0,
        limit,
    };
    match search.extend(0, &Kept::NONE) {
        Ok(true) => Planned {
            outcome: Outcome::Repaired,
            trials: search.trials,
            plan: search.plan,
        },
        Ok(false) => Planned {
            outcome: Outcome::Beyond,
            trials: search.trials,
            plan: Plan::EMPTY,
        },
        Err(Spent) => Planned {
            outcome: Outcome::Spent,
            trials: limit,
            plan: Plan::EMPTY,
        },
    }
}
