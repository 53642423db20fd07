// The search for a plan. The functions are inner parts of the planner: each takes what the planner has tested.
#![tactic(auto)]

ghost use Rattle.std.specs.Prelude.{◌≡◌, [], ℕ, ◌≤◌, ◌<◌, length, get_or, take};
ghost use Rattle.array.specs.Buffer.{buffer, zeros};
ghost use Rattle.paths.specs.Path.{is_open};
ghost use Rattle.paths.specs.Table.{ClashTable};
ghost use Rattle.plans.specs.Faults.{faults, paired};
ghost use Rattle.plans.specs.Inner.{Beside};
ghost use Rattle.trials.specs.Search.{searched, planned, outcome, direction_of, directions_written};
ghost use Rattle.trials.specs.Inner.{kept_in, keeps_on, KeptFront, KeptAt, entries_clear, Searchable, Noted, Holds, finished};

use array::Map;
use paths::{CLEAR, Path};

// What is noted of a path.
const UNKNOWN: u8 = 0;

const CLOSED: u8 = 1;

const OPEN: u8 = 2;

// The planner's outcome, with its count: T, or the limit where the search is spent.
#[derive(Clone, Copy, Debug, PartialEq, Eq)]
pub enum Outcome {
    Repaired(u32),
    Beyond(u32),
    Spent(u32),
}

// What the trials work over: the array, its faults with their rows and columns, and the clash table.
#[derive(Drop)]
struct Trials<'a> {
    map: Map<'a>,
    starts: &'a [u16],
    rows: &'a [u8],
    columns: &'a [u8],
    table: &'a [u8; 400],
    ghost searchable: { Searchable map.shape.rows map.shape.columns map.grid.now starts.now },
    ghost beside: { Beside starts.now rows.now columns.now },
    ghost clashes: { ClashTable table.now },
}

impl Trials<'_> {
    // Whether the path of direction d from fault k is open. The grid is asked once; `notes` has what it answered, at 4 k + d - 1.
    fn is_open_once(&self, notes: &mut [u8], k: usize, d: u8) -> bool
        requires { Noted self.now.map.shape.rows self.now.map.shape.columns self.now.map.grid.now
            self.now.starts.now notes.old
            × (k < length self.now.starts.now) × (1 ≤ d) × (d ≤ 4) }
        ensures answer { result ≡ is_open self.now.map.shape.rows self.now.map.shape.columns self.now.map.grid.now
            (get_or self.now.starts.now k 0) d }
        ensures noted { Noted self.now.map.shape.rows self.now.map.shape.columns self.now.map.grid.now
            self.now.starts.now notes.new }
    {
        let at = 4 * k + usize::from(d) - 1;
        let note = notes[at];
        if note != UNKNOWN {
            return note == OPEN;
        }
        let path = Path {
            shape: self.map.shape,
            start: usize::from(self.starts[k]),
            direction: d,
        };
        if path.is_open(self.map.grid) {
            notes[at] = OPEN;
            return true;
        }
        notes[at] = CLOSED;
        false
    }

    // Whether the path of direction d from fault k is clear of those that the faults before it have kept, by the clash table.
    fn is_clear_of(&self, chosen: &[u8], k: usize, d: u8) -> bool
        requires { KeptAt self.now.rows.now self.now.columns.now chosen.now k d }
        ensures { result ≡ entries_clear self.now.rows.now self.now.columns.now chosen.now k d k }
    {
        let x = self.rows[k];
        let y = self.columns[k];
        for j in (0..k).rev() {
            let found = paths::find_entry(
                self.table,
                self.rows[j],
                self.columns[j],
                chosen[j],
                x,
                y,
                d,
            );
            if found != CLEAR {
                return false;
            }
        }
        true
    }

    // Whether fault k keeps direction d, after the directions that the faults before it have kept.
    fn is_kept(&self, notes: &mut [u8], chosen: &[u8], k: usize, d: u8) -> bool
        requires { Noted self.now.map.shape.rows self.now.map.shape.columns self.now.map.grid.now
            self.now.starts.now notes.old
            × (length self.now.starts.now ≤ length chosen.now) × (k < length self.now.starts.now)
            × KeptFront (is_open self.now.map.shape.rows self.now.map.shape.columns self.now.map.grid.now)
            self.now.starts.now chosen.now k × (1 ≤ d) × (d ≤ 4) }
        ensures kept { result ≡ keeps_on self.now.map.shape.rows self.now.map.shape.columns self.now.map.grid.now
            (kept_in self.now.starts.now chosen.now k) (get_or self.now.starts.now k 0) d }
        ensures noted { Noted self.now.map.shape.rows self.now.map.shape.columns self.now.map.grid.now
            self.now.starts.now notes.new }
    {
        if !self.is_open_once(notes, k, d) {
            return false;
        }
        // a south path is clear of the open paths that start before it
        if d == 1 {
            return true;
        }
        self.is_clear_of(chosen, k, d)
    }

    // The trials over the faults. Fault k is offered direction d next, and `spent` trials are made.
    fn search(&self, notes: &mut [u8], chosen: &mut [u8], limit: u32) -> Outcome
        requires { Noted self.now.map.shape.rows self.now.map.shape.columns self.now.map.grid.now
            self.now.starts.now notes.old
            × (length self.now.starts.now ≤ length chosen.old) }
        ensures outcome { result ≡ outcome limit
            (searched self.now.map.shape.rows self.now.map.shape.columns self.now.map.grid.now [] self.now.starts.now) }
        ensures plan { Holds limit (searched self.now.map.shape.rows self.now.map.shape.columns self.now.map.grid.now
            [] self.now.starts.now) (take (length self.now.starts.now) chosen.new) }
    {
        let mut k: usize = 0;
        let mut d: u8 = 1;
        let mut spent: u32 = 0;
        while k < self.starts.len() {
            if 4 < d {
                if k == 0 {
                    return Outcome::Beyond(spent);
                }
                k -= 1;
                d = chosen[k] + 1;
            } else {
                if spent == limit {
                    return Outcome::Spent(limit);
                }
                spent += 1;
                if self.is_kept(notes, chosen, k, d) {
                    chosen[k] = d;
                    k += 1;
                    d = 1;
                } else {
                    d += 1;
                }
            }
        }
        Outcome::Repaired(spent)
    }
}

// Inner part: the search, over room of its own.
pub fn search_within(map: &Map, starts: &[u16], chosen: &mut [u8], limit: u32) -> Outcome
    requires { Searchable map.now.shape.rows map.now.shape.columns map.now.grid.now starts.now
        × (length starts.now ≤ 1024) × (length starts.now ≤ length chosen.old) }
    ensures outcome { result
        ≡ outcome limit (searched map.now.shape.rows map.now.shape.columns map.now.grid.now [] starts.now) }
    ensures plan { Holds limit (searched map.now.shape.rows map.now.shape.columns map.now.grid.now [] starts.now)
        (take (length starts.now) chosen.new) }
{
    let mut rows = [0u8; 1024];
    let mut columns = [0u8; 1024];
    let mut notes = [0u8; 4096];
    plans::note_places(starts, &mut rows, &mut columns);
    let table = paths::clash_table();
    let trials = Trials {
        map: *map,
        starts,
        rows: &rows,
        columns: &columns,
        table: &table,
    };
    trials.search(&mut notes, chosen, limit)
}

// Inner part: writes 0 in the whole direction buffer.
pub fn wipe(directions: &mut [u8; 1024])
    ensures { directions.new ≡ zeros }
{
    directions.fill(0);
}

// Inner part: writes the direction of each fault at its start, and 0 elsewhere.
pub fn write_plan(starts: &[u16], chosen: &[u8], directions: &mut [u8; 1024])
    requires { (length starts.now ≤ length chosen.now) × ((i : ℕ) → i < length starts.now → get_or starts.now i 0 < 1024) }
    ensures { directions.new ≡ buffer (direction_of (paired starts.now chosen.now)) }
{
    wipe(directions);
    for k in (0..starts.len()).rev() {
        directions[usize::from(starts[k])] = chosen[k];
    }
}

// Inner part: writes the direction buffer by the outcome: the directions chosen, or 0 everywhere.
pub fn write_found(found: Outcome, starts: &[u16], chosen: &[u8], directions: &mut [u8; 1024])
    requires { (length starts.now ≤ length chosen.now) × ((i : ℕ) → i < length starts.now → get_or starts.now i 0 < 1024) }
    ensures { directions.new ≡ finished starts.now chosen.now found }
{
    match found {
        Outcome::Repaired(_) => write_plan(starts, chosen, directions),
        Outcome::Beyond(_) | Outcome::Spent(_) => wipe(directions),
    }
}

// Inner part: the planner on a map. It lists the faults, searches over them, and writes the direction buffer.
#[inline(never)]
pub fn find_plan(map: &Map, directions: &mut [u8; 1024], limit: u32) -> Outcome
    ensures { (result ≡ outcome limit (planned map.now.shape.rows map.now.shape.columns map.now.grid.now))
        × (directions.new
        ≡ directions_written limit [] (faults map.now.shape.rows map.now.shape.columns map.now.grid.now)
        (planned map.now.shape.rows map.now.shape.columns map.now.grid.now)) }
{
    let mut starts = [0u16; 1024];
    let mut chosen = [0u8; 1024];
    let Map { shape, grid } = *map;
    let count = plans::list_faults(shape.rows, shape.columns, grid, &mut starts);
    let found = search_within(map, &starts[..count], &mut chosen, limit);
    write_found(found, &starts[..count], &chosen[..count], directions);
    found
}
