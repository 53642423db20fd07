// The exact planner, which is never spent (docs/EXACT.md). It tries pairs of faults; each pair leaves every other fault at
// most two directions, of which propagation finds the first that pass together; the first of these over all pairs is the
// first of all plans. The functions are inner parts: each requires what the planner has tested.
#![tactic(auto)]

ghost use Rattle.std.specs.Prelude.{◌≡◌, ℕ, ◌+◌, ◌*◌, ◌≤◌, ◌<◌, length, take, None, is_some, IfSome};
ghost use Rattle.plans.specs.Faults.{faults};
ghost use Rattle.trials.specs.Search.{planned};
ghost use Rattle.exact.specs.Exact.{decided, is_found, directions_found, HoldsFound};
ghost use Rattle.exact.specs.Inner.{Placed, Tabled, Bettered, SomeLeft};

mod faults;
mod pair;
mod propagation;
mod search;

use array::Map;
use faults::{Faults, Lists, Problem};
use paths::Path;

// What the exact planner decides: there is a plan, or there is none.
#[derive(Clone, Copy)]
pub enum Decision {
    Repaired,
    Beyond,
}

// Which directions are open to each fault, four for each.
fn list_open(map: &Map, starts: &[u16]) -> [bool; 512]
    requires { Placed map.now.shape.rows map.now.shape.columns starts.now }
    ensures { Tabled map.now.shape.rows map.now.shape.columns map.now.grid.now starts.now result }
{
    let mut open = [false; 512];
    for i in 0..4 * starts.len() {
        let path = Path {
            shape: map.shape,
            start: usize::from(starts[i / 4]),
            direction: (i % 4) as u8 + 1,
        };
        open[i] = path.is_open(map.grid);
    }
    open
}

// The first of the plans that any pair leaves. (Inlined, its lists would be cleared before the test whether every fault
// has a path.)
#[inline(never)]
fn find_over_pairs(faults: &Faults) -> Option<[u8; 128]>
    ensures { Bettered faults.now.starts.now faults.now.«open».now (SomeLeft faults.now.starts.now) None result }
{
    let lists = Lists::of(faults);
    let problem = Problem {
        faults: *faults,
        lists: &lists,
    };
    let mut best = None;
    search::try_pairs(&problem, false, &mut best);
    search::try_pairs(&problem, true, &mut best);
    best
}

// The first of all plans, where there is one.
fn find_best(map: &Map, starts: &[u16]) -> Option<[u8; 128]>
    requires { Placed map.now.shape.rows map.now.shape.columns starts.now
        × (starts.now ≡ faults map.now.shape.rows map.now.shape.columns map.now.grid.now) }
    ensures { (is_some result ≡ is_found (planned map.now.shape.rows map.now.shape.columns map.now.grid.now))
        × IfSome result (λ best. HoldsFound (planned map.now.shape.rows map.now.shape.columns map.now.grid.now)
        (take (length starts.now) best)) }
{
    let open = list_open(map, starts);
    let clashes = paths::clash_table();
    let faults = Faults {
        starts,
        open: &open,
        clashes: &clashes,
    };
    if !faults.have_paths() {
        return None;
    }
    find_over_pairs(&faults)
}

// Whether there is a plan for these faults, whose directions are written: each path of a plan has a spare of its own, so
// that there is none for more faults than spares.
fn find_among(map: &Map, starts: &[u16], directions: &mut [u8; 1024]) -> Decision
    requires { starts.now ≡ faults map.now.shape.rows map.now.shape.columns map.now.grid.now }
    ensures { (result ≡ decided (planned map.now.shape.rows map.now.shape.columns map.now.grid.now))
        × (directions.new ≡ directions_found (faults map.now.shape.rows map.now.shape.columns map.now.grid.now)
        (planned map.now.shape.rows map.now.shape.columns map.now.grid.now)) }
{
    let count = starts.len();
    if 2 * (map.shape.rows + map.shape.columns) < count {
        trials::wipe(directions);
        return Decision::Beyond;
    }
    match find_best(map, starts) {
        Some(best) => {
            trials::write_plan(starts, &best[..count], directions);
            Decision::Repaired
        }
        None => {
            trials::wipe(directions);
            Decision::Beyond
        }
    }
}

// The exact planner on a map that passes the tests 1 to 3.
#[inline(never)]
pub fn find_exactly(map: &Map, directions: &mut [u8; 1024]) -> Decision
    ensures { (result ≡ decided (planned map.now.shape.rows map.now.shape.columns map.now.grid.now))
        × (directions.new ≡ directions_found (faults map.now.shape.rows map.now.shape.columns map.now.grid.now)
        (planned map.now.shape.rows map.now.shape.columns map.now.grid.now)) }
{
    let mut starts = [0; 1024];
    let Map { shape, grid } = *map;
    let count = plans::list_faults(shape.rows, shape.columns, grid, &mut starts);
    find_among(map, &starts[..count], directions)
}
