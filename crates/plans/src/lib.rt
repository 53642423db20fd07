// Plans: the inner faults in row order, and the plan check.
#![tactic(auto)]

ghost use Rattle.std.specs.Prelude.{◌≡◌, true, ℕ, ◌≤◌, ◌<◌, length, get_or, IfOk};
ghost use Rattle.array.specs.Map.{inner_fault};
ghost use Rattle.array.specs.Tests.{told, verdict_of};
ghost use Rattle.paths.specs.Table.{ClashTable};
ghost use Rattle.plans.specs.Faults.{faults, directions_at, fault_at, paired, directed_faults};
ghost use Rattle.plans.specs.Check.{wrong_direction, directions_test, open_test, opens_test, paths_test, plan_tests, check_plan};
ghost use Rattle.plans.specs.Inner.{Starts, Beside, PathsAt, PairTested, PairsTested, Listed, Directed};

mod directed;

use array::{Map, Reason, Refusal, Verdict};
pub use directed::DirectedMap;
use paths::Path;

// An inner fault with its position and the direction of its path, laid out as in C, where a caller may lend a list of them.
#[repr(C)]
#[derive(Clone, Copy)]
pub struct Fault {
    pub position: usize,
    pub direction: u8,
}

// check_plan is for callers; the other functions are inner parts.

// Inner part: writes the inner faults in row order to the front of `out`, and returns their number.
pub fn list_faults(n: usize, m: usize, grid: &[u8], out: &mut [u16]) -> usize
    requires { (length grid.now ≡ 1024) × (length out.old ≡ 1024) }
    ensures { Listed n m grid.now out.old out.new result }
{
    let mut count = 0;
    for p in 0..1024 {
        if array::is_inner_fault(n, m, p, grid[p]) {
            out[count] = p as u16;
            count += 1;
        }
    }
    count
}

fn is_wrong(map: &Map, p: usize, d: u8) -> bool
    requires { p < 1024 }
    ensures { result ≡ wrong_direction (inner_fault map.now.shape.rows map.now.shape.columns map.now.grid.now p) d }
{
    let fault = map.has_inner_fault(p);
    // most positions have no direction
    if d == 0 {
        return fault;
    }
    (4 < d) | !fault
}

// Test 4.
fn check_directions(map: &Map, directions: &[u8; 1024]) -> Verdict
    ensures { result ≡ directions_test map.now.shape.rows map.now.shape.columns map.now.grid.now directions.now }
{
    for (p, &d) in directions.iter().enumerate() {
        if is_wrong(map, p, d) {
            return Err(Refusal::at(Reason::Direction, p));
        }
    }
    Ok(())
}

// Inner part: writes the direction at each of these positions.
pub fn take_directions(directions: &[u8], starts: &[u16], out: &mut [u8])
    requires { (length out.old ≡ length starts.now)
        × ((k : ℕ) → k < length starts.now → get_or starts.now k 0 < length directions.now) }
    ensures { out.new ≡ directions_at directions.now starts.now }
{
    for (k, &start) in starts.iter().enumerate() {
        out[k] = directions[usize::from(start)];
    }
}

// Test 5 of the k-th fault. Fault k starts at starts[k] and has direction ds[k].
fn check_open_at(map: &Map, starts: &[u16], ds: &[u8], k: usize) -> Verdict
    requires { Starts map.now.shape.rows map.now.shape.columns starts.now ds.now × (k < length starts.now) }
    ensures { result ≡ open_test map.now.shape.rows map.now.shape.columns map.now.grid.now (fault_at starts.now ds.now k) }
{
    let path = Path {
        shape: map.shape,
        start: usize::from(starts[k]),
        direction: ds[k],
    };
    if !path.is_open(map.grid) {
        return Err(Refusal::at(Reason::NotOpen, path.start));
    }
    Ok(())
}

// Test 5.
fn check_opens(map: &Map, starts: &[u16], ds: &[u8]) -> Verdict
    requires { Starts map.now.shape.rows map.now.shape.columns starts.now ds.now }
    ensures { result ≡ opens_test map.now.shape.rows map.now.shape.columns map.now.grid.now (paired starts.now ds.now) }
{
    for k in 0..starts.len() {
        check_open_at(map, starts, ds, k)?;
    }
    Ok(())
}

// Inner part: writes the row and the column of each start beside it.
pub fn note_places(starts: &[u16], rows: &mut [u8], columns: &mut [u8])
    requires { (length starts.now ≤ length rows.old) × (length starts.now ≤ length columns.old)
        × ((i : ℕ) → i < length starts.now → get_or starts.now i 0 < 1024) }
    ensures { Beside starts.now rows.new columns.new }
{
    for (k, &p) in starts.iter().enumerate() {
        rows[k] = (p / 32) as u8;
        columns[k] = (p % 32) as u8;
    }
}

// Tests 6 and 7 of the i-th fault and of the j-th, a later one, whose paths are open.
fn check_pair_at(
    table: &[u8; 400],
    starts: &[u16],
    rows: &[u8],
    columns: &[u8],
    ds: &[u8],
    i: usize,
    j: usize,
) -> Verdict
    requires { ClashTable table.now × Beside starts.now rows.now columns.now × PathsAt starts.now ds.now
        × (i < j) × (j < length starts.now) }
    ensures { PairTested starts.now ds.now i j result }
{
    // a south path is clear of the open paths that start before it
    if ds[j] == 1 {
        return Ok(());
    }
    let found = paths::find_entry(
        table, rows[i], columns[i], ds[i], rows[j], columns[j], ds[j],
    );
    paths::check_clash(found, usize::from(starts[i]), usize::from(starts[j]))
}

// Tests 6 and 7 of open paths, pair by pair, left at the first pair that meets or is a near-miss. The table serves every size of array.
fn check_pairs(starts: &[u16], rows: &[u8], columns: &[u8], ds: &[u8]) -> Verdict
    requires { Beside starts.now rows.now columns.now × PathsAt starts.now ds.now }
    ensures { PairsTested starts.now ds.now result }
{
    let count = starts.len();
    let table = paths::clash_table();
    let mut found = Ok(());
    'pairs: for i in 0..count {
        for j in i + 1..count {
            if let Err(refusal) = check_pair_at(&table, starts, rows, columns, ds, i, j) {
                found = Err(refusal);
                break 'pairs;
            }
        }
    }
    found
}

// Tests 6 and 7, over room for the rows and columns of the starts.
fn check_placed(starts: &[u16], ds: &[u8]) -> Verdict
    requires { PathsAt starts.now ds.now × (length starts.now ≤ 1024) }
    ensures { PairsTested starts.now ds.now result }
{
    let mut rows = [0u8; 1024];
    let mut columns = [0u8; 1024];
    note_places(starts, &mut rows, &mut columns);
    check_pairs(starts, &rows, &columns, ds)
}

// Tests 5 to 7 of the inner faults of a map, which start at `starts`.
fn check_map_paths(map: &Map, starts: &[u16], ds: &[u8]) -> Verdict
    requires { Starts map.now.shape.rows map.now.shape.columns starts.now ds.now
        × (starts.now ≡ faults map.now.shape.rows map.now.shape.columns map.now.grid.now) }
    ensures { result ≡ paths_test map.now.shape.rows map.now.shape.columns map.now.grid.now (paired starts.now ds.now) }
{
    check_opens(map, starts, ds)?;
    check_placed(starts, ds)
}

// Inner part: tests 5 to 7 of the inner faults, which start at `starts`. Where there are none, N and M may be anything.
pub fn check_paths(n: usize, m: usize, grid: &[u8], starts: &[u16], ds: &[u8]) -> Verdict
    requires { Starts n m starts.now ds.now × (length grid.now ≡ 1024) × (starts.now ≡ faults n m grid.now) }
    ensures { result ≡ paths_test n m grid.now (paired starts.now ds.now) }
{
    if starts.is_empty() {
        return Ok(());
    }
    check_map_paths(&Map::new(n, m, grid), starts, ds)
}

// Tests 5 to 7, over room for the directions of the faults that start at `starts`.
fn check_listed(plan: &DirectedMap, starts: &[u16], room: &mut [u8]) -> Verdict
    requires { (starts.now ≡ faults plan.now.map.shape.rows plan.now.map.shape.columns plan.now.map.grid.now)
        × (length room.old ≡ length starts.now) }
    ensures { result ≡ paths_test plan.now.map.shape.rows plan.now.map.shape.columns plan.now.map.grid.now
        (directed_faults plan.now.map.shape.rows plan.now.map.shape.columns plan.now.map.grid.now plan.now.directions.now) }
{
    let directions = plan.directions;
    take_directions(directions, starts, room);
    check_map_paths(&plan.map, starts, room)
}

fn check_faults(plan: &DirectedMap) -> Verdict
    ensures { result ≡ paths_test plan.now.map.shape.rows plan.now.map.shape.columns plan.now.map.grid.now
        (directed_faults plan.now.map.shape.rows plan.now.map.shape.columns plan.now.map.grid.now plan.now.directions.now) }
{
    let mut starts = [0u16; 1024];
    let mut room = [0u8; 1024];
    let Map { shape, grid } = plan.map;
    let count = list_faults(shape.rows, shape.columns, grid, &mut starts);
    check_listed(plan, &starts[..count], &mut room[..count])
}

// Inner part: tests 1 to 7, where `right` says that every lent buffer has 1,024 elements, the grid and the directions among them.
#[tactic(auto, unfolding(crate::specs::Check::plan_tests))]
pub fn check_tests<'a>(
    n: usize,
    m: usize,
    right: bool,
    grid: &'a [u8],
    directions: &'a [u8],
) -> Result<DirectedMap<'a>, Refusal>
    requires { right ≡ true → (length grid.now ≡ 1024) × (length directions.now ≡ 1024) }
    ensures tests { verdict_of result ≡ plan_tests n m right grid.now directions.now }
    ensures plan { IfOk result (λ p. (p.map.shape.rows ≡ n) × (p.map.shape.columns ≡ m) × (p.map.grid.now ≡ grid.now)
        × (p.directions.now ≡ directions.now)) }
{
    let map = array::check_map(n, m, right, grid)?;
    let directions: &[u8; 1024] = directions.try_into().unwrap();
    check_directions(&map, directions)?;
    let plan = DirectedMap { map, directions };
    check_faults(&plan)?;
    Ok(plan)
}

// The plan check: whether the directions are a plan for the grid, or the first of tests 1 to 7 that refuses them.
pub fn check_plan(n: usize, m: usize, grid: &[u8], directions: &[u8]) -> Verdict
    ensures { told result ≡ told (check_plan n m grid.now directions.now) }
{
    let right = (grid.len() == 1024) & (directions.len() == 1024);
    check_tests(n, m, right, grid, directions)?;
    Ok(())
}
