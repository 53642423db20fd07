// Counters: how many kept paths stand in the way of a path from each inner position, by direction. Inner parts of sessions.
#![tactic(auto)]

ghost use Rattle.std.specs.Prelude.{◌≡◌, true, ◌≤◌};
ghost use Rattle.array.specs.Place.{position, inner_at};
ghost use Rattle.array.specs.Buffer.{zeros};
ghost use Rattle.paths.specs.Table.{ClashTable};
ghost use Rattle.counters.specs.Count.{counts, altered_by, counters_after, counters_afresh};
ghost use Rattle.counters.specs.Inner.{Kept, is_coming, altered_here};

use array::Shape;
use paths::Path;

// What happens to a kept path.
#[derive(Clone, Copy, Debug, PartialEq, Eq)]
pub enum Change {
    Comes,
    Goes,
}

impl Change {
    // A counter up or down by 1, and not beyond 255 or 0.
    fn alter(self, counter: u8) -> u8
        ensures { result ≡ altered_by (is_coming self) counter }
    {
        match self {
            Change::Comes => counter.saturating_add(1),
            Change::Goes => counter.saturating_sub(1),
        }
    }
}

// Whether a kept path counts in the counter of direction d at row x and column y, an inner position.
fn does_count(path: Path, table: &[u8; 400], d: u8, x: usize, y: usize) -> bool
    requires lookup { ClashTable table.now × (1 ≤ d) × (d ≤ 4) }
    requires inside { inner_at path.shape.rows path.shape.columns x y ≡ true }
    ensures { result ≡ counts path.shape.rows path.shape.columns d (position x y) path.start path.direction }
{
    if 32 * x + y == path.start {
        return false;
    }
    let found = paths::find_entry(
        table,
        x as u8,
        y as u8,
        d,
        (path.start / 32) as u8,
        (path.start % 32) as u8,
        path.direction,
    );
    found != paths::CLEAR
}

// Alters the counter of direction d at row x and column y, an inner position, where a kept path counts in it.
fn alter_at(
    path: Path,
    table: &[u8; 400],
    change: Change,
    d: u8,
    x: usize,
    y: usize,
    counters: &mut [u8; 1024],
)
    requires lookup { ClashTable table.now × (1 ≤ d) × (d ≤ 4) }
    requires inside { inner_at path.shape.rows path.shape.columns x y ≡ true }
    ensures { counters.new ≡ altered_here path.shape.rows path.shape.columns (is_coming change)
        path.start path.direction d (position x y) counters.old }
{
    if does_count(path, table, d, x, y) {
        counters[32 * x + y] = change.alter(counters[32 * x + y]);
    }
}

// Alters the counters of direction d in which a kept path counts. It goes by row and column, so that what depends on
// the row alone is computed once for a row.
pub fn alter_counters(
    path: Path,
    table: &[u8; 400],
    change: Change,
    d: u8,
    counters: &mut [u8; 1024],
)
    requires { ClashTable table.now × (1 ≤ d) × (d ≤ 4) }
    ensures { counters.new ≡ counters_after path.shape.rows path.shape.columns (is_coming change)
        path.start path.direction d counters.old }
{
    for x in 1..path.shape.rows + 1 {
        for y in 1..path.shape.columns + 1 {
            alter_at(path, table, change, d, x, y, counters);
        }
    }
}

// The same of all four directions in one pass, so that what depends on the position alone is computed once for it.
pub fn alter_all(
    path: Path,
    table: &[u8; 400],
    change: Change,
    south: &mut [u8; 1024],
    north: &mut [u8; 1024],
    east: &mut [u8; 1024],
    west: &mut [u8; 1024],
)
    requires { ClashTable table.now }
    ensures { (south.new ≡ counters_after path.shape.rows path.shape.columns (is_coming change) path.start path.direction 1 south.old)
        × (north.new ≡ counters_after path.shape.rows path.shape.columns (is_coming change) path.start path.direction 2 north.old)
        × (east.new ≡ counters_after path.shape.rows path.shape.columns (is_coming change) path.start path.direction 3 east.old)
        × (west.new ≡ counters_after path.shape.rows path.shape.columns (is_coming change) path.start path.direction 4 west.old) }
{
    for x in 1..path.shape.rows + 1 {
        for y in 1..path.shape.columns + 1 {
            alter_at(path, table, change, 1, x, y, south);
            alter_at(path, table, change, 2, x, y, north);
            alter_at(path, table, change, 3, x, y, east);
            alter_at(path, table, change, 4, x, y, west);
        }
    }
}

// The counters of direction d, made afresh from a plan's directions: its paths come one by one.
pub fn count_afresh(table: &[u8; 400], shape: Shape, directions: &[u8], d: u8) -> [u8; 1024]
    requires { ClashTable table.now × Kept shape.rows shape.columns directions.now × (1 ≤ d) × (d ≤ 4) }
    ensures { result ≡ counters_afresh shape.rows shape.columns directions.now d }
{
    let mut counters = [0; 1024];
    for (start, &direction) in directions.iter().enumerate() {
        if direction != 0 {
            let path = Path {
                shape,
                start,
                direction,
            };
            alter_counters(path, table, Change::Comes, d, &mut counters);
        }
    }
    counters
}

// The counters of all four directions, made afresh from a plan's directions over buffers that hold 0.
pub fn count_all(
    shape: Shape,
    directions: &[u8],
    south: &mut [u8; 1024],
    north: &mut [u8; 1024],
    east: &mut [u8; 1024],
    west: &mut [u8; 1024],
)
    requires { Kept shape.rows shape.columns directions.now × (south.old ≡ zeros) × (north.old ≡ zeros) × (east.old ≡ zeros)
        × (west.old ≡ zeros) }
    ensures { (south.new ≡ counters_afresh shape.rows shape.columns directions.now 1)
        × (north.new ≡ counters_afresh shape.rows shape.columns directions.now 2)
        × (east.new ≡ counters_afresh shape.rows shape.columns directions.now 3)
        × (west.new ≡ counters_afresh shape.rows shape.columns directions.now 4) }
{
    let table = paths::clash_table();
    for (start, &direction) in directions.iter().enumerate() {
        if direction != 0 {
            let path = Path {
                shape,
                start,
                direction,
            };
            alter_all(path, &table, Change::Comes, south, north, east, west);
        }
    }
}
