// The quick planner: it settles outer faults first, and searches over the rest.
// The functions are inner parts: each takes what the planner has tested.
#![tactic(auto)]

ghost use Rattle.std.specs.Prelude.{◌≡◌, ◌&&◌, eqb, ◌-◌, ◌≤◌, ◌<◌, length, take, IfSome, unwrap_or};
ghost use Rattle.array.specs.Buffer.{buffer};
ghost use Rattle.paths.specs.Path.{is_open, Start};
ghost use Rattle.plans.specs.Faults.{faults};
ghost use Rattle.trials.specs.Inner.{Searchable};
ghost use Rattle.trials.specs.Search.{outcome, directions_written};
ghost use Rattle.peeling.specs.Peel.{peeled_on, unpeeled_on, quick_planned};
ghost use Rattle.peeling.specs.Inner.{Positions, depth, Least, SideSays, without, Split, positions, directions, held_faults};
ghost use Rattle.peeling.specs.Inner.{direction_over, completed_by};

use array::Map;
use paths::Path;
use trials::Outcome;

// A settled fault.
#[derive(Clone, Copy)]
struct Settled {
    position: u16,
    direction: u8,
}

// How far in p lies on the side d: of some positions those furthest out have the smallest number.
fn depth(p: usize, d: u8) -> usize
    requires { (p < 1024) × (1 ≤ d) × (d ≤ 4) }
    ensures { result ≡ depth d p }
{
    match d {
        1 => 31 - p / 32,
        2 => p / 32,
        3 => 31 - p % 32,
        _ => p % 32,
    }
}

// The least depth of the faults left, on the side d.
fn find_least(left: &[u16], d: u8) -> usize
    requires { Positions left.now × (1 ≤ d) × (d ≤ 4) }
    ensures { Least d left.now (length left.now) result }
{
    let mut least: usize = 31;
    for &p in left {
        least = least.min(depth(usize::from(p), d));
    }
    least
}

// Whether p lies at this depth on the side d, and its path there is open. (The path is made where the depth is right: most faults have another.)
fn is_outward(map: &Map, p: usize, d: u8, least: usize) -> bool
    requires { Start map.now.shape.rows map.now.shape.columns p d }
    ensures { result ≡ (eqb (depth d p) least
        && is_open map.now.shape.rows map.now.shape.columns map.now.grid.now p d) }
{
    if depth(p, d) != least {
        return false;
    }
    let path = Path {
        shape: map.shape,
        start: p,
        direction: d,
    };
    path.is_open(map.grid)
}

// Where the first of the faults left stands that is outermost on the side d and has an open path there. (Inlined, its loop gets
// slower by a third, since the compiler keeps counters in it for what the caller does with the place.)
#[inline(never)]
fn find_outward(map: &Map, left: &[u16], d: u8) -> Option<usize>
    requires { Searchable map.now.shape.rows map.now.shape.columns map.now.grid.now left.now × (1 ≤ d) × (d ≤ 4) }
    ensures within { IfSome result (λ k. k < length left.now) }
    ensures says { SideSays (is_open map.now.shape.rows map.now.shape.columns map.now.grid.now)
        left.now d (unwrap_or result (length left.now)) }
{
    let least = find_least(left, d);
    for (k, &p) in left.iter().enumerate() {
        if is_outward(map, usize::from(p), d, least) {
            return Some(k);
        }
    }
    None
}

// Takes the element with the number `at` out of a list; the last place keeps what it held. (The planner is
// slower by a third with copy_within, which is no wide copy.)
fn remove(left: &mut [u16], at: usize)
    requires { at < length left.old }
    ensures { take (length left.old - 1) left.new ≡ without at left.old }
{
    for k in at..left.len() - 1 {
        left[k] = left[k + 1];
    }
}

// How many faults are settled: `held` gets them, and `left` keeps the others.
fn peel(map: &Map, left: &mut [u16], held: &mut [Settled]) -> usize
    requires { (left.old ≡ faults map.now.shape.rows map.now.shape.columns map.now.grid.now)
        × (length left.old ≤ length held.old) }
    ensures { Split map.now.shape.rows map.now.shape.columns map.now.grid.now
        left.new (positions held.new) (directions held.new) result }
{
    let count = left.len();
    let mut settled = 0;
    let mut d: u8 = 4;
    while 0 < d {
        let rest = count - settled;
        if let Some(at) = find_outward(map, &left[..rest], d) {
            held[settled] = Settled {
                position: left[at],
                direction: d,
            };
            remove(&mut left[..rest], at);
            settled += 1;
            d = 4;
        } else {
            d -= 1;
        }
    }
    settled
}

// Writes the directions of the settled faults.
fn write_held(held: &[Settled], directions: &mut [u8; 1024])
    requires { Positions (positions held.now) }
    ensures { directions.new ≡ buffer (direction_over (held_faults held.now) directions.old) }
{
    for fault in held {
        directions[usize::from(fault.position)] = fault.direction;
    }
}

// Writes the directions of the settled faults where a plan was found.
fn complete(found: Outcome, held: &[Settled], directions: &mut [u8; 1024])
    requires { Positions (positions held.now) }
    ensures { directions.new ≡ completed_by (held_faults held.now) directions.old found }
{
    match found {
        Outcome::Repaired(_) => write_held(held, directions),
        Outcome::Beyond(_) | Outcome::Spent(_) => {}
    }
}

// The outcome of the quick planner on a map, with the direction buffer written.
#[inline(never)]
pub fn find_plan(map: &Map, directions: &mut [u8; 1024], limit: u32) -> Outcome
    ensures { (result ≡ outcome limit (quick_planned map.now.shape.rows map.now.shape.columns map.now.grid.now))
        × (directions.new ≡ directions_written limit (peeled_on map.now.shape.rows map.now.shape.columns map.now.grid.now)
        (unpeeled_on map.now.shape.rows map.now.shape.columns map.now.grid.now)
        (quick_planned map.now.shape.rows map.now.shape.columns map.now.grid.now)) }
{
    let mut left = [0u16; 1024];
    let mut held = [Settled {
        position: 0,
        direction: 0,
    }; 1024];
    let mut chosen = [0u8; 1024];
    let Map { shape, grid } = *map;
    let count = plans::list_faults(shape.rows, shape.columns, grid, &mut left);
    let settled = peel(map, &mut left[..count], &mut held);
    let rest = count - settled;
    let found = trials::search_within(map, &left[..rest], &mut chosen, limit);
    trials::write_found(found, &left[..rest], &chosen[..rest], directions);
    complete(found, &held[..settled], directions);
    found
}
