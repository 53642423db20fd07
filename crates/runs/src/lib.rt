// One run: planner, placement, routing, and the follower on every link to a neighbour.
#![tactic(auto)]

ghost use Rattle.std.specs.Prelude.{◌≡◌, ◌≤◌, ◌<◌, length, get_or};
ghost use Rattle.track.specs.Ports.{wafer};
ghost use Rattle.repair.specs.Operations.{places_after, across_after, down_after, is_repaired};
ghost use Rattle.repair.specs.declared.Planner.TheVariants.{Trials, Quick, Exact};
ghost use Rattle.repair.specs.declared.Answer.TheVariants.{Planned, Decided};
ghost use Rattle.runs.specs.Run.{given, has_neighbour, neighbour_of, arrives_at, reached, links_reached, all_reached, links_found, RanAs};
ghost use Rattle.runs.specs.Inner.{Accepts, Laid};

mod placed;

use array::{Map, Shape};
use exact::Decision;
use follower::Wafer;
use placed::PlacedWafer;
use plans::DirectedMap;
use repair::{Answer, Planner};
use track::Followed;
use trials::Outcome;

// What a run answers: the refusal of its tests or the planner's answer, and how many links to a neighbour the follower found to reach it.
#[derive(Clone, Copy)]
pub struct Ran {
    pub answer: Answer,
    pub links: usize,
}

// repair_run, run_quickly and run_exactly are for callers; the other functions are inner parts.

fn is_repaired(answer: Answer) -> bool
    ensures { result ≡ is_repaired answer }
{
    matches!(
        answer,
        Answer::Planned(Outcome::Repaired(_)) | Answer::Decided(Decision::Repaired)
    )
}

// Whether p is a cell with a neighbour on a side.
fn has_neighbour(shape: Shape, side: usize, p: usize) -> bool
    ensures { result ≡ has_neighbour shape.rows shape.columns side p }
{
    if side == 0 {
        shape.is_inner(p) & (p % 32 < shape.columns)
    } else {
        shape.is_inner(p) & (p / 32 < shape.rows)
    }
}

// The position of the right (side 0) or lower neighbour's cell.
fn neighbour(side: usize, p: usize) -> usize
    requires { p < 1024 }
    ensures { result ≡ neighbour_of side p }
{
    if side == 0 { p + 1 } else { p + 32 }
}

// Whether the follower's answer is that the link enters at q, by the port of its side (W or N), over at most three switches.
fn arrives(q: usize, side: usize, f: Followed) -> bool
    requires { side < 2 }
    ensures { result ≡ arrives_at q side f }
{
    match f {
        Ok(l) => ((l.position == q) & (l.port as usize == 2 * side)) & (l.switches <= 3),
        Err(_) => false,
    }
}

// After `repaired`, where placement and routing would accept: writes both, and returns how many links are then found to reach their
// neighbour.
fn complete(
    map: &Map,
    directions: &[u8; 1024],
    places: &mut [u16; 1024],
    across: &mut [u8; 1024],
    down: &mut [u8; 1024],
) -> usize
    requires { Accepts map.now.shape.rows map.now.shape.columns map.now.grid.now directions.now places.old across.old down.old }
    ensures links { result ≡ links_found map.now.shape.rows map.now.shape.columns map.now.grid.now directions.now places.old across.old down.old }
    ensures places { places.new ≡ places_after map.now.shape.rows map.now.shape.columns map.now.grid.now directions.now places.old }
    ensures across { across.new ≡ across_after map.now.shape.rows map.now.shape.columns map.now.grid.now directions.now across.old down.old }
    ensures down { down.new ≡ down_after map.now.shape.rows map.now.shape.columns map.now.grid.now directions.now across.old down.old }
{
    let plan = DirectedMap {
        map: *map,
        directions,
    };
    routing::place(&plan, places);
    routing::route(&plan, across, down);
    let wafer = Wafer { plan, across, down };
    PlacedWafer { wafer, places }.count_all()
}

// One run with a planner.
pub fn run_by(
    planner: Planner,
    n: usize,
    m: usize,
    grid: &[u8],
    limit: u32,
    directions: &mut [u8],
    places: &mut [u16],
    across: &mut [u8],
    down: &mut [u8],
) -> Ran
    ensures { RanAs
        (given planner n m grid.now limit
        directions.old places.old across.old down.old)
        result directions.new places.new across.new down.new }
{
    let right = (grid.len() == 1024)
        & ((directions.len() == 1024)
            & ((places.len() == 1024) & ((across.len() == 1024) & (down.len() == 1024))));
    let map = match array::check_map(n, m, right, grid) {
        Ok(map) => map,
        Err(refusal) => {
            return Ran {
                answer: Answer::Refused(refusal),
                links: 0,
            };
        }
    };
    let directions: &mut [u8; 1024] = directions.as_mut_array().unwrap();
    let answer = repair::find_by(planner, &map, directions, limit);
    if !is_repaired(answer) {
        return Ran { answer, links: 0 };
    }
    let links = complete(
        &map,
        directions,
        places.as_mut_array().unwrap(),
        across.as_mut_array().unwrap(),
        down.as_mut_array().unwrap(),
    );
    Ran { answer, links }
}

// One run: the plan, and after `repaired` the placement, the switches and every link to a neighbour followed. After beyond
// repair and spent, `places`, `across` and `down` stay as they were lent.
pub fn repair_run(
    n: usize,
    m: usize,
    grid: &[u8],
    limit: u32,
    directions: &mut [u8],
    places: &mut [u16],
    across: &mut [u8],
    down: &mut [u8],
) -> Ran
    ensures { RanAs
        (given Trials n m grid.now limit
        directions.old places.old across.old down.old)
        result directions.new places.new across.new down.new }
{
    run_by(
        Planner::Trials,
        n,
        m,
        grid,
        limit,
        directions,
        places,
        across,
        down,
    )
}

// The same with the quick planner.
pub fn run_quickly(
    n: usize,
    m: usize,
    grid: &[u8],
    limit: u32,
    directions: &mut [u8],
    places: &mut [u16],
    across: &mut [u8],
    down: &mut [u8],
) -> Ran
    ensures { RanAs
        (given Quick n m grid.now limit
        directions.old places.old across.old down.old)
        result directions.new places.new across.new down.new }
{
    run_by(
        Planner::Quick,
        n,
        m,
        grid,
        limit,
        directions,
        places,
        across,
        down,
    )
}

// The same with the exact planner, which is given no limit.
pub fn run_exactly(
    n: usize,
    m: usize,
    grid: &[u8],
    directions: &mut [u8],
    places: &mut [u16],
    across: &mut [u8],
    down: &mut [u8],
) -> Ran
    ensures { RanAs
        (given Exact n m grid.now 0
        directions.old places.old across.old down.old)
        result directions.new places.new across.new down.new }
{
    run_by(
        Planner::Exact,
        n,
        m,
        grid,
        0,
        directions,
        places,
        across,
        down,
    )
}
