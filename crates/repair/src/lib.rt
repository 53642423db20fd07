// The operations of a run: the planners, placement, routing and follower.
#![tactic(auto)]

ghost use Rattle.std.specs.Prelude.{◌≡◌, true, ◌≤◌, ◌<◌, length, IfOk};
ghost use Rattle.array.specs.Place.{inner};
ghost use Rattle.track.specs.Follower.{followed};
ghost use Rattle.follower.specs.Inner.{wafer_of};
ghost use Rattle.array.specs.Tests.{verdict_of};
ghost use Rattle.track.specs.Ports.{wafer};
ghost use Rattle.repair.specs.Operations.{kept_by, left_by, planned_by, answer_by, buffer_by, plan_by, directions_by};
ghost use Rattle.repair.specs.Operations.{plan_repair, directions_after, plan_quickly, directions_quickly};
ghost use Rattle.repair.specs.Operations.{plan_exactly, directions_exactly};
ghost use Rattle.repair.specs.Operations.{place_cells, places_after, route_switches, across_after, down_after};
ghost use Rattle.repair.specs.Operations.{link_tests, follow_link};
ghost use Rattle.array.specs.Tests as tests;
ghost use Rattle.track.specs.Follower as links;
ghost use Rattle.repair.specs.Operations as operations;

use array::{Map, Reason, Refusal, Verdict};
use exact::Decision;
use follower::Wafer;
use track::Followed;
use trials::Outcome;

// The planners: the trial rule over all inner faults, the quick one, which settles outer faults first, and the exact one,
// which is never spent.
#[derive(Clone, Copy)]
pub enum Planner {
    Trials,
    Quick,
    Exact,
}

// What a planner answers: the outcome of its trials, what the exact planner decides, or a refusal with its places.
#[derive(Clone, Copy)]
pub enum Answer {
    Planned(Outcome),
    Decided(Decision),
    Refused(Refusal),
}

// Inner part: a planner on a map that passes the tests 1 to 3. The exact planner reads no limit.
pub fn find_by(planner: Planner, map: &Map, directions: &mut [u8; 1024], limit: u32) -> Answer
    ensures answer { result
        ≡ answer_by planner limit (planned_by planner map.now.shape.rows map.now.shape.columns map.now.grid.now) }
    ensures buffer { directions.new ≡ buffer_by planner limit
        (kept_by planner map.now.shape.rows map.now.shape.columns map.now.grid.now)
        (left_by planner map.now.shape.rows map.now.shape.columns map.now.grid.now)
        (planned_by planner map.now.shape.rows map.now.shape.columns map.now.grid.now) }
{
    match planner {
        Planner::Trials => Answer::Planned(trials::find_plan(map, directions, limit)),
        Planner::Quick => Answer::Planned(peeling::find_plan(map, directions, limit)),
        Planner::Exact => Answer::Decided(exact::find_exactly(map, directions)),
    }
}

// Inner part: a planner's tests, then the planner.
pub fn plan_by(
    planner: Planner,
    n: usize,
    m: usize,
    grid: &[u8],
    directions: &mut [u8],
    limit: u32,
) -> Answer
    ensures answer { operations.told result
        ≡ operations.told (plan_by planner n m grid.now directions.old limit) }
    ensures buffer { directions.new
        ≡ directions_by planner n m grid.now directions.old limit }
{
    let right = (grid.len() == 1024) & (directions.len() == 1024);
    match array::check_map(n, m, right, grid) {
        Ok(map) => find_by(planner, &map, directions.as_mut_array().unwrap(), limit),
        Err(refusal) => Answer::Refused(refusal),
    }
}

// The planner: the outcome of the trials under a limit. Repaired writes the plan; beyond repair and spent write 0 in the whole buffer.
pub fn plan_repair(n: usize, m: usize, grid: &[u8], directions: &mut [u8], limit: u32) -> Answer
    ensures answer { operations.told result ≡ operations.told (plan_repair n m grid.now directions.old limit) }
    ensures buffer { directions.new ≡ directions_after n m grid.now directions.old limit }
{
    plan_by(Planner::Trials, n, m, grid, directions, limit)
}

// The quick planner: the same, where outer faults are settled first and the trials are over the others.
pub fn plan_quickly(n: usize, m: usize, grid: &[u8], directions: &mut [u8], limit: u32) -> Answer
    ensures answer { operations.told result
        ≡ operations.told (plan_quickly n m grid.now directions.old limit) }
    ensures buffer { directions.new
        ≡ directions_quickly n m grid.now directions.old limit }
{
    plan_by(Planner::Quick, n, m, grid, directions, limit)
}

// The exact planner: the first of all plans, where there is one, without a limit. Repaired writes the plan; beyond repair
// writes 0 in the whole buffer.
pub fn plan_exactly(n: usize, m: usize, grid: &[u8], directions: &mut [u8]) -> Answer
    ensures answer { operations.told result ≡ operations.told (plan_exactly n m grid.now directions.old) }
    ensures buffer { directions.new ≡ directions_exactly n m grid.now directions.old }
{
    plan_by(Planner::Exact, n, m, grid, directions, 0)
}

// The placement of a plan: at 32i + j the position that holds cell [i, j], else 0.
pub fn place_cells(
    n: usize,
    m: usize,
    grid: &[u8],
    directions: &[u8],
    places: &mut [u16],
) -> Verdict
    ensures verdict { tests.told result ≡ tests.told (place_cells n m grid.now directions.now places.old) }
    ensures buffer { places.new ≡ places_after n m grid.now directions.now places.old }
{
    let right = (grid.len() == 1024) & ((directions.len() == 1024) & (places.len() == 1024));
    let plan = plans::check_tests(n, m, right, grid, directions)?;
    routing::place(&plan, places.as_mut_array().unwrap());
    Ok(())
}

// The switches of a plan: a letter a to d at each switch, else 0, in the across and in the down buffer.
pub fn route_switches(
    n: usize,
    m: usize,
    grid: &[u8],
    directions: &[u8],
    across: &mut [u8],
    down: &mut [u8],
) -> Verdict
    ensures verdict { tests.told result ≡ tests.told (route_switches n m grid.now directions.now across.old down.old) }
    ensures buffers { (across.new ≡ across_after n m grid.now directions.now across.old down.old) × (down.new ≡ down_after n m grid.now directions.now across.old down.old) }
{
    let right = (grid.len() == 1024)
        & ((directions.len() == 1024) & ((across.len() == 1024) & (down.len() == 1024)));
    let plan = plans::check_tests(n, m, right, grid, directions)?;
    routing::route(
        &plan,
        across.as_mut_array().unwrap(),
        down.as_mut_array().unwrap(),
    );
    Ok(())
}

// Inner part: the follower's tests, 1 to 7, 15 and 16, where `right` says that all lent buffers have 1,024 elements: the wafer that passes
// them.
#[tactic(auto, unfolding(crate::specs::Operations::link_tests))]
fn check_link<'a>(
    n: usize,
    m: usize,
    right: bool,
    grid: &'a [u8],
    directions: &'a [u8],
    across: &'a [u8],
    down: &'a [u8],
    cell: usize,
    side: usize,
) -> Result<Wafer<'a>, Refusal>
    requires { right ≡ true → (length grid.now ≡ 1024) × (length directions.now ≡ 1024) × (length across.now ≡ 1024) × (length down.now ≡ 1024) }
    ensures tests { verdict_of result ≡ link_tests (wafer n m grid.now directions.now across.now down.now) right cell side }
    ensures wafer { IfOk result (λ w. (wafer_of w ≡ wafer n m grid.now directions.now across.now down.now) × (inner n m cell ≡ true) × (side < 2)) }
{
    let plan = plans::check_tests(n, m, right, grid, directions)?;
    if !(plan.map.shape.is_inner(cell) & (side < 2)) {
        return Err(Refusal::at(Reason::NoSuchLink, 0));
    }
    let wafer = Wafer::new(plan, across, down);
    follower::check_switches(&wafer)?;
    Ok(wafer)
}

// Inner part: a cell's link on a side, once the tests have passed.
fn follow_tested(wafer: &Wafer, cell: usize, side: usize) -> Followed
    requires { (inner wafer.now.plan.map.shape.rows wafer.now.plan.map.shape.columns cell ≡ true) × (side < 2) }
    ensures { result ≡ followed (wafer_of wafer.now) cell side }
{
    let mut places = [0u16; 1024];
    routing::place(&wafer.plan, &mut places);
    let from = usize::from(places[cell]);
    follower::follow(wafer, from, side as u8)
}

// The follower: where the link of cell 32i + j on a side (0 east, 1 south) enters a processor, by which port, over how many switches.
pub fn follow_link(
    n: usize,
    m: usize,
    grid: &[u8],
    directions: &[u8],
    across: &[u8],
    down: &[u8],
    cell: usize,
    side: usize,
) -> Followed
    ensures { links.told result ≡ links.told (follow_link (wafer n m grid.now directions.now across.now down.now) cell side) }
{
    let right = (grid.len() == 1024)
        & ((directions.len() == 1024) & ((across.len() == 1024) & (down.len() == 1024)));
    let wafer = check_link(n, m, right, grid, directions, across, down, cell, side)?;
    follow_tested(&wafer, cell, side)
}
