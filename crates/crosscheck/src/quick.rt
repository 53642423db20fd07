// The quick planner beside the first one: their verdicts, its plans, and maps on which it can settle nothing.
use crate::answers::{Refused, planned};
use crate::counts::{Count, Difference, Outcomes, Tally};
use repair::Planner;
use second::checks::check;
use second::maps::{Direction, Map, Mark, Plan, Spot};
use second::planner::{Outcome, Planned};

// Whether two planners agree: where neither is spent, both repair the map or neither does.
pub fn do_agree(a: &Planned, b: &Planned) -> bool {
    a.is_spent() || b.is_spent() || a.outcome == b.outcome
}

// Both planners. Answers what the quick one does.
pub fn cross_verdict(map: &Map, limit: u32, tally: &mut Tally) -> Result<Planned, Refused> {
    let first = planned(Planner::Trials, map, limit)?;
    let quick = planned(Planner::Quick, map, limit)?;
    tally.compare(do_agree(&first, &quick), Difference::Verdict);
    tally.add_outcome(Outcomes::QUICK, quick.outcome);
    tally.add(Count::QuickTrials, u64::from(quick.trials));
    tally.add(
        Count::QuickOnly,
        u64::from(first.is_spent() && !quick.is_spent()),
    );
    tally.add(
        Count::FirstOnly,
        u64::from(quick.is_spent() && !first.is_spent()),
    );
    Ok(quick)
}

// What a planner wrote: a plan by the second check where the map is repaired, else all 0. A difference is counted if not.
pub fn cross_written(map: &Map, planned: &Planned, what: Difference, tally: &mut Tally) {
    let is_right = match planned.outcome {
        Outcome::Repaired => check(map, &planned.plan).is_ok(),
        _ => planned.plan == Plan::EMPTY,
    };
    tally.compare(is_right, what);
}

// How far in a spot lies on the side of a direction: of some spots those furthest out have the least number.
fn depth(spot: Spot, direction: Direction) -> usize {
    match direction {
        Direction::South => 31 - spot.row,
        Direction::North => spot.row,
        Direction::East => 31 - spot.column,
        Direction::West => spot.column,
    }
}

// The spare at the end of the path from a spot.
fn spare_of(map: &Map, spot: Spot, direction: Direction) -> Spot {
    let Spot { row, column } = spot;
    match direction {
        Direction::South => Spot {
            row: map.rows + 1,
            column,
        },
        Direction::North => Spot { row: 0, column },
        Direction::East => Spot {
            row,
            column: map.columns + 1,
        },
        Direction::West => Spot { row, column: 0 },
    }
}

// The least depth of an inner fault on the side of a direction, if there is a fault.
fn least_depth(map: &Map, direction: Direction) -> Option<usize> {
    (0..1024)
        .map(Spot::at)
        .filter(|spot| map.is_inner_fault(*spot))
        .map(|spot| depth(spot, direction))
        .min()
}

// Closes the paths of the outermost faults on the side of a direction by faulty spares, so that none of them can be settled there.
fn close_side(map: &mut Map, direction: Direction) {
    let least = least_depth(map, direction);
    for spot in (0..1024).map(Spot::at) {
        if map.is_inner_fault(spot) && Some(depth(spot, direction)) == least {
            map.put(spare_of(map, spot, direction), Mark::Faulty);
        }
    }
}

// The same map with the paths of all outermost faults closed, so that nothing can be settled.
pub fn closed(map: &Map) -> Map {
    let mut core = *map;
    for direction in Direction::ALL {
        close_side(&mut core, direction);
    }
    core
}

// Both planners on a map where nothing can be settled: the same outcome, the same count and the same directions.
pub fn cross_closed(map: &Map, limit: u32, tally: &mut Tally) -> Result<(), Refused> {
    let first = planned(Planner::Trials, map, limit)?;
    let quick = planned(Planner::Quick, map, limit)?;
    tally.compare(first == quick, Difference::Core);
    tally.add_outcome(Outcomes::CORES, first.outcome);
    Ok(())
}
