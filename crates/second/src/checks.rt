// The second plan check: brute force over the processors of each path.
use crate::maps::{Direction, Map, Path, Plan, Spot};

// What the check finds wrong, with its places.
#[derive(Clone, Copy)]
pub enum Finding {
    Misplaced(Spot),
    Blocked(Spot),
    Shared(Spot, Spot),
    Passed(Spot, Spot),
}

impl Finding {
    // Document 01's number, place and second place.
    pub fn told(self) -> (u8, usize, usize) {
        match self {
            Finding::Misplaced(spot) => (4, spot.position(), 0),
            Finding::Blocked(spot) => (5, spot.position(), 0),
            Finding::Shared(first, second) => (6, first.position(), second.position()),
            Finding::Passed(first, second) => (7, first.position(), second.position()),
        }
    }
}

impl Path {
    fn has(self, map: &Map, goal: Spot) -> bool {
        self.any(map, |spot| spot == goal)
    }

    // Whether two paths share a processor.
    fn is_sharing(self, map: &Map, other: Path) -> bool {
        other.any(map, |spot| self.has(map, spot))
    }

    // Whether this path and the other one are a near-miss, in this order.
    fn is_passing(self, other: Path) -> bool {
        let a = self.start;
        let b = other.start;
        match (self.direction, other.direction) {
            (Direction::South, Direction::North) => are_beside(a.column, b.column) && a.row < b.row,
            (Direction::East, Direction::West) => are_beside(a.row, b.row) && a.column < b.column,
            _ => false,
        }
    }
}

fn are_beside(i: usize, j: usize) -> bool {
    i.abs_diff(j) == 1
}

// Whether a spot has no direction and needs one, or has one and may not.
fn is_misplaced(map: &Map, plan: &Plan, spot: Spot) -> bool {
    if map.is_inner_fault(spot) {
        plan.direction(spot).is_none()
    } else {
        plan.directions[spot.position()] != 0
    }
}

fn check_directions(map: &Map, plan: &Plan) -> Result<(), Finding> {
    match (0..1024)
        .map(Spot::at)
        .find(|spot| is_misplaced(map, plan, *spot))
    {
        Some(spot) => Err(Finding::Misplaced(spot)),
        None => Ok(()),
    }
}

fn check_open(map: &Map, plan: &Plan) -> Result<(), Finding> {
    for path in (0..1024).filter_map(|start| plan.path(Spot::at(start))) {
        if path.is_blocked(map) {
            return Err(Finding::Blocked(path.start));
        }
    }
    Ok(())
}

// Two paths, the earlier one first.
fn check_two(map: &Map, path: Path, other: Path) -> Result<(), Finding> {
    if path.is_sharing(map, other) {
        return Err(Finding::Shared(path.start, other.start));
    }
    if path.is_passing(other) || other.is_passing(path) {
        return Err(Finding::Passed(path.start, other.start));
    }
    Ok(())
}

// A path and all later ones.
fn check_later(map: &Map, plan: &Plan, path: Path) -> Result<(), Finding> {
    let later = path.start.position() + 1..1024;
    for other in later.filter_map(|start| plan.path(Spot::at(start))) {
        check_two(map, path, other)?;
    }
    Ok(())
}

fn check_pairs(map: &Map, plan: &Plan) -> Result<(), Finding> {
    for path in (0..1024).filter_map(|start| plan.path(Spot::at(start))) {
        check_later(map, plan, path)?;
    }
    Ok(())
}

// The plan check on a well-formed map.
pub fn check(map: &Map, plan: &Plan) -> Result<(), Finding> {
    check_directions(map, plan)?;
    check_open(map, plan)?;
    check_pairs(map, plan)
}
