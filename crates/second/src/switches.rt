// The second routing: the state of a processor by looking along its line for a path that runs over it, and the letters from document 01's table.
use crate::maps::{Direction, Map, Path, Plan, Spot};

// The state of a processor to the switches of a line: clear of the paths there, on one forward (south or east) or on one backward,
// healthy or the fault where it starts.
#[derive(Clone, Copy)]
enum State {
    Clear,
    Forward,
    ForwardStart,
    BackwardStart,
    Backward,
}

// The letters by the state of the west or upper processor and that of the other one; an x stands where no plan leads.
const LETTERS: [[u8; 5]; 5] = [*b"bccdd", *b"dbdxx", *b"dcxax", *b"cxaxd", *b"cxxcb"];

fn letter(first: State, second: State) -> u8 {
    match LETTERS[first as usize][second as usize] {
        b'x' => b'b',
        found => found,
    }
}

fn state_of(is_forward: bool, is_backward: bool, is_fault: bool) -> State {
    match (is_forward, is_backward, is_fault) {
        (true, _, false) => State::Forward,
        (true, _, true) => State::ForwardStart,
        (false, true, true) => State::BackwardStart,
        (false, true, false) => State::Backward,
        (false, false, _) => State::Clear,
    }
}

// Whether a path in a direction starts at a spot or behind it.
fn is_passed(map: &Map, plan: &Plan, spot: Spot, direction: Direction) -> bool {
    let back = Path {
        start: spot,
        direction: direction.opposite(),
    };
    plan.direction(spot) == Some(direction)
        || back
            .rest()
            .any(map, |at| plan.direction(at) == Some(direction))
}

// The state of the processor at a spot, of paths in a direction and against it.
fn state_at(map: &Map, plan: &Plan, spot: Spot, forward: Direction) -> State {
    state_of(
        is_passed(map, plan, spot, forward),
        is_passed(map, plan, spot, forward.opposite()),
        map.is_fault(spot),
    )
}

// The letter of the switch between a processor and the next one, towards the east or the south, or 0 where no switch is.
// Its state is that of the paths that run across.
fn letter_towards(
    map: &Map,
    plan: &Plan,
    spot: Spot,
    towards: Direction,
    forward: Direction,
) -> u8 {
    match map.beyond_switch(spot, towards) {
        Some(next) => letter(
            state_at(map, plan, spot, forward),
            state_at(map, plan, next, forward),
        ),
        None => 0,
    }
}

// The byte of the across buffer at a spot.
pub fn across(map: &Map, plan: &Plan, spot: Spot) -> u8 {
    letter_towards(map, plan, spot, Direction::East, Direction::South)
}

// The byte of the down buffer at a spot.
pub fn down(map: &Map, plan: &Plan, spot: Spot) -> u8 {
    letter_towards(map, plan, spot, Direction::South, Direction::East)
}
