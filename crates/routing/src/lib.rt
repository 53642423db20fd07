// Inner parts of placement and routing: the operations call these once the tests have passed. `traced` holds the direction of the
// path through each position (1 south, 2 north, 3 east, 4 west, 0 none).
#![tactic(auto)]

ghost use Rattle.std.specs.Prelude.{◌≡◌, ◌≤◌, ◌<◌};
ghost use Rattle.array.specs.Buffer.{buffer, zeros};
ghost use Rattle.paths.specs.Path.{ahead};
ghost use Rattle.plans.specs.Faults.{faults};
ghost use Rattle.track.specs.Placement.{placement};
ghost use Rattle.track.specs.Letters.{vertical, horizontal, across_letters, down_letters};
ghost use Rattle.routing.specs.Inner.{path_of, painted, traced_paths, placed_by, transposed};
ghost use Rattle.routing.specs.Inner.{node_under, second_at, state, state_by, letter_by};

use array::{Map, Shape};
use paths::Path;
use plans::DirectedMap;
use track::Node;

// The two kinds of switch, SW2 and SW1 in document 003.
#[derive(Clone, Copy)]
enum Switch {
    Across,
    Down,
}

// Inner part: writes the direction of a path at each of its processors.
fn paint_path(path: Path, out: &mut [u8; 1024])
    ensures { out.new ≡ painted (path_of path) path.direction out.old }
{
    let count = path.length();
    for k in 0..count {
        out[path.step(k)] = path.direction;
    }
}

// Inner part: paints the paths from the last fault's to the first's, so that where two share a processor the first one's shows.
fn paint_paths(plan: &DirectedMap, starts: &[u16], traced: &mut [u8; 1024])
    requires { (starts.now ≡ faults plan.now.map.shape.rows plan.now.map.shape.columns plan.now.map.grid.now)
        × (traced.old ≡ zeros) }
    ensures { traced.new ≡ traced_paths plan.now.map.shape.rows plan.now.map.shape.columns
        plan.now.map.grid.now plan.now.directions.now }
{
    for start in starts.iter().rev() {
        let start = usize::from(*start);
        let path = Path {
            shape: plan.map.shape,
            start,
            direction: plan.directions[start],
        };
        paint_path(path, traced);
    }
}

// Inner part: the direction of the path through each position.
fn trace_paths(plan: &DirectedMap) -> [u8; 1024]
    ensures { result ≡ traced_paths plan.now.map.shape.rows plan.now.map.shape.columns
        plan.now.map.grid.now plan.now.directions.now }
{
    let mut starts = [0; 1024];
    let Map { shape, grid } = plan.map;
    let count = plans::list_faults(shape.rows, shape.columns, grid, &mut starts);
    let mut traced = [0; 1024];
    paint_paths(plan, &starts[..count], &mut traced);
    traced
}

// Inner part: the routing state of the processor at p that a switch goes by, from the path through it and its mark.
fn state_at(map: &Map, traced: &[u8; 1024], switch: Switch, p: usize) -> u8
    requires { p < 1024 }
    ensures { (result ≡ state_by switch map.now.grid.now traced.now p) × (result ≤ 4) }
{
    switch.state(traced[p], map.is_faulty(p))
}

// Inner part: the letter of the switch filed under p, by the states of its two processors, or 0 where no switch is.
fn letter_at(map: &Map, traced: &[u8; 1024], switch: Switch, p: usize) -> u8
    requires { p < 1024 }
    ensures { result ≡ letter_by switch map.now.shape.rows map.now.shape.columns map.now.grid.now traced.now p }
{
    if !switch.node_under(p).stands(map.shape) {
        return 0;
    }
    track::switch_letter(
        state_at(map, traced, switch, p),
        state_at(map, traced, switch, switch.second(p)),
    )
}

// Inner part: writes the letters of the switches of a kind.
fn fill_letters(map: &Map, traced: &[u8; 1024], switch: Switch, out: &mut [u8; 1024])
    ensures { out.new ≡ buffer (letter_by switch map.now.shape.rows map.now.shape.columns map.now.grid.now traced.now) }
{
    for p in 0..1024 {
        out[p] = letter_at(map, traced, switch, p);
    }
}

// Inner part: the next processor in direction d, or p itself where d is no direction.
fn next_to(p: usize, d: u8) -> usize
    requires { (32 ≤ p) × (p < 1024) }
    ensures { (result ≡ ahead p d 1) × (result < 2048) }
{
    match d {
        1 => p + 32,
        2 => p - 32,
        3 => p + 1,
        4 => p - 1,
        _ => p,
    }
}

// Inner part: where the cell of p sits (P in document 003), or 0 where p has no cell.
fn place_at(shape: Shape, traced: &[u8; 1024], p: usize) -> u16
    requires { p < 1024 }
    ensures { result ≡ placed_by shape.rows shape.columns traced.now p }
{
    if shape.is_inner(p) {
        return next_to(p, traced[p]) as u16;
    }
    0
}

// Inner part: writes the placement, by the direction of the path through each position.
fn fill_places(shape: Shape, traced: &[u8; 1024], places: &mut [u16; 1024])
    ensures { places.new ≡ buffer (placed_by shape.rows shape.columns traced.now) }
{
    for p in 0..1024 {
        places[p] = place_at(shape, traced, p);
    }
}

// Inner part: the placement of a plan.
pub fn place(plan: &DirectedMap, places: &mut [u16; 1024])
    ensures { places.new ≡ placement plan.now.map.shape.rows plan.now.map.shape.columns
        plan.now.map.grid.now plan.now.directions.now }
{
    fill_places(plan.map.shape, &trace_paths(plan), places);
}

// Inner part: the vertical routing state, from the direction of the path through a processor and whether it is faulty. Decided in
// the order of Table I of document 003: a test for each of its lines 0 to 3, and line 4 is what these leave.
fn vertical_state(d: u8, fault: bool) -> u8
    ensures { result ≡ vertical d fault }
{
    if (d != 1) & (d != 2) {
        return 0;
    }
    if !fault & (d == 1) {
        return 1;
    }
    if fault & (d == 1) {
        return 2;
    }
    if fault & (d == 2) {
        return 3;
    }
    4
}

// Inner part: a direction in the transposed grid.
fn transpose(d: u8) -> u8
    ensures { result ≡ transposed d }
{
    match d {
        1 => 3,
        2 => 4,
        3 => 1,
        4 => 2,
        _ => d,
    }
}

// Inner part: the horizontal routing state, which is the vertical one of the transposed grid.
fn horizontal_state(d: u8, fault: bool) -> u8
    ensures { result ≡ horizontal d fault }
{
    vertical_state(transpose(d), fault)
}

impl Switch {
    // Inner part: the routing state that a switch goes by: horizontal for a down switch, vertical for an across switch.
    fn state(self, d: u8, fault: bool) -> u8
        ensures { (result ≡ state self d fault) × (result ≤ 4) }
    {
        match self {
            Switch::Across => vertical_state(d, fault),
            Switch::Down => horizontal_state(d, fault),
        }
    }

    // Inner part: the switch filed under p.
    fn node_under(self, p: usize) -> Node
        ensures { result ≡ node_under self p }
    {
        match self {
            Switch::Across => Node::Across(p / 32, p % 32),
            Switch::Down => Node::Down(p / 32, p % 32),
        }
    }

    // Inner part: the position of the second processor of the switch filed under p, to its right (across) or below it (down).
    fn second(self, p: usize) -> usize
        requires { p < 1024 }
        ensures { result ≡ second_at self p }
    {
        match self {
            Switch::Across => p + 1,
            Switch::Down => p + 32,
        }
    }
}

// Inner part: the switches of a plan.
pub fn route(plan: &DirectedMap, across: &mut [u8; 1024], down: &mut [u8; 1024])
    ensures across { across.new ≡ across_letters plan.now.map.shape.rows plan.now.map.shape.columns
        plan.now.map.grid.now plan.now.directions.now }
    ensures down { down.new ≡ down_letters plan.now.map.shape.rows plan.now.map.shape.columns
        plan.now.map.grid.now plan.now.directions.now }
{
    let traced = trace_paths(plan);
    fill_letters(&plan.map, &traced, Switch::Across, across);
    fill_letters(&plan.map, &traced, Switch::Down, down);
}
