// The second follower, over a lattice of 64 rows and 64 columns of nodes: processors have an even row and an even column, across switches an even
// row and an odd column, down switches an odd row and an even column, and each switch is between its two processors.
ghost use Rattle.std.specs.Prelude.{◌<◌};

use crate::maps::{Direction, Map, Mark, Plan, Spot};

// The sides of a node, in the order of the ports.
#[derive(Clone, Copy, PartialEq, Eq)]
pub enum Side {
    West,
    East,
    North,
    South,
}

impl Side {
    fn is_vertical(self) -> bool {
        matches!(self, Side::North | Side::South)
    }

    pub fn opposite(self) -> Side {
        match self {
            Side::West => Side::East,
            Side::East => Side::West,
            Side::North => Side::South,
            Side::South => Side::North,
        }
    }

    // The side across the west lower or the upper east corner.
    fn turned(self) -> Side {
        match self {
            Side::West => Side::South,
            Side::East => Side::North,
            Side::North => Side::East,
            Side::South => Side::West,
        }
    }

    // The opposite side where track runs straight from side to side, in one of the two ways.
    fn through(self, is_vertical: bool) -> Option<Side> {
        if self.is_vertical() == is_vertical {
            Some(self.opposite())
        } else {
            None
        }
    }

    // The side that a switch with this letter joins to a side.
    fn joined(self, is_across: bool, letter: u8) -> Option<Side> {
        match letter {
            b'a' => self.through(is_across),
            b'b' => self.through(!is_across),
            b'c' => Some(self.turned()),
            b'd' => Some(self.turned().opposite()),
            _ => None,
        }
    }
}

// What stands at a node.
#[derive(Clone, Copy, PartialEq, Eq)]
enum Kind {
    Processor,
    Across,
    Down,
    Nothing,
}

#[derive(Clone, Copy)]
struct Node {
    row: usize,
    column: usize,
    ghost row_within: { row < 64 },
    ghost column_within: { column < 64 },
}

impl Node {
    // The node of the processor at a spot.
    fn of(spot: Spot) -> Node {
        Node {
            row: 2 * spot.row,
            column: 2 * spot.column,
        }
    }

    // The spot that a node is filed under.
    fn spot(self) -> Spot {
        Spot {
            row: self.row / 2,
            column: self.column / 2,
        }
    }

    fn number(self) -> usize
        ensures { result < 4096 }
    {
        64 * self.row + self.column
    }

    fn kind(self) -> Kind {
        match (self.row % 2 == 0, self.column % 2 == 0) {
            (true, true) => Kind::Processor,
            (true, false) => Kind::Across,
            (false, true) => Kind::Down,
            (false, false) => Kind::Nothing,
        }
    }

    // Whether a processor or a switch is at a node.
    fn exists(self, map: &Map) -> bool {
        let spot = self.spot();
        match self.kind() {
            Kind::Processor => map.is_there(spot),
            Kind::Across => map.beyond_switch(spot, Direction::East).is_some(),
            Kind::Down => map.beyond_switch(spot, Direction::South).is_some(),
            Kind::Nothing => false,
        }
    }

    // The node beyond a side. Along a channel of switches every second node of the lattice is empty.
    fn beyond(self, side: Side) -> Option<Node> {
        let Node { row, column } = self;
        let (row, column) = match side {
            Side::West => (row, column.checked_sub(1 + row % 2)?),
            Side::East => (row, column + 1 + row % 2),
            Side::North => (row.checked_sub(1 + column % 2)?, column),
            Side::South => (row + 1 + column % 2, column),
        };
        if row < 64 && column < 64 {
            Some(Node { row, column })
        } else {
            None
        }
    }

    // A number for each stretch to the east or south, below 8,192.
    fn stretch(self, is_vertical: bool) -> usize
        ensures { result < 8192 }
    {
        2 * self.number() + usize::from(is_vertical)
    }

    // A number for each join of two sides, from 8,192 on.
    fn join(self, first: Side, second: Side) -> usize
        ensures { result < 73728 }
    {
        let sides = 1usize << (first as u32) | 1usize << (second as u32);
        8192 + 16 * self.number() + sides % 16
    }
}

// The pieces of track that links run over. A piece is marked with the number of the last link over it; those of earlier maps have
// numbers below the first one of this map.
#[derive(Clone, Copy)]
pub struct Marks {
    links: [u32; 73728],
    link: u32,
    first: u32,
    // How many pieces the links of the map run over.
    pub pieces: u32,
    // How many pieces two links of the map have in common.
    pub shared: u32,
}

impl Marks {
    pub fn new() -> Marks {
        Marks {
            links: [0; 73728],
            link: 0,
            first: 1,
            pieces: 0,
            shared: 0,
        }
    }

    // Begins a map: the next link is its first.
    pub fn begin(&mut self) {
        self.first = self.link.wrapping_add(1);
        self.pieces = 0;
        self.shared = 0;
    }

    // Marks a piece with the number of the link.
    fn mark(&mut self, piece: usize)
        requires { piece < 73728 }
    {
        let last = self.links[piece];
        if last == self.link {
            return;
        }
        self.links[piece] = self.link;
        self.pieces = self.pieces.wrapping_add(1);
        if self.first <= last {
            self.shared = self.shared.wrapping_add(1);
        }
    }
}

// A map and a plan with the letters of the switches.
#[derive(Clone, Copy)]
pub struct Track {
    pub map: Map,
    pub plan: Plan,
    pub across: [u8; 1024],
    pub down: [u8; 1024],
}

// A link on its way: the node it is at, the side it leaves by, and the switches passed.
#[derive(Clone, Copy)]
struct Walk {
    node: Node,
    side: Side,
    switches: u8,
}

// The processor that a link enters, by which side, and the switches passed.
#[derive(Clone, Copy)]
pub struct Landing {
    pub spot: Spot,
    pub side: Side,
    pub switches: u8,
}

impl Landing {
    // The position, the port and the switches.
    pub fn told(self) -> (usize, u8, u8) {
        (self.spot.position(), self.side as u8, self.switches)
    }
}

// Where a link is after a stretch.
#[derive(Clone, Copy)]
enum Step {
    On(Walk),
    Entered(Landing),
}

impl Track {
    // What a fault joins to a side: nothing where it is dead, else what its path runs through.
    fn fault_join(&self, spot: Spot, side: Side) -> Option<Side> {
        if self.map.mark(spot) == Mark::Dead {
            return None;
        }
        side.through(self.plan.direction(spot)?.is_vertical())
    }

    // The side that a node joins to a side, and whether it is a switch.
    fn join(&self, node: Node, side: Side) -> Option<Side> {
        let spot = node.spot();
        match node.kind() {
            Kind::Processor => self.fault_join(spot, side),
            Kind::Across => side.joined(true, self.across[spot.position()]),
            _ => side.joined(false, self.down[spot.position()]),
        }
    }

    // Whether the processor at a node has no path, and so joins nothing.
    fn is_end(&self, node: Node) -> bool {
        node.kind() == Kind::Processor && self.plan.direction(node.spot()).is_none()
    }

    // A processor entered where a link ends. A faulty one is a spare, where the track ends.
    fn entered(&self, node: Node, side: Side, switches: u8) -> Option<Step> {
        let spot = node.spot();
        if self.map.mark(spot) == Mark::Healthy {
            Some(Step::Entered(Landing {
                spot,
                side,
                switches,
            }))
        } else {
            None
        }
    }

    // One stretch, and the join behind it; None where no track is ahead.
    fn advance(&self, walk: Walk, marks: &mut Marks) -> Option<Step> {
        let node = walk.node.beyond(walk.side)?;
        if !node.exists(&self.map) {
            return None;
        }
        let first = if matches!(walk.side, Side::East | Side::South) {
            walk.node
        } else {
            node
        };
        marks.mark(first.stretch(walk.side.is_vertical()));
        let side = walk.side.opposite();
        if self.is_end(node) {
            return self.entered(node, side, walk.switches);
        }
        let out = self.join(node, side)?;
        marks.mark(node.join(side, out));
        let switches = if node.kind() == Kind::Processor {
            walk.switches
        } else {
            walk.switches.wrapping_add(1)
        };
        Some(Step::On(Walk {
            node,
            side: out,
            switches,
        }))
    }

    // The link that leaves the processor at a spot by a port, to the processor that it enters. Every piece that it runs over is marked.
    pub fn follow(&self, from: Spot, port: Side, marks: &mut Marks) -> Option<Landing> {
        marks.link = marks.link.wrapping_add(1);
        let mut walk = Walk {
            node: Node::of(from),
            side: port,
            switches: 0,
        };
        for _ in 0..64 {
            match self.advance(walk, marks)? {
                Step::On(next) => walk = next,
                Step::Entered(landing) => return Some(landing),
            }
        }
        None
    }
}
