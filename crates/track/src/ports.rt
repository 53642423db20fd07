// Nodes and their ports: which port neighbours which, what stands, and which ports of a node can be joined.

ghost use Rattle.std.specs.Prelude.{◌≡◌, ◌≤◌, IfSome};
ghost use Rattle.track.specs.Ports.{neighbour, stands, N–S, W–E, W–S·E–N, W–N·E–S, by_letter, fault_joins};
ghost use Rattle.track.specs.Link.{is_switch};
ghost use Rattle.track.specs.Follower.{port_number, position_of, by_side};
ghost use Rattle.track.specs.declared.ports.Compass.TheVariants.{E, S};
ghost use Rattle.track.specs.Nodes.{InBuffers, Near};

use array::Shape;

// The sides of a node, which name its ports. The values are the documents' numbers.
#[derive(Clone, Copy)]
pub enum Compass {
    W = 0,
    E = 1,
    N = 2,
    S = 3,
}

impl Compass {
    // The documents' number.
    pub fn number(self) -> u8
        ensures { result ≡ port_number self }
    {
        self as u8
    }

    // The port by which the link of a side leaves its cell: E for side 0, S for side 1.
    pub fn of_link(side: u8) -> Self
        ensures { result ≡ by_side side E S }
    {
        if side == 0 { Compass::E } else { Compass::S }
    }

    // The port that a join straight on from N to S has beside this one.
    pub fn along_column(self) -> Option<Compass>
        ensures { result ≡ N–S self }
    {
        match self {
            Compass::N => Some(Compass::S),
            Compass::S => Some(Compass::N),
            _ => None,
        }
    }

    // The same of a join straight on from W to E.
    pub fn along_row(self) -> Option<Compass>
        ensures { result ≡ W–E self }
    {
        match self {
            Compass::W => Some(Compass::E),
            Compass::E => Some(Compass::W),
            _ => None,
        }
    }

    // What a switch set to a letter joins to this port, in both kinds of switch: `a` the port further along its channel, `b` the
    // port of the other processor, `c` W with S and E with N, `d` W with N and E with S.
    pub fn by_letter(
        self,
        letter: u8,
        channel: Option<Compass>,
        across: Option<Compass>,
    ) -> Option<Compass>
        ensures { result ≡ by_letter letter channel across (W–S·E–N self) (W–N·E–S self) None }
    {
        match letter {
            b'a' => channel,
            b'b' => across,
            b'c' => Some(match self {
                Compass::W => Compass::S,
                Compass::S => Compass::W,
                Compass::E => Compass::N,
                Compass::N => Compass::E,
            }),
            b'd' => Some(match self {
                Compass::W => Compass::N,
                Compass::N => Compass::W,
                Compass::E => Compass::S,
                Compass::S => Compass::E,
            }),
            _ => None,
        }
    }

    // What a fault joins to this port, by the direction of its path: N with S on a vertical path, W with E on a horizontal one.
    pub fn by_direction(self, direction: u8) -> Option<Compass>
        ensures { result ≡ fault_joins direction self }
    {
        match direction {
            1 | 2 => self.along_column(),
            3 | 4 => self.along_row(),
            _ => None,
        }
    }
}

// A processor, an across switch (SW2 in document 003) or a down switch (SW1), by its row and column. A switch has those of the
// processor that it is filed under.
#[derive(Clone, Copy)]
pub enum Node {
    Processor(usize, usize),
    Across(usize, usize),
    Down(usize, usize),
}

impl Node {
    // The position that the node is filed under.
    pub fn position(self) -> usize
        requires { InBuffers self }
        ensures is { result ≡ position_of self }
        ensures low { result ≤ 1023 }
    {
        match self {
            Node::Processor(x, y) | Node::Across(x, y) | Node::Down(x, y) => 32 * x + y,
        }
    }

    pub fn is_switch(self) -> bool
        ensures { result ≡ is_switch self }
    {
        match self {
            Node::Processor(_, _) => false,
            Node::Across(_, _) | Node::Down(_, _) => true,
        }
    }

    // Whether there is such a node.
    #[tactic(auto, unfolding(crate::specs::Ports::stands))]
    pub fn stands(self, shape: Shape) -> bool
        requires { Near self }
        ensures { result ≡ stands shape.rows shape.columns self }
    {
        match self {
            Node::Processor(x, y) => shape.is_processor_at(x, y),
            Node::Across(x, y) => shape.is_processor_at(x, y) && shape.is_processor_at(x, y + 1),
            Node::Down(x, y) => shape.is_processor_at(x, y) && shape.is_processor_at(x + 1, y),
        }
    }
}

// A port of a node.
#[derive(Clone, Copy)]
pub struct Port {
    pub node: Node,
    pub side: Compass,
}

impl Port {
    // The port that neighbours a port, wherever both stand.
    #[tactic(auto, unfolding(crate::specs::Ports::neighbour))]
    pub fn neighbour(self) -> Option<Port>
        requires { InBuffers self.node }
        ensures is { result ≡ neighbour self.node self.side }
        ensures near { IfSome result (λ i. Near i.node) }
    {
        let (node, side) = match (self.node, self.side) {
            (Node::Processor(x, y), Compass::E) => (Node::Across(x, y), Compass::W),
            (Node::Processor(x, y), Compass::S) => (Node::Down(x, y), Compass::N),
            (Node::Processor(x, y), Compass::W) => (Node::Across(x, y.checked_sub(1)?), Compass::E),
            (Node::Processor(x, y), Compass::N) => (Node::Down(x.checked_sub(1)?, y), Compass::S),
            (Node::Across(x, y), Compass::W) => (Node::Processor(x, y), Compass::E),
            (Node::Across(x, y), Compass::E) => (Node::Processor(x, y + 1), Compass::W),
            (Node::Across(x, y), Compass::N) => (Node::Across(x.checked_sub(1)?, y), Compass::S),
            (Node::Across(x, y), Compass::S) => (Node::Across(x + 1, y), Compass::N),
            (Node::Down(x, y), Compass::N) => (Node::Processor(x, y), Compass::S),
            (Node::Down(x, y), Compass::S) => (Node::Processor(x + 1, y), Compass::N),
            (Node::Down(x, y), Compass::W) => (Node::Down(x, y.checked_sub(1)?), Compass::E),
            (Node::Down(x, y), Compass::E) => (Node::Down(x, y + 1), Compass::W),
        };
        Some(Port { node, side })
    }
}
