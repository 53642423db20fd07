// A wafer as a link runs through it.

ghost use Rattle.std.specs.Prelude.{◌≡◌, ◌<◌, length, IfSome};

use plans::DirectedMap;
use track::{Compass, Node, Port};

// A fault map with the directions of its paths, and the letters of its switches.
#[derive(Clone, Copy)]
pub struct Wafer<'a> {
    pub plan: DirectedMap<'a>,
    pub across: &'a [u8; 1024],
    pub down: &'a [u8; 1024],
    pub ghost long: { (length across.now ≡ 1024) × (length down.now ≡ 1024) },
}

impl<'a> Wafer<'a> {
    ghost use Rattle.track.specs.Nodes.{InBuffers};
    ghost use Rattle.track.specs.Ports.{stretch_from, ends_link, joined};
    ghost use Rattle.follower.specs.Inner.{wafer_of, joined_at};

    // The wafer of switch buffers whose sizes are known to be right.
    pub fn new(plan: DirectedMap<'a>, across: &'a [u8], down: &'a [u8]) -> Self
        requires { (length across.now ≡ 1024) × (length down.now ≡ 1024) }
        ensures { (result.plan ≡ plan.entry) × (result.across.now ≡ across.now) × (result.down.now ≡ down.now) }
    {
        Wafer {
            plan,
            across: across.try_into().unwrap(),
            down: down.try_into().unwrap(),
        }
    }

    // The port at the other end of the stretch from a port, if there is one.
    #[tactic(auto, unfolding(track::specs::Ports::stretch_from))]
    pub fn stretch_from(&self, port: Port) -> Option<Port>
        requires { InBuffers port.node }
        ensures is { result ≡ stretch_from (wafer_of self.now) port }
        ensures within { IfSome result (λ i. InBuffers i.node) }
    {
        let next = port.neighbour()?;
        if next.node.stands(self.plan.map.shape) {
            return Some(next);
        }
        None
    }

    // Whether a link that enters a node ends there: at a processor that is no inner fault.
    #[tactic(auto, unfolding(track::specs::Ports::ends_link))]
    pub fn ends_link(&self, node: Node) -> bool
        requires { InBuffers node }
        ensures { result ≡ ends_link (wafer_of self.now) node }
    {
        match node {
            Node::Processor(x, y) => !self.plan.map.has_inner_fault(32 * x + y),
            Node::Across(_, _) | Node::Down(_, _) => false,
        }
    }

    // The port that a port of a node is joined to inside, if it is joined to one: by a switch's letter, or by a fault that is
    // not dead.
    #[tactic(auto, unfolding(track::specs::Ports::joined, track::specs::Ports::set_to))]
    pub fn joined(&self, port: Port) -> Option<Compass>
        requires { InBuffers port.node }
        ensures { result ≡ joined (wafer_of self.now) port.node port.side }
    {
        let p = port.node.position();
        let side = port.side;
        match port.node {
            Node::Processor(_, _) => self.joined_by_fault(p, side),
            Node::Across(_, _) => side.by_letter(
                self.across[p],
                side.along_column(),
                side.along_row(),
            ),
            Node::Down(_, _) => side.by_letter(self.down[p], side.along_row(), side.along_column()),
        }
    }

    fn joined_by_fault(&self, p: usize, side: Compass) -> Option<Compass>
        requires { p < 1024 }
        ensures { result ≡ joined_at (wafer_of self.now) p side }
    {
        if self.plan.map.is_dead(p) {
            return None;
        }
        if self.plan.map.has_inner_fault(p) {
            return side.by_direction(self.plan.directions[p]);
        }
        None
    }
}
