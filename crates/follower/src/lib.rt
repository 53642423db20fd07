// Inner parts of the follower: a link followed from node to node, and test 16.
#![tactic(auto)]

ghost use Rattle.std.specs.Prelude.{◌≡◌, ◌≤◌, ◌<◌};
ghost use Rattle.track.specs.Letters.{switch_byte};
ghost use Rattle.track.specs.Nodes.{InBuffers};
ghost use Rattle.track.specs.Link.{run, enters};
ghost use Rattle.track.specs.Follower.{judged, out_of, switches_test};
ghost use Rattle.follower.specs.Inner.{wafer_of, SoundWalk, Advances, Enters, switches_allowed};

mod wafer;

use array::{Reason, Refusal, Shape, Verdict};
use track::{Compass, Followed, Landing, Node, Port};
pub use wafer::Wafer;

// A link followed so far: the port it goes on from, where it was last (a switch, or at first the cell's processor), and how many
// switches it has passed.
#[derive(Clone, Copy)]
struct Walk {
    port: Port,
    last: usize,
    passed: u8,
}

impl Walk {
    // Inner part: enters a node. A switch is counted, and the link is then there; a fourth one is refused.
    fn enter(&mut self, node: Node) -> Result<(), Refusal>
        requires { InBuffers node × SoundWalk self.old }
        ensures { Enters self.old node self.new result }
    {
        if node.is_switch() {
            let place = node.position();
            if self.passed == 3 {
                return Err(Refusal::at(Reason::FourthSwitch, place));
            }
            self.last = place;
            self.passed += 1;
        }
        Ok(())
    }

    // Inner part: the end of a link at a processor, refused where that is a faulty spare.
    fn land(&self, wafer: &Wafer, port: Port) -> Followed
        requires { InBuffers port.node }
        ensures { result ≡ judged (wafer_of wafer.now).grid self.now.last self.now.passed (enters port) }
    {
        let position = port.node.position();
        if wafer.plan.map.is_faulty(position) {
            return Err(Refusal::at(Reason::TrackEnds, self.last));
        }
        Ok(Landing {
            position,
            port: port.side.number(),
            switches: self.passed,
        })
    }

    // Inner part: one stretch, and the node that it leads to. The link arrives there, or goes on.
    fn advance(&mut self, wafer: &Wafer) -> Result<Option<Landing>, Refusal>
        requires { SoundWalk self.old }
        ensures { Advances (wafer_of wafer.now) self.old self.new result }
    {
        let port = wafer
            .stretch_from(self.port)
            .ok_or(Refusal::at(Reason::TrackEnds, self.last))?;
        if wafer.ends_link(port.node) {
            return Ok(Some(self.land(wafer, port)?));
        }
        self.enter(port.node)?;
        let side = wafer
            .joined(port)
            .ok_or(Refusal::at(Reason::TrackEnds, self.last))?;
        self.port = Port {
            node: port.node,
            side,
        };
        Ok(None)
    }
}

// Inner part: the link that leaves the processor at `from` by its east (side 0) or south (1) port. A fourth switch is at most the
// seventh node.
pub fn follow(wafer: &Wafer, from: usize, side: u8) -> Followed
    requires { (from < 1024) × (side ≤ 1) }
    ensures { result ≡ judged wafer.now.plan.map.grid.now from 0 (run (wafer_of wafer.now) 7 (out_of from side)) }
{
    let mut walk = Walk {
        port: Port {
            node: Node::Processor(from / 32, from % 32),
            side: Compass::of_link(side),
        },
        last: from,
        passed: 0,
    };
    for _ in 0..7usize {
        if let Some(landing) = walk.advance(wafer)? {
            return Ok(landing);
        }
    }
    Err(Refusal::at(Reason::Unknown, 0))
}

// Inner part: whether a byte of a switch buffer is what its position allows.
fn is_switch_byte(exists: bool, byte: u8) -> bool
    ensures { result ≡ switch_byte exists byte }
{
    if exists {
        matches!(byte, b'a'..=b'd')
    } else {
        byte == 0
    }
}

// Inner part: whether both switch bytes of a position, `a` of the across switch and `d` of the down switch (not the letters a and
// d), are what it allows.
fn are_switch_bytes(shape: Shape, p: usize, a: u8, d: u8) -> bool
    requires { p < 1024 }
    ensures { result ≡ switches_allowed shape.rows shape.columns p a d }
{
    // most positions are inner, and an inner one has both switches
    if shape.is_inner(p) {
        return is_switch_byte(true, a) & is_switch_byte(true, d);
    }
    let across = Node::Across(p / 32, p % 32).stands(shape);
    let down = Node::Down(p / 32, p % 32).stands(shape);
    is_switch_byte(across, a) & is_switch_byte(down, d)
}

// Inner part: test 16.
pub fn check_switches(wafer: &Wafer) -> Verdict
    ensures { result ≡ switches_test (wafer_of wafer.now) }
{
    let shape = wafer.plan.map.shape;
    for (p, &a) in wafer.across.iter().enumerate() {
        if !are_switch_bytes(shape, p, a, wafer.down[p]) {
            return Err(Refusal::at(Reason::SwitchByte, p));
        }
    }
    Ok(())
}
