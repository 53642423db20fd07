// Placement, switches and links.
#![tactic(auto)]

ghost use Rattle.std.specs.Prelude.{◌≡◌, ◌≤◌};
ghost use Rattle.track.specs.Letters.{letter};

pub mod ports;

use array::Refusal;
pub use ports::{Compass, Node, Port};

// Where a link comes out: the position of the processor, its port (W, E, N, S are 0 to 3), and how many switches were passed.
#[derive(Clone, Copy)]
pub struct Landing {
    pub position: usize,
    pub port: u8,
    pub switches: u8,
}

// What the follower answers.
pub type Followed = Result<Landing, Refusal>;

// The functions of this crate are inner parts of the operations.

// The letter of a switch between two processors with these routing states: west and east, or upper and lower.
// Table II of document 003, its entries numbered along the rows from 0 to 24, with b at x.
#[tactic(auto, unfolding(crate::specs::Letters::letter, crate::specs::Letters::entry, crate::specs::Letters::letters))]
pub fn switch_letter(west: u8, east: u8) -> u8
    requires { (west ≤ 4) × (east ≤ 4) }
    ensures { result ≡ letter west east }
{
    match west * 5 + east {
        13 | 17 => b'a',
        1..=2 | 11 | 15 | 20 | 23 => b'c',
        3..=5 | 7 | 10 | 19 => b'd',
        _ => b'b',
    }
}
