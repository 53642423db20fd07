// The four directions on the wafer, of paths and of links.
use std::fmt;

#[derive(Clone, Copy, Debug, PartialEq, Eq, Hash)]
pub enum Heading {
    West,
    East,
    North,
    South,
}

impl Heading {
    // The direction of the path from a processor, by its number in a direction buffer, where 0 says that there is none.
    pub fn of_path(direction: u8) -> Option<Heading> {
        match direction {
            1 => Some(Heading::South),
            2 => Some(Heading::North),
            3 => Some(Heading::East),
            4 => Some(Heading::West),
            _ => None,
        }
    }

    // The direction in which a cell moved from one position to another in its row or its column.
    pub fn of_move(from: usize, to: usize) -> Heading {
        if from / 32 < to / 32 {
            Heading::South
        } else if to / 32 < from / 32 {
            Heading::North
        } else if from < to {
            Heading::East
        } else {
            Heading::West
        }
    }

    // Whether it runs along a row.
    pub fn is_across(self) -> bool {
        matches!(self, Heading::West | Heading::East)
    }
}

// Its letter.
impl fmt::Display for Heading {
    fn fmt<W: fmt::Write>(&self, f: &mut fmt::Formatter<W>) -> fmt::Result {
        f.write_str(match self {
            Heading::West => "W",
            Heading::East => "E",
            Heading::North => "N",
            Heading::South => "S",
        })
    }
}
