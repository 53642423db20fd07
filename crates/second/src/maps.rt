// Maps, plans, and the positions, directions and paths on them.

ghost use Rattle.std.specs.Prelude.{◌≡◌, ℕ, ◌+◌, ◌*◌, ◌%◌, ◌<◌, ◌≤◌};
ghost use Rattle.std.specs.Option.{IfSome};

// The directions of a path, in the order of their bytes in a plan.
#[derive(Clone, Copy, PartialEq, Eq)]
pub enum Direction {
    South,
    North,
    East,
    West,
}

impl Direction {
    pub const ALL: [Direction; 4] = [
        Direction::South,
        Direction::North,
        Direction::East,
        Direction::West,
    ];

    // The direction of a byte of a plan.
    pub fn from_byte(byte: u8) -> Option<Direction> {
        match byte {
            1 => Some(Direction::South),
            2 => Some(Direction::North),
            3 => Some(Direction::East),
            4 => Some(Direction::West),
            _ => None,
        }
    }

    pub fn byte(self) -> u8 {
        self as u8 + 1
    }

    pub fn opposite(self) -> Direction {
        match self {
            Direction::South => Direction::North,
            Direction::North => Direction::South,
            Direction::East => Direction::West,
            Direction::West => Direction::East,
        }
    }

    pub fn is_vertical(self) -> bool {
        matches!(self, Direction::South | Direction::North)
    }

    // Whether a path in this direction runs to higher rows or columns.
    pub fn is_forward(self) -> bool {
        matches!(self, Direction::South | Direction::East)
    }
}

// A position of the array, rim included.
#[derive(Clone, Copy, PartialEq, Eq)]
pub struct Spot {
    pub row: usize,
    pub column: usize,
    ghost row_within: { row < 32 },
    ghost column_within: { column < 32 },
}

impl Spot {
    // The spot of a number, modulo 1,024.
    pub fn at(position: usize) -> Spot
        ensures { 32 * result.row + result.column ≡ position % 1024 }
    {
        Spot {
            row: position / 32 % 32,
            column: position % 32,
        }
    }

    // Its number, by which buffers are read and written.
    pub fn position(self) -> usize
        ensures within { result < 1024 }
        ensures value { result ≡ 32 * self.row + self.column }
    {
        32 * self.row + self.column
    }

    // The next spot in a direction. Rows and columns wrap at 32.
    pub fn ahead(self, direction: Direction) -> Spot {
        let Spot { row, column } = self;
        match direction {
            Direction::South => Spot {
                row: (row + 1) % 32,
                column,
            },
            Direction::North => Spot {
                row: (row + 31) % 32,
                column,
            },
            Direction::East => Spot {
                row,
                column: (column + 1) % 32,
            },
            Direction::West => Spot {
                row,
                column: (column + 31) % 32,
            },
        }
    }
}

// What stands at a position, in the order of the bytes of a map.
#[derive(Clone, Copy, PartialEq, Eq)]
pub enum Mark {
    Healthy,
    Faulty,
    Absent,
    Dead,
}

// A well-formed map: N rows, M columns, and the byte of the mark at each position.
#[derive(Clone, Copy)]
pub struct Map {
    pub rows: usize,
    pub columns: usize,
    pub marks: [u8; 1024],
    ghost rows_within: { rows ≤ 30 },
    ghost columns_within: { columns ≤ 30 },
}

impl Map {
    // A map without faults.
    pub fn healthy(rows: usize, columns: usize) -> Map
        requires { (rows ≤ 30) × (columns ≤ 30) }
    {
        let mut map = Map {
            rows,
            columns,
            marks: [Mark::Healthy as u8; 1024],
        };
        for spot in (0..1024).map(Spot::at) {
            if !map.is_part(spot) {
                map.put(spot, Mark::Absent);
            }
        }
        map
    }

    // Whether a spot is inner or on the rim, whose corners have no processor.
    fn is_part(&self, spot: Spot) -> bool {
        let south = self.rows + 1;
        let east = self.columns + 1;
        let is_row_rim = spot.row == 0 || spot.row == south;
        let is_column_rim = spot.column == 0 || spot.column == east;
        spot.row <= south && spot.column <= east && !(is_row_rim && is_column_rim)
    }

    pub fn put(&mut self, spot: Spot, mark: Mark) {
        self.marks[spot.position()] = mark as u8;
    }

    // How many spots have this mark.
    pub fn count(&self, mark: Mark) -> usize {
        let byte = mark as u8;
        self.marks.iter().filter(|other| **other == byte).count()
    }

    // How many faults there are, dead ones among them.
    pub fn faults(&self) -> usize {
        (0..1024)
            .map(Spot::at)
            .filter(|spot| self.is_fault(*spot))
            .count()
    }

    pub fn mark(&self, spot: Spot) -> Mark {
        match self.marks[spot.position()] {
            0 => Mark::Healthy,
            1 => Mark::Faulty,
            3 => Mark::Dead,
            _ => Mark::Absent,
        }
    }

    // Whether a processor stands at a spot, a spare or an inner one.
    pub fn is_there(&self, spot: Spot) -> bool {
        self.mark(spot) != Mark::Absent
    }

    // Whether a fault is at a spot, dead or not.
    pub fn is_fault(&self, spot: Spot) -> bool {
        matches!(self.mark(spot), Mark::Faulty | Mark::Dead)
    }

    pub fn is_inner(&self, spot: Spot) -> bool {
        1 <= spot.row && spot.row <= self.rows && 1 <= spot.column && spot.column <= self.columns
    }

    pub fn is_inner_fault(&self, spot: Spot) -> bool {
        self.is_inner(spot) && self.is_fault(spot)
    }

    // The next processor to the east or south, where a switch is between it and the one at a spot.
    pub fn beyond_switch(&self, spot: Spot, towards: Direction) -> Option<Spot> {
        let next = spot.ahead(towards);
        let is_beyond = spot.position() < next.position();
        if is_beyond && self.is_there(spot) && self.is_there(next) {
            Some(next)
        } else {
            None
        }
    }

    // The first inner fault from a position on.
    pub fn next_fault(&self, from: usize) -> Option<Spot>
        ensures { IfSome result (λ s. from ≤ 32 * s.row + s.column) }
    {
        for position in from..1024 {
            let spot = Spot::at(position);
            if self.is_inner_fault(spot) {
                return Some(spot);
            }
        }
        None
    }
}

// A path to the spare on the rim that lies in its direction.
#[derive(Clone, Copy)]
pub struct Path {
    pub start: Spot,
    pub direction: Direction,
}

impl Path {
    // Whether a test holds at a processor of the path, from its start on.
    pub fn any<F: Fn(Spot) -> bool>(self, map: &Map, test: F) -> bool
        requires { F.IsAlwaysCallable test }
    {
        let mut spot = self.start;
        for _ in 0..32 {
            if test(spot) {
                return true;
            }
            if !map.is_inner(spot) {
                return false;
            }
            spot = spot.ahead(self.direction);
        }
        false
    }

    // The same without its start.
    pub fn rest(self) -> Path {
        Path {
            start: self.start.ahead(self.direction),
            direction: self.direction,
        }
    }

    // Whether a processor after the start is faulty.
    fn is_met(self, map: &Map) -> bool {
        map.is_inner(self.start) && self.rest().any(map, |spot| map.is_fault(spot))
    }

    // Whether no path may start here: it is dead, and an inner processor is behind it, whose link would run through it.
    pub fn is_stuck(self, map: &Map) -> bool {
        let behind = self.start.ahead(self.direction.opposite());
        map.mark(self.start) == Mark::Dead && map.is_inner(behind)
    }

    // Whether the path is not open.
    pub fn is_blocked(self, map: &Map) -> bool {
        self.is_stuck(map) || self.is_met(map)
    }
}

// The byte of the direction of the path from each position, or 0 where there is none.
#[derive(Clone, Copy, PartialEq, Eq)]
pub struct Plan {
    pub directions: [u8; 1024],
}

impl Plan {
    pub const EMPTY: Plan = Plan {
        directions: [0; 1024],
    };

    // How many paths there are.
    pub fn paths(&self) -> usize {
        self.directions
            .iter()
            .filter(|byte| Direction::from_byte(**byte).is_some())
            .count()
    }

    pub fn direction(&self, spot: Spot) -> Option<Direction> {
        Direction::from_byte(self.directions[spot.position()])
    }

    pub fn path(&self, start: Spot) -> Option<Path> {
        let direction = self.direction(start)?;
        Some(Path { start, direction })
    }

    pub fn put(&mut self, path: Path) {
        self.directions[path.start.position()] = path.direction.byte();
    }
}
