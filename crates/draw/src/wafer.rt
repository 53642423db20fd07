// What stands where on the wafer, read from its buffers, and at which coordinates.
ghost use Rattle.std.specs.Prelude.{◌≤◌};

use crate::heading::Heading;

// A map with its plan. A buffer of a map without a plan has 0 everywhere.
#[derive(Clone, Copy)]
pub struct Wafer<'a> {
    pub n: usize,
    pub m: usize,
    pub grid: &'a [u8],
    pub directions: &'a [u8],
    pub places: &'a [u16],
    pub across: &'a [u8],
    pub down: &'a [u8],
}

// The coordinate of a row or a column: a pitch is 72 units.
pub fn units(i: usize) -> usize
    ensures { result ≤ 4536 }
{
    72 * i.min(63)
}

// The coordinate of the last row of N or the last column of M.
pub fn last_units(k: usize) -> usize
    ensures { result ≤ 4536 }
{
    units(k.saturating_add(1))
}

// The coordinates of a position.
pub fn x_of(p: usize) -> usize {
    units(p % 32)
}

pub fn y_of(p: usize) -> usize {
    units(p / 32)
}

impl Wafer<'_> {
    pub fn mark(&self, p: usize) -> u8 {
        self.grid.get(p).copied().unwrap_or(2)
    }

    // The direction of the path from p, where one starts there.
    pub fn direction(&self, p: usize) -> Option<Heading> {
        Heading::of_path(self.directions.get(p).copied()?)
    }

    // The position that holds the cell of p, where it has one.
    pub fn place(&self, p: usize) -> Option<usize> {
        self.places
            .get(p)
            .map(|&place| usize::from(place))
            .filter(|&place| place != 0)
    }

    // The letters of the switches filed under p, 0 where they have none.
    pub fn across_letter(&self, p: usize) -> u8 {
        self.across.get(p).copied().unwrap_or(0)
    }

    pub fn down_letter(&self, p: usize) -> u8 {
        self.down.get(p).copied().unwrap_or(0)
    }

    pub fn is_inner(&self, p: usize) -> bool {
        array::is_inner(self.n, self.m, p)
    }

    pub fn has_processor(&self, p: usize) -> bool {
        self.mark(p) != 2
    }

    // Whether p and the position `step` after it have processors.
    fn has_both(&self, p: usize, step: usize) -> bool {
        self.has_processor(p) && self.has_processor(p.saturating_add(step))
    }

    // Whether an across switch is filed under p.
    pub fn has_across(&self, p: usize) -> bool {
        self.has_both(p, 1) && p % 32 <= self.m
    }

    // Whether a down switch is filed under p.
    pub fn has_down(&self, p: usize) -> bool {
        self.has_both(p, 32)
    }
}
