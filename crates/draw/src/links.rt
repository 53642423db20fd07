// The links, each as a line of path data from the processor that it leaves to the one that it enters.
// A link is walked over a lattice of half a pitch: processors stand where row and column are even, across switches where only the column
// is odd, down switches where only the row is odd, and where both are odd two channels cross.
ghost use Rattle.std.specs.Prelude.{◌≤◌};

use crate::heading::Heading;
use crate::wafer;
use crate::wafer::Wafer;
use std::fmt::{Error, Result, Write};

// A point of the lattice.
#[derive(Clone, Copy)]
struct Point {
    row: usize,
    column: usize,
}

impl Point {
    // Half the width of what stands there: a processor, a switch, or nothing at a crossing.
    fn reach(self) -> usize
        ensures { result ≤ 20 }
    {
        match (self.row % 2, self.column % 2) {
            (0, 0) => 20,
            (1, 1) => 0,
            _ => 9,
        }
    }

    // The next point in a heading.
    fn step(self, heading: Heading) -> Point {
        let Point { row, column } = self;
        match heading {
            Heading::West => Point {
                row,
                column: column.saturating_sub(1),
            },
            Heading::East => Point {
                row,
                column: column.saturating_add(1),
            },
            Heading::North => Point {
                row: row.saturating_sub(1),
                column,
            },
            Heading::South => Point {
                row: row.saturating_add(1),
                column,
            },
        }
    }

    // The position under which what stands there is filed, or 1,024, where nothing is, beyond the array.
    fn filed_under(self) -> usize {
        if self.row < 64 && self.column < 64 {
            32 * (self.row / 2) + self.column / 2
        } else {
            1024
        }
    }

    // The heading of a link after what stands there, where the link goes on.
    fn heading_after(self, wafer: &Wafer<'_>, heading: Heading) -> Option<Heading> {
        let p = self.filed_under();
        match (self.row % 2, self.column % 2) {
            (0, 0) => after_processor(wafer.mark(p), wafer.direction(p), heading),
            (0, _) => after_switch(false, wafer.across_letter(p), heading),
            (_, 0) => after_switch(true, wafer.down_letter(p), heading),
            _ => Some(heading),
        }
    }
}

// The heading after a switch, by its letter. Straight on, a is for links along the switch's channel and b for links across it.
fn after_switch(down: bool, letter: u8, heading: Heading) -> Option<Heading> {
    let along = heading.is_across() == down;
    match letter {
        b'a' => if along { Some(heading) } else { None },
        b'b' => if along { None } else { Some(heading) },
        b'c' => Some(match heading {
            Heading::West => Heading::North,
            Heading::East => Heading::South,
            Heading::North => Heading::West,
            Heading::South => Heading::East,
        }),
        b'd' => Some(match heading {
            Heading::West => Heading::South,
            Heading::East => Heading::North,
            Heading::North => Heading::East,
            Heading::South => Heading::West,
        }),
        _ => None,
    }
}

// The heading after a processor: a fault joins the ends of its path's axis, but a dead one and any other processor ends a link.
fn after_processor(mark: u8, path: Option<Heading>, heading: Heading) -> Option<Heading> {
    let axis = path?;
    if array::is_dead(mark) || axis.is_across() != heading.is_across() {
        return None;
    }
    Some(heading)
}

// A line in a heading, with a minus sign where the heading goes back.
fn line(out: &mut impl Write, heading: Heading, length: usize) -> Result {
    let command = match heading {
        Heading::West => "h-",
        Heading::East => "h",
        Heading::North => "v-",
        Heading::South => "v",
    };
    write!(out, "{command}{length}")
}

// Half a switch's width along an axis where one of two headings goes back along it or on, else 0.
fn part(from: Heading, to: Heading, back: Heading, on: Heading) -> &'static str {
    if from == back || to == back {
        "-9"
    } else if from == on || to == on {
        " 9"
    } else {
        " 0"
    }
}

fn across_part(from: Heading, to: Heading) -> &'static str {
    part(from, to, Heading::West, Heading::East)
}

fn down_part(from: Heading, to: Heading) -> &'static str {
    part(from, to, Heading::North, Heading::South)
}

// A quarter turn inside a switch, from one heading to another.
fn turn(out: &mut impl Write, from: Heading, to: Heading) -> Result {
    write!(out, "q{}{}", across_part(from, from), down_part(from, from))?;
    write!(out, "{}{}", across_part(from, to), down_part(from, to))
}

// What a link draws inside a switch, a fault or a crossing of a half width: a line straight on, which a crossing needs none of, or a turn.
fn inside(out: &mut impl Write, half: usize, from: Heading, to: Heading) -> Result
    requires { half ≤ 20 }
{
    if from != to {
        turn(out, from, to)
    } else if half != 0 {
        line(out, from, 2 * half)
    } else {
        Ok(())
    }
}

// A link drawn from a point to the next: its heading after what stands there, where it goes on.
fn advance(
    out: &mut impl Write,
    wafer: &Wafer<'_>,
    from: Point,
    to: Point,
    heading: Heading,
) -> std::result::Result<Option<Heading>, Error> {
    let half = to.reach();
    line(
        out,
        heading,
        36usize.saturating_sub(from.reach()).saturating_sub(half),
    )?;
    let turned = to.heading_after(wafer, heading);
    if let Some(next) = turned {
        inside(out, half, heading, next)?;
    }
    Ok(turned)
}

// The start of a link: the east or the south port of a processor.
fn port(out: &mut impl Write, from: usize, heading: Heading) -> Result {
    let (x, y) = if heading.is_across() {
        (20, 0)
    } else {
        (0, 20)
    };
    write!(out, "M{} {}m{x} {y}", wafer::x_of(from), wafer::y_of(from))
}

// The link that leaves the processor at `from` heading east or south. Sixteen points are more than a link over three switches has.
fn link(out: &mut impl Write, wafer: &Wafer<'_>, from: usize, start: Heading) -> Result {
    port(out, from, start)?;
    let mut at = Point {
        row: from / 32 * 2,
        column: from % 32 * 2,
    };
    let mut heading = start;
    for _ in 0..16 {
        let next = at.step(heading);
        let Some(turned) = advance(out, wafer, at, next, heading)? else {
            break;
        };
        at = next;
        heading = turned;
    }
    Ok(())
}

// Whether the cell of p has a neighbour in a heading, east or south.
fn has_neighbour(wafer: &Wafer<'_>, p: usize, heading: Heading) -> bool {
    let further = if heading.is_across() {
        p % 32 < wafer.m
    } else {
        p / 32 < wafer.n
    };
    wafer.is_inner(p) && further
}

// The link of the cell of p to its neighbour in a heading, where it has one.
pub fn cell_link(out: &mut impl Write, wafer: &Wafer<'_>, p: usize, heading: Heading) -> Result {
    match wafer.place(p) {
        Some(place) if has_neighbour(wafer, p, heading) => link(out, wafer, place, heading),
        _ => Ok(()),
    }
}
