// The layers of the picture. Each draws what one kind of thing looks like, position by position.
use crate::heading::Heading;
use crate::wafer::{Wafer, x_of, y_of};
use crate::{links, wafer};
use std::fmt::{Result, Write};

// What a layer draws. A path has a direction, a link the heading in which it leaves its cell.
#[derive(Clone, Copy, Debug, PartialEq, Eq, Hash)]
enum Layer {
    Labels,
    Tracks,
    Paths(Heading),
    Heads(Heading),
    Processors,
    Moved,
    Switches,
    Links(Heading),
    Cells,
}

// All layers, from the lowest to the highest.
const LAYERS: [Layer; 16] = [
    Layer::Labels,
    Layer::Tracks,
    Layer::Paths(Heading::South),
    Layer::Paths(Heading::North),
    Layer::Paths(Heading::East),
    Layer::Paths(Heading::West),
    Layer::Heads(Heading::South),
    Layer::Heads(Heading::North),
    Layer::Heads(Heading::East),
    Layer::Heads(Heading::West),
    Layer::Processors,
    Layer::Moved,
    Layer::Switches,
    Layer::Links(Heading::South),
    Layer::Links(Heading::East),
    Layer::Cells,
];

// The number of p's column above the first row, and that of p's row before the first column.
fn labels(out: &mut impl Write, wafer: &Wafer<'_>, p: usize) -> Result {
    let (row, column) = (p / 32, p % 32);
    if row == 0 && wafer.has_processor(column + 32) {
        writeln!(out, "<text x='{}' y='-36'>{column}</text>", x_of(p))?;
    }
    if column == 0 && wafer.has_processor(row * 32 + 1) {
        writeln!(out, "<text x='-40' y='{}'>{row}</text>", y_of(p))?;
    }
    Ok(())
}

// A line from the processor at p, where there is one.
fn track(out: &mut impl Write, on: bool, p: usize, line: &str) -> Result {
    if on {
        write!(out, "M{} {}{line}", x_of(p), y_of(p))?;
    }
    Ok(())
}

// The tracks on both sides of the switches filed under p, and from these switches to the next ones of their channels.
fn tracks(out: &mut impl Write, wafer: &Wafer<'_>, p: usize) -> Result {
    let across = wafer.has_across(p);
    let down = wafer.has_down(p);
    track(out, across, p, "h72")?;
    track(out, down, p, "v72")?;
    track(
        out,
        across && wafer.has_across(p.saturating_add(32)),
        p,
        "m36 0v72",
    )?;
    track(
        out,
        down && p % 32 <= wafer.m && wafer.has_down(p.saturating_add(1)),
        p,
        "m0 36h72",
    )
}

// The coordinate along its axis at which a path ends.
fn end_of(wafer: &Wafer<'_>, d: Heading) -> usize {
    match d {
        Heading::South => wafer::last_units(wafer.n),
        Heading::East => wafer::last_units(wafer.m),
        Heading::North | Heading::West => 0,
    }
}

// The path from p in direction d to the middle of its spare.
fn path(out: &mut impl Write, wafer: &Wafer<'_>, p: usize, d: Heading) -> Result {
    let axis = if d.is_across() { "H" } else { "V" };
    write!(out, "M{} {}{axis}{}", x_of(p), y_of(p), end_of(wafer, d))
}

// The arrowhead of the path from p in direction d, at its spare.
fn head(out: &mut impl Write, wafer: &Wafer<'_>, p: usize, d: Heading) -> Result {
    let (x, y, end) = (x_of(p), y_of(p), end_of(wafer, d));
    match d {
        Heading::South => write!(out, "M{x} {end}m0-4l-25-25h50z"),
        Heading::North => write!(out, "M{x} 4l-25 25h50z"),
        Heading::East => write!(out, "M{end} {y}m-4 0l-25-25v50z"),
        Heading::West => write!(out, "M4 {y}l25-25v50z"),
    }
}

// A symbol by its name, at a position.
fn symbol(out: &mut impl Write, name: &str, p: usize) -> Result {
    writeln!(
        out,
        "<use xlink:href='#{name}' x='{}' y='{}'/>",
        x_of(p),
        y_of(p)
    )
}

// The symbol of a fault: dead, or by what its path joins.
fn fault(mark: u8, path: Option<Heading>) -> &'static str {
    if array::is_dead(mark) {
        return "fd";
    }
    match path {
        None => "fo",
        Some(d) => if d.is_across() { "fh" } else { "fv" },
    }
}

// The processor at p: inner, spare, or a fault, dead or with what its path joins.
fn processor(out: &mut impl Write, wafer: &Wafer<'_>, p: usize) -> Result {
    let mark = wafer.mark(p);
    if array::is_faulty(mark) {
        symbol(out, fault(mark, wafer.direction(p)), p)
    } else if mark == 0 {
        symbol(out, if wafer.is_inner(p) { "pi" } else { "sp" }, p)
    } else {
        Ok(())
    }
}

// The processor that holds the cell of p, where the cell moved.
fn moved(out: &mut impl Write, wafer: &Wafer<'_>, p: usize) -> Result {
    match wafer.place(p) {
        Some(place) if place != p => {
            let way = Heading::of_move(p, place);
            writeln!(
                out,
                "<use xlink:href='#m{way}' x='{}' y='{}'/>",
                x_of(place),
                y_of(place)
            )
        }
        _ => Ok(()),
    }
}

// A switch, where there is one, with its letter, where it has one.
fn switch(out: &mut impl Write, on: bool, kind: char, letter: u8, p: usize) -> Result {
    if on {
        let second = if letter == 0 { 'o' } else { char::from(letter) };
        writeln!(
            out,
            "<use xlink:href='#{kind}{second}' x='{}' y='{}'/>",
            x_of(p),
            y_of(p)
        )?;
    }
    Ok(())
}

// The switches filed under p.
fn switches(out: &mut impl Write, wafer: &Wafer<'_>, p: usize) -> Result {
    switch(out, wafer.has_across(p), 'a', wafer.across_letter(p), p)?;
    switch(out, wafer.has_down(p), 'd', wafer.down_letter(p), p)
}

// The cell of p, where it has one: its index, in the processor that holds it.
fn cell(out: &mut impl Write, wafer: &Wafer<'_>, p: usize) -> Result {
    let Some(place) = wafer.place(p) else {
        return Ok(());
    };
    let class = if place == p { "" } else { " class='m'" };
    writeln!(
        out,
        "<text{class} x='{}' y='{}'>{},{}</text>",
        x_of(place),
        y_of(place),
        p / 32,
        p % 32
    )
}

impl Layer {
    // What the layer draws at p.
    fn draw_at(self, out: &mut impl Write, wafer: &Wafer<'_>, p: usize) -> Result {
        match self {
            Layer::Labels => labels(out, wafer, p),
            Layer::Tracks => tracks(out, wafer, p),
            Layer::Paths(d) if wafer.direction(p) == Some(d) => path(out, wafer, p, d),
            Layer::Heads(d) if wafer.direction(p) == Some(d) => head(out, wafer, p, d),
            Layer::Paths(_) | Layer::Heads(_) => Ok(()),
            Layer::Processors => processor(out, wafer, p),
            Layer::Moved => moved(out, wafer, p),
            Layer::Switches => switches(out, wafer, p),
            Layer::Links(h) => links::cell_link(out, wafer, p, h),
            Layer::Cells => cell(out, wafer, p),
        }
    }

    fn open(self, out: &mut impl Write) -> Result {
        match self {
            Layer::Labels => writeln!(out, "<g class='n' transform='translate(0 4)'>"),
            Layer::Tracks => write!(out, "<path class='u' d='"),
            Layer::Paths(d) => write!(out, "<path class='b {d}' d='"),
            Layer::Heads(d) => write!(out, "<path class='h {d}' d='"),
            Layer::Links(_) => write!(out, "<path class='l' d='"),
            Layer::Cells => writeln!(out, "<g class='c' transform='translate(0 4)'>"),
            Layer::Processors | Layer::Moved | Layer::Switches => writeln!(out, "<g>"),
        }
    }

    fn close(self, out: &mut impl Write) -> Result {
        match self {
            Layer::Tracks | Layer::Paths(_) | Layer::Heads(_) | Layer::Links(_) => writeln!(
                out,
                "'/>"
            ),
            _ => writeln!(out, "</g>"),
        }
    }
}

// The wafer, layer by layer.
pub fn draw(out: &mut impl Write, wafer: &Wafer<'_>) -> Result {
    for layer in LAYERS {
        layer.open(out)?;
        for p in 0..1024 {
            layer.draw_at(out, wafer, p)?;
        }
        layer.close(out)?;
    }
    Ok(())
}
