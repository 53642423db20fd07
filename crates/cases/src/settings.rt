// What the calls work on, and the lines that set it up.
use crate::buffers::Buffer;
use crate::reports;
use crate::show::{self, Size};
use sessions::Session;
use words::Words;

// The most elements that a buffer of a wafer can be lent with.
pub const ELEMENTS: usize = 1025;

// The longest file.
pub const BYTES: usize = 4096;

// A wafer and its buffers, of a placement only with how many elements it is lent, a file, and the session that is held.
#[derive(Drop)]
pub struct State {
    pub size: Size,
    pub grid: Buffer<u8, ELEMENTS>,
    pub directions: Buffer<u8, ELEMENTS>,
    pub places: usize,
    pub across: Buffer<u8, ELEMENTS>,
    pub down: Buffer<u8, ELEMENTS>,
    pub file: Buffer<u8, BYTES>,
    pub held: Session,
}

// Elements of a buffer by their first and last rows and columns.
#[derive(Clone, Copy)]
struct Area {
    top: usize,
    bottom: usize,
    left: usize,
    right: usize,
}

impl Area {
    // One element, `ROW COLUMN VALUE`, or a rectangle, `ROW ROW COLUMN COLUMN VALUE`, with the value to give.
    fn of(words: &[&[u8]]) -> Option<(Self, u8)> {
        let (top, bottom, left, right, value) = match words {
            [row, column, value] => (row, row, column, column, value),
            [top, bottom, left, right, value] => (top, bottom, left, right, value),
            _ => return None,
        };
        let (top, bottom) = span(top, bottom)?;
        let (left, right) = span(left, right)?;
        let area = Area {
            top,
            bottom,
            left,
            right,
        };
        Some((area, words::byte(value)?))
    }

    fn has(&self, p: usize) -> bool {
        (self.top <= p / 32 && p / 32 <= self.bottom)
            && (self.left <= p % 32 && p % 32 <= self.right)
    }

    fn fill(&self, elements: &mut [u8], value: u8) {
        for (p, element) in elements.iter_mut().enumerate() {
            if self.has(p) {
                *element = value;
            }
        }
    }
}

// Two rows (or columns) of a buffer, the lower one first.
fn span(low: &[u8], high: &[u8]) -> Option<(usize, usize)> {
    let low = words::number(low)?;
    let high = words::number(high)?;
    (low <= high && high < 32).then_some((low, high))
}

// With how many elements a buffer of a wafer can be lent.
fn length(word: &[u8]) -> Option<usize> {
    words::number(word).filter(|k| *k <= ELEMENTS)
}

impl State {
    pub fn new() -> Self {
        State {
            size: Size { n: 0, m: 0 },
            grid: Buffer::of(0, 0),
            directions: Buffer::of(0, 0),
            places: 0,
            across: Buffer::of(0, 0),
            down: Buffer::of(0, 0),
            file: Buffer::of(0, 0),
            held: reports::no_session(),
        }
    }

    // A line but `file` that sets something up. `None` for any other, and for a wrong one.
    pub fn set(&mut self, words: &[&[u8]]) -> Option<()> {
        match words {
            [b"size", n, m] => self.set_size(Size {
                n: words::number(n)?,
                m: words::number(m)?,
            }),
            [b"lengths", lengths @ ..] => self.set_lengths(lengths)?,
            [b"held-rows", rows] => self.held.rows = words::number(rows)?,
            [b"held-columns", columns] => self.held.columns = words::number(columns)?,
            [name, place @ ..] => {
                let (area, value) = Area::of(place)?;
                area.fill(self.buffer(name)?, value);
            }
            _ => return None,
        }
        Some(())
    }

    // A blank grid, no direction and no letter.
    fn set_size(&mut self, size: Size) {
        self.size = size;
        self.grid = Buffer::of(0, 1024);
        for (p, mark) in self.grid.all_mut().iter_mut().enumerate() {
            *mark = size.first_mark(p);
        }
        self.directions = Buffer::of(0, 1024);
        self.places = 1024;
        self.across = Buffer::of(0, 1024);
        self.down = Buffer::of(0, 1024);
    }

    // GRID DIRECTIONS PLACES ACROSS DOWN
    fn set_lengths(&mut self, words: &[&[u8]]) -> Option<()> {
        let [grid, directions, places, across, down] = words else {
            return None;
        };
        let grid = length(grid)?;
        let directions = length(directions)?;
        let places = length(places)?;
        let across = length(across)?;
        let down = length(down)?;
        self.grid.lend(grid);
        self.directions.lend(directions);
        self.places = places;
        self.across.lend(across);
        self.down.lend(down);
        Some(())
    }

    // The buffer whose elements a line of this name sets, of the wafer or of the session.
    fn buffer(&mut self, name: &[u8]) -> Option<&mut [u8]> {
        match name {
            b"mark" => Some(self.grid.all_mut()),
            b"direction" => Some(self.directions.all_mut()),
            b"across" => Some(self.across.all_mut()),
            b"down" => Some(self.down.all_mut()),
            b"held-mark" => Some(&mut self.held.grid),
            b"held-direction" => Some(&mut self.held.directions),
            b"held-south" => Some(&mut self.held.south),
            b"held-north" => Some(&mut self.held.north),
            b"held-east" => Some(&mut self.held.east),
            b"held-west" => Some(&mut self.held.west),
            _ => None,
        }
    }

    // The line `file BYTES`. A word that is no byte leaves the one that is there.
    pub fn set_file(&mut self, line: &[u8]) {
        let bytes = Words::of(line).skip(1);
        let mut lent: usize = 0;
        for (own, word) in self.file.all_mut().iter_mut().zip(bytes) {
            match words::hex_byte(word) {
                Some(byte) => *own = byte,
                None => show::say(" -> error"),
            }
            lent = lent.saturating_add(1);
        }
        self.file.lend(lent);
    }
}
