// Whether the rows of a text are those of an array, and the grid of their characters.
ghost use Rattle.std.specs.Prelude.{◌≡◌, ◌≤◌, ◌<◌, get_or};
ghost use Rattle.grids.specs.Parts.{Small};
ghost use Rattle.grids.specs.Reading.{fault_letter, dead_letter, processor_mark, mark_of, grid_of, length_test, processor_test, letter_test, position_test, rows_test, read_rows};

use crate::rows::Rows;
use crate::wrong::{Character, Wrong};

// N and M of an array.
#[derive(Clone, Copy)]
struct Size {
    n: usize,
    m: usize,
    ghost small: { (n ≤ 30) × (m ≤ 30) },
}

// Whether a character stands for a faulty processor.
fn is_fault(b: u8) -> bool
    ensures { result ≡ fault_letter b }
{
    b == b'X' || b == b'x'
}

// Whether a character stands for a dead processor.
fn is_dead_letter(b: u8) -> bool
    ensures { result ≡ dead_letter b }
{
    b == b'D' || b == b'd'
}

// Judges the character of a processor, which is inner or a spare.
fn judge_processor(inner: bool, c: Character) -> Result<(), Wrong>
    ensures { result ≡ processor_test inner c.byte c.line c.column }
{
    if is_dead_letter(c.byte) {
        if inner {
            return Ok(());
        }
        return Err(Wrong::Dead(c));
    }
    if c.byte == b'.' || is_fault(c.byte) {
        return Ok(());
    }
    Err(Wrong::Mark(c))
}

// The mark of a processor, which is inner or a spare, by its character.
fn processor_mark(inner: bool, b: u8) -> u8
    ensures { result ≡ processor_mark inner b }
{
    if is_fault(b) {
        1
    } else if is_dead_letter(b) && inner {
        3
    } else {
        0
    }
}

impl Size {
    // Judges the length of row x.
    fn judge_length(self, rows: &Rows, x: usize) -> Result<(), Wrong>
        requires { x < 32 }
        ensures { result ≡ length_test self.n self.m x (get_or rows.now.lengths x 0) (get_or rows.now.lines x 0) (get_or rows.now.lines 1 0) }
    {
        let Size { n, m } = self;
        let (line, length) = (rows.lines[x], rows.lengths[x]);
        let second = rows.lines[1];
        if x == 0 || x == n + 1 {
            if length == m + 1 || length == m + 2 {
                return Ok(());
            }
            return Err(Wrong::Spares {
                line,
                column: m + 1,
                second,
            });
        }
        if length == m + 2 {
            return Ok(());
        }
        Err(Wrong::Length {
            line,
            length,
            second,
            width: m + 2,
        })
    }

    // Judges the character in row x and column y, a space where the row has none.
    fn judge_letter(self, x: usize, y: usize, b: u8, line: usize) -> Result<(), Wrong>
        requires { y < 32 }
        ensures { result ≡ letter_test self.n self.m x y b line }
    {
        let c = Character {
            line,
            column: y + 1,
            byte: b,
        };
        if array::is_processor_at(self.n, self.m, x, y) {
            return judge_processor(array::is_inner_at(self.n, self.m, x, y), c);
        }
        if b == b' ' || b == b'+' {
            return Ok(());
        }
        Err(Wrong::Corner(c))
    }

    // Judges what stands at a position, at the start of a row first the row's length.
    fn judge_position(self, rows: &Rows, p: usize) -> Result<(), Wrong>
        requires { p < 1024 }
        ensures { result ≡ position_test self.n self.m rows.now p }
    {
        let (x, y) = (p / 32, p % 32);
        if self.n + 1 < x {
            return Ok(());
        }
        if y == 0 {
            self.judge_length(rows, x)?;
        }
        self.judge_letter(x, y, rows.cells[p], rows.lines[x])
    }

    // Judges the rows, position by position.
    fn judge(self, rows: &Rows) -> Result<(), Wrong>
        ensures { result ≡ rows_test self.n self.m rows.now }
    {
        for p in 0..1024 {
            self.judge_position(rows, p)?;
        }
        Ok(())
    }

    // The mark of a position, by its character.
    fn mark_of(self, p: usize, b: u8) -> u8
        ensures { result ≡ mark_of self.n self.m p b }
    {
        if array::is_processor(self.n, self.m, p) {
            processor_mark(array::is_inner(self.n, self.m, p), b)
        } else {
            2
        }
    }

    // The grid of the characters.
    fn grid_of(self, cells: &[u8; 1024]) -> [u8; 1024]
        ensures { result ≡ grid_of self.n self.m cells.now }
    {
        let mut grid = [2u8; 1024];
        for p in 0..1024 {
            grid[p] = self.mark_of(p, cells[p]);
        }
        grid
    }
}

// Reads all rows into a grid.
#[tactic(auto, unfolding(crate::specs::Reading::read_rows))]
pub fn read_rows(rows: &Rows, grid: &mut [u8; 1024]) -> Result<(usize, usize), Wrong>
    requires { Small rows.now }
    ensures { (result, grid.new) ≡ read_rows rows.now grid.old }
{
    let count = rows.count;
    if count == 0 {
        return Err(Wrong::Empty);
    }
    if count < 3 {
        return Err(Wrong::Few(count));
    }
    let length = rows.lengths[1];
    if length < 3 {
        return Err(Wrong::Narrow {
            line: rows.lines[1],
            length,
        });
    }
    let size = Size {
        n: count - 2,
        m: length - 2,
    };
    size.judge(rows)?;
    *grid = size.grid_of(&rows.cells);
    Ok((size.n, size.m))
}
