// Text grids: a map as a line of characters for each row of processors, the spare ring included, read into a grid and written from one.
#![tactic(auto)]

mod judging;
mod rows;
mod writing;
mod wrong;

ghost use Rattle.std.specs.Prelude.{◌≡◌};
ghost use Rattle.writers.specs.Writing.{told};
ghost use Rattle.grids.specs.Text.{write_text};
ghost use Rattle.grids.specs.Reading.{read_text};

use array::{Refusal, Verdict};
use rows::Rows;
pub use wrong::Wrong;

// Reads a text into a grid, which is then well-formed with the N and M that are answered; a text that is wrong leaves the grid as it was.
#[tactic(auto, unfolding(crate::specs::Reading::read_text))]
pub fn read_text(s: &[u8], grid: &mut [u8; 1024]) -> Result<(usize, usize), Wrong>
    ensures { (result ≡ (read_text s.now grid.old).0) × (grid.new ≡ (read_text s.now grid.old).1) }
{
    let mut rows = Rows::new();
    rows.take_lines(s)?;
    judging::read_rows(&rows, grid)
}

// Writes the text of a grid and answers its length, with the bytes after it kept. It refuses by 1 to 3, and by 14 where `out` is too short.
pub fn write_text(n: usize, m: usize, grid: &[u8], out: &mut [u8]) -> Result<usize, Refusal>
    ensures { (told result ≡ told (write_text n m grid.now out.old).0) × (out.new ≡ (write_text n m grid.now out.old).1) }
{
    array::check_map(n, m, grid.len() == 1024, grid)?;
    writing::write_tested(n, m, grid, out)
}
