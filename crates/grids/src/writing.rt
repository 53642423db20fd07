// The text of a grid.
ghost use Rattle.std.specs.Prelude.{◌≡◌, ◌≤◌, ◌<◌, length, Ok};
ghost use Rattle.std.proofs.lemmas.List.Edits.{sets};
ghost use Rattle.array.specs.Map.{well_formed};
ghost use Rattle.writers.specs.Writing.{room_test, put};
ghost use Rattle.grids.specs.Text.{character, text_length, text_byte, text};

use array::{Reason, Refusal};

// The character of a mark.
fn character(mark: u8) -> u8
    ensures { result ≡ character mark }
{
    match mark {
        0 => b'.',
        1 => b'X',
        3 => b'D',
        _ => b' ',
    }
}

// The byte of a text at an index.
fn text_byte(n: usize, m: usize, grid: &[u8], i: usize) -> u8
    requires { (n ≤ 30) × (m ≤ 30) × (length grid.now ≡ 1024) × (i < text_length n m) }
    ensures { result ≡ text_byte n m grid.now i }
{
    let x = i / (m + 3);
    let y = i % (m + 3);
    if y == m + 2 {
        return b'\n';
    }
    character(grid[32 * x + y])
}

// Writes the text of a grid, which has `needed` bytes.
fn write_marks(n: usize, m: usize, grid: &[u8], needed: usize, out: &mut [u8])
    requires { (n ≤ 30) × (m ≤ 30) × (length grid.now ≡ 1024) × (needed ≡ text_length n m) × (needed ≤ length out.old) }
    ensures { out.new ≡ sets out.old 0 (text n m grid.now) }
{
    for i in 0..needed {
        out[i] = text_byte(n, m, grid, i);
    }
}

// Writes the text of a grid that passed its tests, where there is room.
pub fn write_tested(n: usize, m: usize, grid: &[u8], out: &mut [u8]) -> Result<usize, Refusal>
    requires { well_formed n m grid.now ≡ Ok tt }
    ensures { (result, out.new) ≡ put (room_test (text n m grid.now) out.old) (text n m grid.now) out.old }
{
    let needed = (n + 2) * (m + 3);
    if out.len() < needed {
        return Err(Refusal::at(Reason::Room, needed));
    }
    write_marks(n, m, grid, needed, out);
    Ok(needed)
}
