// Paths: whether one is open, and whether two of them meet or are a near-miss. The functions are inner parts of the operations.
#![tactic(auto)]

ghost use Rattle.std.specs.Prelude.{◌≡◌, ◌≤◌, ◌<◌, ◌-◌, length};
ghost use Rattle.paths.specs.Path.{ahead, path_length, is_free, from_rim, is_open, refuse_clash, Start};
ghost use Rattle.paths.specs.Table.{class, entry, byte_of, ClashTable, TableAgrees};
ghost use Rattle.paths.specs.Inner.{clash_of, PathAt};

use array::{Reason, Refusal, Shape, Verdict};
use table::CLASHES;

mod table;

// Entries of the clash table; one that is neither of these is a near-miss.
pub const CLEAR: u8 = 0;

const MEET: u8 = 1;

// A path: where it starts, an inner position of an array of this shape, and its direction.
#[derive(Clone, Copy)]
pub struct Path {
    pub shape: Shape,
    pub start: usize,
    pub direction: u8,
    pub ghost starts: { Start shape.rows shape.columns start direction },
}

impl Path {
    // How many processors the path has.
    pub fn length(self) -> usize
        ensures { result ≡ path_length self.shape.rows self.shape.columns self.start self.direction }
    {
        let x = self.start / 32;
        let y = self.start % 32;
        match self.direction {
            1 => self.shape.rows + 2 - x,
            2 => x + 1,
            3 => self.shape.columns + 2 - y,
            _ => y + 1,
        }
    }

    // The k-th processor of the path, its start being the 0th.
    pub fn step(self, k: usize) -> usize
        requires { k < path_length self.shape.rows self.shape.columns self.start self.direction }
        ensures { (result ≡ ahead self.start self.direction k) × (result < 1024) }
    {
        match self.direction {
            1 => self.start + 32 * k,
            2 => self.start - 32 * k,
            3 => self.start + k,
            _ => self.start - k,
        }
    }

    // Whether the path runs across the whole array.
    fn is_from_rim(self) -> bool
        ensures { result ≡ from_rim self.shape.rows self.shape.columns self.start self.direction }
    {
        let x = self.start / 32;
        let y = self.start % 32;
        match self.direction {
            1 => x == 1,
            2 => x == self.shape.rows,
            3 => y == 1,
            _ => y == self.shape.columns,
        }
    }

    // Whether no processor after the start is faulty.
    fn is_free(self, grid: &[u8; 1024]) -> bool
        ensures { result ≡ is_free self.shape.rows self.shape.columns grid.now self.start self.direction }
    {
        let count = self.length();
        for k in 1..count {
            if array::is_faulty(grid[self.step(k)]) {
                return false;
            }
        }
        true
    }

    // Whether the path is open: from a dead processor it runs across the whole array, and no processor after the start is faulty.
    pub fn is_open(self, grid: &[u8; 1024]) -> bool
        ensures { result ≡ is_open self.shape.rows self.shape.columns grid.now self.start self.direction }
    {
        if array::is_dead(grid[self.start]) & !self.is_from_rim() {
            return false;
        }
        self.is_free(grid)
    }
}

// The clash table, for a caller to lend: a constant is written out anew wherever it is named.
pub fn clash_table() -> [u8; 400]
    ensures { ClashTable result × TableAgrees result }
{
    CLASHES
}

// By how much a exceeds b, 0 where it does not.
fn excess(a: usize, b: usize) -> usize
    ensures { result ≡ a - b }
{
    if a < b { 0 } else { a - b }
}

// The class of a difference, second less first: 0 below -1, 1 at -1, 2 at 0, 3 at 1, 4 above 1.
fn class_of(first: u8, second: u8) -> usize
    requires { (first ≤ 31) × (second ≤ 31) }
    ensures { (result ≡ class first second) × (result ≤ 4) }
{
    let class = excess(second as usize + 2, first as usize);
    if 4 < class { 4 } else { class }
}

// The table's entry for two paths: one of direction d from row x and column y, and one of direction e from row v and column w.
pub fn find_entry(table: &[u8; 400], x: u8, y: u8, d: u8, v: u8, w: u8, e: u8) -> u8
    requires { ClashTable table.now × PathAt x y d × PathAt v w e }
    ensures { result ≡ byte_of (entry d e (class x v) (class y w)) }
{
    let pair = (d as usize - 1) * 4 + (e as usize - 1);
    table[pair * 25 + 5 * class_of(x, v) + class_of(y, w)]
}

// Tests 6 and 7 of two paths, from p and from q, by their entry.
pub fn check_clash(found: u8, p: usize, q: usize) -> Verdict
    ensures { result ≡ refuse_clash p q (clash_of found) }
{
    match found {
        CLEAR => Ok(()),
        MEET => Err(Refusal {
            reason: Reason::Meeting,
            place: p,
            second: q,
        }),
        _ => Err(Refusal {
            reason: Reason::NearMiss,
            place: p,
            second: q,
        }),
    }
}
