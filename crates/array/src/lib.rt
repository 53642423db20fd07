// Positions of the array, fault maps, and what the tests of a call's arguments answer.
#![tactic(auto)]

ghost use Rattle.std.specs.Prelude.{◌≡◌, true, ◌≤◌, ◌<◌, length, IfOk};
ghost use Rattle.array.specs.Place.{size, inner_at, corner_at, processor_at, inner, processor};
ghost use Rattle.array.specs.Reason.{number_of};
ghost use Rattle.array.specs.Tests.{refused_for, verdict_of};
ghost use Rattle.array.specs.Map.{dead_mark, faulty_mark, inner_faulty, allowed_at, marks_test, map_tests};

mod map;

pub use map::{Map, Shape};

// Why a call is refused. The values are the documents' numbers.
#[derive(Clone, Copy, Debug, PartialEq, Eq)]
pub enum Reason {
    // of no call
    Unknown = 0,
    Size = 1,
    BufferLength = 2,
    Mark = 3,
    Direction = 4,
    NotOpen = 5,
    Meeting = 6,
    NearMiss = 7,
    FileEnds = 8,
    NumberForm = 9,
    RecordPlace = 10,
    Repeated = 11,
    Trailing = 12,
    RecordDirection = 13,
    Room = 14,
    NoSuchLink = 15,
    SwitchByte = 16,
    TrackEnds = 17,
    FourthSwitch = 18,
    RecordOrder = 19,
    DeadPlace = 20,
    Trials = 21,
    NothingNew = 22,
    InUseOrDead = 23,
    NoDirection = 24,
}

// The refusal of a call: why, the place and the second place.
#[derive(Clone, Copy, Debug, PartialEq, Eq)]
pub struct Refusal {
    pub reason: Reason,
    pub place: usize,
    pub second: usize,
}

impl Refusal {
    // A refusal with one place.
    pub fn at(reason: Reason, place: usize) -> Self
        ensures { result ≡ refused_for reason place 0 }
    {
        Refusal {
            reason,
            place,
            second: 0,
        }
    }

    // The documents' number.
    pub fn number(self) -> u8
        ensures { result ≡ number_of self.reason }
    {
        self.reason as u8
    }
}

// What the tests of a call's arguments say.
pub type Verdict = Result<(), Refusal>;

// The functions of this crate are inner parts of the operations; some have a `requires`.

pub fn is_size(k: usize) -> bool
    ensures { result ≡ size k }
{
    (1 <= k) & (k <= 30)
}

pub fn is_inner_at(n: usize, m: usize, x: usize, y: usize) -> bool
    ensures { result ≡ inner_at n m x y }
{
    if (1 <= x) & (x <= n) {
        return (1 <= y) & (y <= m);
    }
    false
}

fn is_corner_at(n: usize, m: usize, x: usize, y: usize) -> bool
    requires { (n ≤ 30) × (m ≤ 30) }
    ensures { result ≡ corner_at n m x y }
{
    if (x == 0) | (x == n + 1) {
        return (y == 0) | (y == m + 1);
    }
    false
}

pub fn is_processor_at(n: usize, m: usize, x: usize, y: usize) -> bool
    requires { (n ≤ 30) × (m ≤ 30) }
    ensures { result ≡ processor_at n m x y }
{
    if (x <= n + 1) & (y <= m + 1) {
        return !is_corner_at(n, m, x, y);
    }
    false
}

pub fn is_inner(n: usize, m: usize, p: usize) -> bool
    ensures { result ≡ inner n m p }
{
    is_inner_at(n, m, p / 32, p % 32)
}

// The same as is_processor_at, asked in the order that is quicker where most positions are inner.
fn is_processor_inner_first(n: usize, m: usize, x: usize, y: usize) -> bool
    requires { (n ≤ 30) × (m ≤ 30) }
    ensures { result ≡ processor_at n m x y }
{
    if is_inner_at(n, m, x, y) {
        return true;
    }
    is_processor_at(n, m, x, y)
}

pub fn is_processor(n: usize, m: usize, p: usize) -> bool
    requires { (n ≤ 30) × (m ≤ 30) }
    ensures { result ≡ processor n m p }
{
    is_processor_inner_first(n, m, p / 32, p % 32)
}

// Whether a mark is that of a dead processor: a fault that conducts nothing.
pub fn is_dead(mark: u8) -> bool
    ensures { result ≡ dead_mark mark }
{
    mark == 3
}

// Whether a mark counts as faulty.
#[tactic(auto, unfolding(crate::specs::Map::faulty_mark))]
pub fn is_faulty(mark: u8) -> bool
    ensures { result ≡ faulty_mark mark }
{
    (mark == 1) | is_dead(mark)
}

// Whether an inner fault is at p, by its mark.
pub fn is_inner_fault(n: usize, m: usize, p: usize, mark: u8) -> bool
    ensures { result ≡ inner_faulty n m p mark }
{
    is_inner(n, m, p) & is_faulty(mark)
}

fn is_allowed(n: usize, m: usize, x: usize, y: usize, mark: u8) -> bool
    requires { (n ≤ 30) × (m ≤ 30) }
    ensures { result ≡ allowed_at n m x y mark }
{
    if is_inner_at(n, m, x, y) {
        return (mark <= 1) | is_dead(mark);
    }
    if is_processor_at(n, m, x, y) {
        mark <= 1
    } else {
        mark == 2
    }
}

// Test 3, row by row, so that the compiler can test once for a row what depends on the row alone.
fn check_marks(map: &Map) -> Verdict
    ensures { result ≡ marks_test map.now.shape.rows map.now.shape.columns map.now.grid.now }
{
    let Shape { rows, columns } = map.shape;
    for x in 0..32 {
        for y in 0..32 {
            let p = 32 * x + y;
            if !is_allowed(rows, columns, x, y, map.grid[p]) {
                return Err(Refusal::at(Reason::Mark, p));
            }
        }
    }
    Ok(())
}

// Tests 1 to 3, where `right` says that every lent buffer has 1,024 elements, the grid among them: the map that passes them.
#[tactic(auto, unfolding(crate::specs::Map::map_tests))]
pub fn check_map<'a>(n: usize, m: usize, right: bool, grid: &'a [u8]) -> Result<Map<'a>, Refusal>
    requires { right ≡ true → length grid.now ≡ 1024 }
    ensures tests { verdict_of result ≡ map_tests n m right grid.now }
    ensures map { IfOk result (λ map. (map.shape.rows ≡ n) × (map.shape.columns ≡ m) × (map.grid.now ≡ grid.now)) }
{
    if !(is_size(n) & is_size(m)) {
        return Err(Refusal::at(Reason::Size, 0));
    }
    if !right {
        return Err(Refusal::at(Reason::BufferLength, 0));
    }
    let map = Map::new(n, m, grid);
    check_marks(&map)?;
    Ok(map)
}
