// A pair of faults, and the directions that it leaves the others (docs/EXACT.md).
ghost use Rattle.std.specs.Prelude.{◌≡◌, cond, ltb};
ghost use Rattle.array.specs.Place.{row, column};
ghost use Rattle.exact.specs.Masks.{fits, exchanged, leaves, tried};

// The pair (a, b), read by rows or by columns; a and b are positions, also where no fault stands.
#[derive(Clone, Copy)]
pub struct Pair {
    pub columns: bool,
    pub a: usize,
    pub b: usize,
}

// The row and the column of a position.
#[derive(Clone, Copy)]
struct Place {
    row: usize,
    column: usize,
}

impl Place {
    fn of(position: usize) -> Place
        ensures { (result.row ≡ row position) × (result.column ≡ column position) }
    {
        Place {
            row: position / 32,
            column: position % 32,
        }
    }

    // Rows and columns exchanged.
    fn turned(self) -> Place
        ensures { (result.row ≡ self.column) × (result.column ≡ self.row) }
    {
        Place {
            row: self.column,
            column: self.row,
        }
    }
}

// Whether x is less than y, or y less than x where a is not less than b.
fn is_side(a: usize, b: usize, x: usize, y: usize) -> bool
    ensures { result ≡ cond (ltb a b) (ltb x y) (ltb y x) }
{
    if a < b { x < y } else { y < x }
}

// Whether the ends at a and b leave direction d to a fault at p.
#[tactic(auto, unfolding(crate::specs::Masks::fits))]
fn does_fit(a: Place, b: Place, p: Place, d: u8) -> bool
    ensures { result ≡ fits a.row a.column b.row b.column p.row p.column d }
{
    match d {
        1 => (b.row <= p.row) & ((a.row < p.row) | is_side(a.column, b.column, a.column, p.column)),
        2 => (p.row <= a.row) & ((p.row < b.row) | is_side(a.column, b.column, p.column, b.column)),
        3 => {
            ((a.row < p.row) | (a.column < p.column)) & ((p.row < b.row) | (b.column < p.column))
        }
        4 => {
            ((a.row < p.row) | (p.column < a.column)) & ((p.row < b.row) | (p.column < b.column))
        }
        _ => false,
    }
}

// South and east, north and west exchanged.
fn exchange(d: u8) -> u8
    ensures { result ≡ exchanged d }
{
    match d {
        1 => 3,
        2 => 4,
        3 => 1,
        4 => 2,
        _ => 0,
    }
}

impl Pair {
    // Whether the pair leaves direction d to the fault at p.
    #[tactic(auto, unfolding(crate::specs::Masks::leaves))]
    pub fn does_leave(self, p: usize, d: u8) -> bool
        ensures { result ≡ leaves self.columns self.a self.b p d }
    {
        let a = Place::of(self.a);
        let b = Place::of(self.b);
        let p = Place::of(p);
        if self.columns {
            return does_fit(a.turned(), b.turned(), p.turned(), exchange(d));
        }
        does_fit(a, b, p, d)
    }

    // Whether the pair is tried.
    #[tactic(auto, unfolding(crate::specs::Masks::tried))]
    pub fn is_tried(self) -> bool
        ensures { result ≡ tried self.columns self.a self.b }
    {
        let a = Place::of(self.a);
        let b = Place::of(self.b);
        if self.columns {
            return a.column < b.column;
        }
        (a.row < b.row) | (a.column != b.column)
    }
}
