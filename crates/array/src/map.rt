ghost use Rattle.std.specs.Prelude.{◌≡◌, ◌≤◌, ◌<◌, length};
ghost use Rattle.array.specs.Place.{inner, processor_at, processor};
ghost use Rattle.array.specs.Map.{faulty, dead, inner_fault};

// The shape of an array: N rows and M columns of logical cells.
#[derive(Clone, Copy)]
pub struct Shape {
    pub rows: usize,
    pub columns: usize,
    pub ghost small: { (rows ≤ 30) × (columns ≤ 30) },
}

impl Shape {
    pub fn is_inner(self, p: usize) -> bool
        ensures { result ≡ inner self.rows self.columns p }
    {
        super::is_inner(self.rows, self.columns, p)
    }

    // Whether a processor is at a row and a column, inner or a spare.
    pub fn is_processor_at(self, x: usize, y: usize) -> bool
        ensures { result ≡ processor_at self.rows self.columns x y }
    {
        super::is_processor_at(self.rows, self.columns, x, y)
    }

    pub fn is_processor(self, p: usize) -> bool
        ensures { result ≡ processor self.rows self.columns p }
    {
        super::is_processor(self.rows, self.columns, p)
    }
}

// A fault map: the marks of the positions of an array.
#[derive(Clone, Copy)]
pub struct Map<'a> {
    pub shape: Shape,
    pub grid: &'a [u8; 1024],
    pub ghost long: { length grid.now ≡ 1024 },
}

impl<'a> Map<'a> {
    // The map of buffers whose sizes are known to be right.
    pub fn new(n: usize, m: usize, grid: &'a [u8]) -> Self
        requires { (n ≤ 30) × (m ≤ 30) × (length grid.now ≡ 1024) }
        ensures { (result.shape.rows ≡ n) × (result.shape.columns ≡ m) × (result.grid.now ≡ grid.now) }
    {
        let shape = Shape {
            rows: n,
            columns: m,
        };
        Map {
            shape,
            grid: grid.try_into().unwrap(),
        }
    }

    pub fn is_faulty(&self, p: usize) -> bool
        requires { p < 1024 }
        ensures { result ≡ faulty self.now.grid.now p }
    {
        super::is_faulty(self.grid[p])
    }

    pub fn is_dead(&self, p: usize) -> bool
        requires { p < 1024 }
        ensures { result ≡ dead self.now.grid.now p }
    {
        super::is_dead(self.grid[p])
    }

    pub fn has_inner_fault(&self, p: usize) -> bool
        requires { p < 1024 }
        ensures { result ≡ inner_fault self.now.shape.rows self.now.shape.columns self.now.grid.now p }
    {
        super::is_inner_fault(self.shape.rows, self.shape.columns, p, self.grid[p])
    }
}
