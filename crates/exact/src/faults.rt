// The faults of a map, by their numbers, and the lists of those that may clash.
ghost use Rattle.std.specs.Prelude.{◌≡◌, false, true, cond, ℕ, ◌+◌, ◌*◌, ◌-◌, ◌≤◌, ◌<◌, ltb, length};
ghost use Rattle.exact.specs.Masks.{end_of};
ghost use Rattle.exact.specs.Options.{at};
ghost use Rattle.exact.specs.Inner.{Judged, clears_on, Sited, Passes, Listed, RowListed, Alone, alone_in, Stuck};

use paths::CLEAR;

// What two paths are tested by: the starts of the faults, the directions that are open to each alone, four for each, and the clash table.
#[derive(Clone, Copy)]
pub struct Faults<'a> {
    pub starts: &'a [u16],
    pub open: &'a [bool; 512],
    pub clashes: &'a [u8; 400],
    ghost sited: { Sited clashes.now starts.now },
}

impl Faults<'_> {
    // Whether direction d is open to fault k, alone.
    pub fn is_open(&self, k: usize, d: u8) -> bool
        requires { (k < 128) × (1 ≤ d) × (d ≤ 4) }
        ensures { result ≡ alone_in self.now.open.now k d }
    {
        self.open[4 * k + usize::from(d) - 1]
    }

    // Whether every fault has an open direction.
    pub fn have_paths(&self) -> bool
        ensures { Judged result (Unit {0}) (Stuck (length self.now.starts.now) self.now.open.now) }
    {
        for k in 0..self.starts.len() {
            let vertical = self.is_open(k, 1) | self.is_open(k, 2);
            let horizontal = self.is_open(k, 3) | self.is_open(k, 4);
            if !(vertical | horizontal) {
                return false;
            }
        }
        true
    }

    // The position of an end: of fault k, or what stands for none.
    pub fn find_end(&self, none: usize, k: usize) -> usize
        ensures { result ≡ end_of (length self.now.starts.now) (at self.now.starts.now) none k }
    {
        match self.starts.get(k) {
            Some(p) => usize::from(*p),
            None => none,
        }
    }

    // Whether an end may go in direction d, alone.
    pub fn may_end(&self, k: usize, d: u8) -> bool
        requires { (1 ≤ d) × (d ≤ 4) }
        ensures { result ≡ cond (ltb k (length self.now.starts.now)) (alone_in self.now.open.now k d) true }
    {
        self.starts.len() <= k || self.is_open(k, d)
    }

    // Whether the path of fault f in direction d and that of fault g in direction e are clear of each other.
    pub fn does_pass(&self, f: usize, d: u8, g: usize, e: u8) -> bool
        requires { (f < length self.now.starts.now) × (g < length self.now.starts.now) × (f ≡ g → ⊥)
            × (1 ≤ d) × (d ≤ 4) × (1 ≤ e) × (e ≤ 4) }
        ensures { result ≡ clears_on self.now.starts.now f d g e }
    {
        let p = self.starts[f];
        let q = self.starts[g];
        paths::find_entry(
            self.clashes,
            (p / 32) as u8,
            (p % 32) as u8,
            d,
            (q / 32) as u8,
            (q % 32) as u8,
            e,
        ) == CLEAR
    }

    // Whether direction d of fault f and direction e of fault g are both open, and their paths clash.
    fn does_clash(&self, f: usize, d: u8, g: usize, e: u8) -> bool
        requires { (f < length self.now.starts.now) × (g < length self.now.starts.now) × (f ≡ g → ⊥)
            × (1 ≤ d) × (d ≤ 4) × (1 ≤ e) × (e ≤ 4) }
        ensures { result ≡ false → alone_in self.now.open.now f d ≡ true → alone_in self.now.open.now g e ≡ true
            → clears_on self.now.starts.now f d g e ≡ true }
    {
        if !self.is_open(f, d) {
            return false;
        }
        if !self.is_open(g, e) {
            return false;
        }
        !self.does_pass(f, d, g, e)
    }

    // Whether two faults may clash: in some of their open directions.
    fn may_clash(&self, f: usize, g: usize) -> bool
        requires { (f < length self.now.starts.now) × (g < length self.now.starts.now) }
        ensures { Judged result (f ≡ g → ⊥)
            ((f ≡ g → ⊥) → Passes (clears_on self.now.starts.now) (Alone self.now.open.now) f g) }
    {
        if f == g {
            return false;
        }
        for i in 0..16u8 {
            if self.does_clash(f, i / 4 + 1, g, i % 4 + 1) {
                return true;
            }
        }
        false
    }
}

// For each fault f the faults that may clash with it: those that row f names, which has the places from ends[f] to ends[f + 1].
// Those from rest[f] on are not listed.
#[derive(Drop)]
pub struct Lists {
    pub names: [u8; 2048],
    pub ends: [u16; 129],
    pub rest: [u8; 128],
}

// What the search goes over: the faults, and the lists of those that may clash.
#[derive(Clone, Copy)]
pub struct Problem<'a> {
    pub faults: Faults<'a>,
    pub lists: &'a Lists,
}

impl Lists {
    // The lists of these faults.
    pub fn of(faults: &Faults) -> Lists
        ensures { Listed (length faults.now.starts.now) (clears_on faults.now.starts.now) (Alone faults.now.open.now)
            result.names result.ends result.rest }
    {
        let mut lists = Lists {
            names: [0; 2048],
            ends: [0; 129],
            rest: [0; 128],
        };
        for f in 0..faults.starts.len() {
            lists.add_row(faults, f);
        }
        lists
    }

    // Writes row f. Where the names are full it ends, and the rest is not listed.
    fn add_row(&mut self, faults: &Faults, f: usize)
        requires { (f < length faults.now.starts.now) × (at self.old.ends f ≤ 2048) }
        ensures { RowListed (length faults.now.starts.now) (clears_on faults.now.starts.now) (Alone faults.now.open.now) f
            self.old.names self.old.ends self.old.rest
            self.new.names self.new.ends self.new.rest }
    {
        let mut end = usize::from(self.ends[f]);
        let mut g = 0;
        while (g < faults.starts.len()) & (end < 2048) {
            if faults.may_clash(f, g) {
                self.names[end] = g as u8;
                end += 1;
            }
            g += 1;
        }
        self.ends[f + 1] = end as u16;
        self.rest[f] = g as u8;
    }
}
