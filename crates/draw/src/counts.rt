// Numbers of things, as they are printed.
use std::fmt;

// A number in decimal, with a comma before each three digits.
#[derive(Clone, Copy)]
struct Grouped(u64);

impl fmt::Display for Grouped {
    fn fmt<W: fmt::Write>(&self, f: &mut fmt::Formatter<W>) -> fmt::Result {
        let v = self.0;
        if v < 1_000 {
            write!(f, "{v}")
        } else if v < 1_000_000 {
            write!(f, "{},{:03}", v / 1_000, v % 1_000)
        } else {
            write!(
                f,
                "{},{:03},{:03}",
                v / 1_000_000,
                v / 1_000 % 1_000,
                v % 1_000
            )
        }
    }
}

// So many of a thing.
#[derive(Clone, Copy)]
pub struct Counted {
    pub number: u64,
    pub thing: &'static str,
}

impl fmt::Display for Counted {
    fn fmt<W: fmt::Write>(&self, f: &mut fmt::Formatter<W>) -> fmt::Result {
        let plural = if self.number == 1 { "" } else { "s" };
        write!(f, "{} {}{plural}", Grouped(self.number), self.thing)
    }
}
