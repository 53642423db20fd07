// The options of the faults, and their propagation (docs/EXACT.md).
ghost use Rattle.std.specs.Prelude.{◌≡◌, false, true, ℕ, ◌+◌, ◌≤◌, ◌<◌, ◌⊎◌, length};
ghost use Rattle.exact.specs.Options.{at};
ghost use Rattle.exact.specs.Inner.{Judged, clears_on, Held, Next, Listed, Others, Named, OneOf};
ghost use Rattle.exact.specs.Inner.{StrikesOne, StrikesThose, Strikes, Spreads, Settles, Solves};
ghost use Rattle.exact.specs.Steps.{CanSpread, AtRest};

use crate::faults::{Faults, Problem};

// At most two options for each fault, the lesser first and the same twice where there is one. 1 is the mark of a fault whose
// one option has struck.
#[derive(Clone, Copy)]
pub struct Options {
    pub low: [u8; 128],
    pub high: [u8; 128],
    pub done: [u8; 128],
}

impl Options {
    // Takes from fault g the options that do not pass with direction d of fault f; false where it is left none.
    fn strike_one(&mut self, faults: &Faults, f: usize, d: u8, g: usize) -> bool
        requires { Held (length faults.now.starts.now) self.old.low self.old.high × (f < length faults.now.starts.now)
            × (g < length faults.now.starts.now) × (f ≡ g → ⊥) × (1 ≤ d) × (d ≤ 4) }
        ensures { StrikesOne faults.now.starts.now self.old.low self.old.high f d g result self.new.low self.new.high
            × (self.new.done ≡ self.old.done) }
    {
        let low = self.low[g];
        let high = self.high[g];
        let a = faults.does_pass(f, d, g, low);
        if low == high {
            return a;
        }
        let b = faults.does_pass(f, d, g, high);
        if !(a | b) {
            return false;
        }
        self.low[g] = if a { low } else { high };
        self.high[g] = if b { high } else { low };
        true
    }

    // Fault f has one option. Takes from the faults that are named the options that do not pass with it; false where one is left none.
    fn strike_named(&mut self, faults: &Faults, f: usize, names: &[u8]) -> bool
        requires { Held (length faults.now.starts.now) self.old.low self.old.high
            × (f < length faults.now.starts.now) × (at self.old.low f ≡ at self.old.high f)
            × Others (length faults.now.starts.now) names.now f 0 (length names.now) }
        ensures { StrikesThose faults.now.starts.now (Named names.now 0 (length names.now)) self.old.low self.old.high
            f result self.new.low self.new.high × (self.new.done ≡ self.old.done) }
    {
        let d = self.low[f];
        for g in names {
            if !self.strike_one(faults, f, d, usize::from(*g)) {
                return false;
            }
        }
        true
    }

    // The same for every fault from this one on, except f.
    fn strike_rest(&mut self, faults: &Faults, f: usize, from: usize) -> bool
        requires { Held (length faults.now.starts.now) self.old.low self.old.high
            × (f < length faults.now.starts.now) × (at self.old.low f ≡ at self.old.high f) }
        ensures { StrikesThose faults.now.starts.now (λ j. from ≤ j) self.old.low self.old.high f result
            self.new.low self.new.high × (self.new.done ≡ self.old.done) }
    {
        let d = self.low[f];
        for g in from..faults.starts.len() {
            if g != f && !self.strike_one(faults, f, d, g) {
                return false;
            }
        }
        true
    }

    // The same for every other fault: those that row f names, and those from its rest on. The faults between pass.
    fn strike(&mut self, problem: &Problem, f: usize) -> bool
        requires { Held (length problem.now.faults.starts.now) self.old.low self.old.high
            × (f < length problem.now.faults.starts.now) × (at self.old.low f ≡ at self.old.high f)
            × Listed (length problem.now.faults.starts.now) (clears_on problem.now.faults.starts.now)
            (OneOf (at self.old.low) (at self.old.high)) problem.now.lists.now.names problem.now.lists.now.ends problem.now.lists.now.rest }
        ensures { Strikes problem.now.faults.starts.now self.old.low self.old.high f result self.new.low self.new.high
            × (self.new.done ≡ self.old.done) }
    {
        // a copy, which the loops below hold in registers
        let faults = problem.faults;
        let lists = problem.lists;
        let begin = usize::from(lists.ends[f]);
        let end = usize::from(lists.ends[f + 1]);
        self.strike_named(&faults, f, &lists.names[begin..end])
            && self.strike_rest(&faults, f, usize::from(lists.rest[f]))
    }

    // The first fault from `from` on that has one option and is not marked.
    fn find_from(&self, from: usize, count: usize) -> Option<usize>
        requires { (from ≤ count) × (count ≤ 128) }
        ensures { Next from count (at self.now.low) (at self.now.high) (at self.now.done) result }
    {
        for k in from..count {
            if (self.low[k] == self.high[k]) & (self.done[k] == 0) {
                return Some(k);
            }
        }
        None
    }

    // The first such fault from `from` on, else the first of all: few are passed over that were looked at before.
    fn find_next(&self, from: usize, count: usize) -> Option<usize>
        requires { (from ≤ count) × (count ≤ 128) }
        ensures { Next 0 count (at self.now.low) (at self.now.high) (at self.now.done) result }
    {
        match self.find_from(from, count) {
            Some(f) => Some(f),
            None => self.find_from(0, count),
        }
    }

    // Closes every fault that has one option, and those that then have one; false where a fault is left none.
    pub fn spread(&mut self, problem: &Problem) -> bool
        requires { CanSpread problem.now self.old }
        ensures { Spreads problem.now.faults.starts.now self.old.low self.old.high result self.new.low self.new.high self.new.done }
    {
        let count = problem.faults.starts.len();
        let mut from = 0;
        while let Some(f) = self.find_next(from, count) {
            if !self.strike(problem, f) {
                return false;
            }
            self.done[f] = 1;
            from = f + 1;
        }
        true
    }

    // Gives fault k the lesser of its options, where the propagation allows it, else the greater; false where it allows neither.
    fn settle(&mut self, problem: &Problem, k: usize) -> bool
        requires { CanSpread problem.now self.old × (k < length problem.now.faults.starts.now)
            × AtRest problem.now self.old }
        ensures { Settles problem.now.faults.starts.now k self.old.low self.old.high result self.new.low self.new.high self.new.done }
    {
        if self.low[k] == self.high[k] {
            return true;
        }
        let before = *self;
        self.high[k] = self.low[k];
        if self.spread(problem) {
            return true;
        }
        *self = before;
        self.low[k] = self.high[k];
        self.spread(problem)
    }

    // The first solution, as the lesser options, where all that have one option are closed.
    pub fn solve(&mut self, problem: &Problem) -> bool
        requires { CanSpread problem.now self.old
            × AtRest problem.now self.old }
        ensures { Solves problem.now.faults.starts.now self.old.low self.old.high result self.new.low self.new.high }
    {
        for k in 0..problem.faults.starts.len() {
            if !self.settle(problem, k) {
                return false;
            }
        }
        true
    }
}
