// The pairs one after the other, and the first plan that any of them leaves.
ghost use Rattle.std.specs.Prelude.{◌≡◌, true, false, ℕ, ◌≤◌, ◌<◌, ◌+◌, cond, length, MatchOption};
ghost use Rattle.exact.specs.Masks.{leaves, tried};
ghost use Rattle.exact.specs.Options.{at, NotLater};
ghost use Rattle.exact.specs.Problem.{Covered};
ghost use Rattle.exact.specs.Inner.{Judged, Ahead, Before, offered, lowest, highest, Offers, Starved, LeftBy, RowCovered, SomeCovered};
ghost use Rattle.exact.specs.Steps.{CanSpread, Ready, Tries, Improves};

use crate::faults::{Faults, Problem};
use crate::pair::Pair;
use crate::propagation::Options;

// The first and the last of the four directions that pass.
fn find_ends(south: bool, north: bool, east: bool, west: bool) -> Option<(u8, u8)>
    ensures { MatchOption result (lowest south north east west ≡ 0)
        (λ ends. (lowest south north east west ≡ 0 → ⊥) × (ends.0 ≡ lowest south north east west)
        × (ends.1 ≡ highest south north east west)) }
{
    let low = if south {
        1
    } else if north {
        2
    } else if east {
        3
    } else if west {
        4
    } else {
        return None;
    };
    let high = if west {
        4
    } else if east {
        3
    } else if north {
        2
    } else {
        1
    };
    Some((low, high))
}

// Whether direction d is allowed to fault k, alone and by the pair.
fn is_offered(faults: &Faults, pair: Pair, k: usize, d: u8) -> bool
    requires { (k < length faults.now.starts.now) × (1 ≤ d) × (d ≤ 4) }
    ensures { result ≡ offered pair.columns pair.a pair.b faults.now.starts.now faults.now.open.now k d }
{
    faults.is_open(k, d) && pair.does_leave(usize::from(faults.starts[k]), d)
}

// The options that the pair leaves, unless a fault is left none.
fn find_options(faults: &Faults, pair: Pair) -> Option<Options>
    requires { tried pair.columns pair.a pair.b ≡ true }
    ensures { MatchOption result (Starved pair.columns pair.a pair.b faults.now.starts.now faults.now.open.now)
        (λ o. Offers pair.columns pair.a pair.b faults.now.starts.now faults.now.open.now o.low o.high
        × ((k : ℕ) → k < 128 → at o.done k ≡ 0)) }
{
    let mut options = Options {
        low: [0; 128],
        high: [0; 128],
        done: [0; 128],
    };
    for k in 0..faults.starts.len() {
        let south = is_offered(faults, pair, k, 1);
        let north = is_offered(faults, pair, k, 2);
        let east = is_offered(faults, pair, k, 3);
        let west = is_offered(faults, pair, k, 4);
        let (low, high) = find_ends(south, north, east, west)?;
        options.low[k] = low;
        options.high[k] = high;
    }
    Some(options)
}

// Whether these directions come before the best plan so far, or there is none.
fn is_before(count: usize, directions: &[u8; 128], best: &Option<[u8; 128]>) -> bool
    requires { count ≤ 128 }
    ensures { Judged result (Before count directions.now best.now) (Ahead count best.now (at directions.now)) }
{
    match best {
        Some(best) => &directions[..count] < &best[..count],
        None => true,
    }
}

// The best so far, or the first solution of these options where that comes before it. No solution comes before what the
// propagation leaves as least options, so that most pairs need no more than that.
fn try_options(problem: &Problem, options: &mut Options, best: &mut Option<[u8; 128]>)
    requires { CanSpread problem.now options.old }
    ensures { Tries problem.now options.old best.old best.new }
{
    let count = problem.faults.starts.len();
    if !options.spread(problem) || !is_before(count, &options.low, best) {
        return;
    }
    if options.solve(problem) && is_before(count, &options.low, best) {
        *best = Some(options.low);
    }
}

// The best plan so far, and those that the pair leaves.
fn try_pair(problem: &Problem, pair: Pair, best: &mut Option<[u8; 128]>)
    requires { Ready problem.now × (tried pair.columns pair.a pair.b ≡ true) }
    ensures { Improves problem.now (LeftBy pair.columns pair.a pair.b problem.now.faults.starts.now) best.old best.new }
{
    if let Some(mut options) = find_options(&problem.faults, pair) {
        try_options(problem, &mut options, best);
    }
}

// The best plan so far, and those that the pair of faults a and b leaves.
fn try_ends(problem: &Problem, columns: bool, a: usize, b: usize, best: &mut Option<[u8; 128]>)
    requires { Ready problem.now }
    ensures { Improves problem.now (λ q. Covered (length problem.now.faults.starts.now) (at problem.now.faults.starts.now) q
        columns a b) best.old best.new }
{
    let faults = &problem.faults;
    if !faults.may_end(b, if columns { 3 } else { 1 }) {
        return;
    }
    let pair = Pair {
        columns,
        a: faults.find_end(0, a),
        b: faults.find_end(1023, b),
    };
    if pair.is_tried() {
        try_pair(problem, pair, best);
    }
}

// The best plan so far, and those that any pair with fault a leaves.
fn try_row(problem: &Problem, columns: bool, a: usize, best: &mut Option<[u8; 128]>)
    requires { Ready problem.now }
    ensures { Improves problem.now (RowCovered columns problem.now.faults.starts.now a) best.old best.new }
{
    let faults = &problem.faults;
    if !faults.may_end(a, if columns { 4 } else { 2 }) {
        return;
    }
    for b in 0..faults.starts.len() + 1 {
        try_ends(problem, columns, a, b, best);
    }
}

// The best plan so far, and those that any pair leaves, by rows or by columns.
pub fn try_pairs(problem: &Problem, columns: bool, best: &mut Option<[u8; 128]>)
    requires { Ready problem.now }
    ensures { Improves problem.now (SomeCovered columns problem.now.faults.starts.now) best.old best.new }
{
    for a in 0..problem.faults.starts.len() + 1 {
        try_row(problem, columns, a, best);
    }
}
