// The plan check of a slice of faults that the caller lends. check_fault_list is for callers; the other functions are inner parts.
#![tactic(auto)]

ghost use Rattle.std.specs.Prelude.{◌≡◌, [], ◌∷◌, ◌≤◌, take};
ghost use Rattle.array.specs.Tests.{told};
ghost use Rattle.lists.specs.FaultList.{entry_test, listed_test, list_tests, check_fault_list, FaultStarts};

use array::{Map, Reason, Refusal, Verdict};
use plans::{Fault, check_paths, list_faults};

// Test 4 of a listed fault, beside the inner fault at p.
fn check_entry(p: usize, fault: Fault) -> Verdict
    ensures { result ≡ entry_test p fault }
{
    let d = fault.direction;
    if !(fault.position == p) | ((d == 0) | (4 < d)) {
        return Err(Refusal::at(Reason::Direction, p.min(fault.position)));
    }
    Ok(())
}

// Test 4: the inner faults and the list, taken together.
fn check_entries(starts: &[u16], faults: &[Fault]) -> Verdict
    ensures { result ≡ listed_test starts.now faults.now }
{
    for (&start, &fault) in starts.iter().zip(faults) {
        check_entry(usize::from(start), fault)?;
    }
    let both = starts.len().min(faults.len());
    if let Some(&missing) = starts.get(both) {
        return Err(Refusal::at(Reason::Direction, usize::from(missing)));
    }
    if let Some(&beyond) = faults.get(both) {
        return Err(Refusal::at(Reason::Direction, beyond.position));
    }
    Ok(())
}

// Tests 4 to 7, where the inner faults are at `starts`.
fn check_beside(map: &Map, starts: &[u16], faults: &[Fault]) -> Verdict
    requires { FaultStarts map.now.shape.rows map.now.shape.columns map.now.grid.now starts.now }
    ensures { result ≡ list_tests map.now.shape.rows map.now.shape.columns map.now.grid.now faults.now }
{
    check_entries(starts, faults)?;
    // a list that passes has as many faults as the map, and a map fewer than 1,024
    let mut directions = [0u8; 1024];
    for (k, fault) in faults.iter().enumerate() {
        directions[k] = fault.direction;
    }
    let Map { shape, grid } = *map;
    check_paths(
        shape.rows,
        shape.columns,
        grid,
        starts,
        &directions[..faults.len()],
    )
}

// The plan check of a list of faults: whether they are the inner faults in row order with a plan's directions, or the first of
// tests 1 to 7 that refuses them.
#[tactic(auto, unfolding(crate::specs::FaultList::check_fault_list))]
pub fn check_fault_list(n: usize, m: usize, grid: &[u8], faults: &[Fault]) -> Verdict
    ensures { told result ≡ told (check_fault_list n m grid.now faults.now) }
{
    let map = array::check_map(n, m, grid.len() == 1024, grid)?;
    let mut starts = [0u16; 1024];
    let Map { shape, grid } = map;
    let count = list_faults(shape.rows, shape.columns, grid, &mut starts);
    check_beside(&map, &starts[..count], faults)
}

// The plan check of the list of the first `count` of four faults, for a caller that holds them by value.
pub fn check_few(
    n: usize,
    m: usize,
    grid: &[u8],
    a: Fault,
    b: Fault,
    c: Fault,
    d: Fault,
    count: usize,
) -> Verdict
    requires { count ≤ 4 }
    ensures { told result ≡ told (check_fault_list n m grid.now (take count (a ∷ b ∷ c ∷ d ∷ []))) }
{
    let list = [a, b, c, d];
    check_fault_list(n, m, grid, &list[..count])
}
