// Files written and read back.
use crate::answers::{Refused, map_again, plan_again};
use crate::counts::{Count, Difference, Tally};
use crate::random::Random;
use second::maps::{Map, Plan};

// A map file, written and read back.
pub fn cross_map(map: &Map, tally: &mut Tally) -> Result<(), Refused> {
    let (head, marks) = map_again(map)?;
    let is_head = head == (map.rows, map.columns, map.faults());
    tally.compare(is_head && marks == map.marks, Difference::MapFile);
    tally.add(Count::MapFiles, 1);
    Ok(())
}

// T of a plan file, by how many there were before it: in turn of one byte, of two and of three.
fn trials_of(files: u64) -> u32 {
    let k = (files % 16256) as u32;
    match files % 3 {
        0 => k % 128,
        1 => 128 + k,
        _ => 16384 + 128 * k + k % 128,
    }
}

// A plan file, written and read back.
pub fn cross_plan(map: &Map, plan: &Plan, tally: &mut Tally) -> Result<(), Refused> {
    let trials = trials_of(tally.get(Count::PlanFiles));
    let (head, trials_again, again) = plan_again(map, plan, trials)?;
    let is_head = head == (map.rows, map.columns, plan.paths());
    tally.compare(
        is_head && trials_again == trials && again == *plan,
        Difference::PlanFile,
    );
    tally.add(Count::PlanFiles, 1);
    Ok(())
}

// A plan file of random paths.
pub fn cross_paths(random: &mut Random, map: &Map, tally: &mut Tally) -> Result<(), Refused> {
    let one_in = 1 + random.draw(6);
    let plan = random.draw_paths(map, one_in);
    cross_plan(map, &plan, tally)
}
