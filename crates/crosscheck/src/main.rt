// Compares the proved operations with second ones and with brute force on random maps, and prints what was compared.
#![tactic(auto)]

mod answers;
mod counts;
mod exactly;
mod files;
mod planning;
mod quick;
mod random;
mod repaired;

ghost use Rattle.std.specs.Prelude.{◌≤◌};

use answers::Refused;
use console::Console;
use counts::{Count, Difference, Tally};
use random::Random;
use second::links::Marks;
use second::maps::{Map, Mark, Plan};
use second::planner::Outcome;
use std::io;

// How many maps are compared.
const MAPS: usize = 20000;

// One map to compare, with a generator of its own.
#[derive(Clone, Copy)]
struct Case {
    random: Random,
    map: Map,
    // The limit of the planners.
    limit: u32,
    // Whether the track of the quick planner's plan is compared, too.
    is_tracked: bool,
}

impl Case {
    // The case of a number, from a generator.
    fn draw(mut random: Random, number: usize) -> Case {
        let rows = random.draw_size(number);
        let columns = random.draw_size(number);
        let map = random.draw_map(rows, columns);
        Case {
            random,
            map,
            limit: random::limit_of(number),
            is_tracked: number % 6 == 1,
        }
    }
}

// The comparison of all maps: the marks of the pieces of track, and what is counted.
#[derive(Clone, Copy)]
struct Comparison {
    marks: Marks,
    tally: Tally,
}

impl Comparison {
    // A plan of a map, and its placement, switches and links.
    fn cross_plan(&mut self, map: &Map, plan: &Plan) -> Result<(), Refused> {
        planning::cross_check(map, plan, &mut self.tally);
        repaired::cross_track(map, plan, &mut self.marks, &mut self.tally)
    }

    // The first planner, and where it repairs the map, its plan, also altered.
    fn cross_first(&mut self, case: &mut Case) -> Result<(), Refused> {
        let first = planning::cross_plan(&case.map, case.limit, &mut self.tally)?;
        if first.outcome != Outcome::Repaired {
            return Ok(());
        }
        self.cross_plan(&case.map, &first.plan)?;
        files::cross_plan(&case.map, &first.plan, &mut self.tally)?;
        for _ in 0..3 {
            planning::cross_altered(&mut case.random, &case.map, &first.plan, &mut self.tally);
        }
        Ok(())
    }

    // The quick planner, and where it repairs the map and it is asked for, its plan.
    fn cross_quick(&mut self, case: &Case) -> Result<(), Refused> {
        let quick = quick::cross_verdict(&case.map, case.limit, &mut self.tally)?;
        quick::cross_written(&case.map, &quick, Difference::QuickPlan, &mut self.tally);
        if case.is_tracked && quick.outcome == Outcome::Repaired {
            self.cross_plan(&case.map, &quick.plan)?;
        }
        Ok(())
    }

    // The planners on the same map with the spares of all outermost faults faulty.
    fn cross_core(&mut self, case: &Case) -> Result<(), Refused> {
        let core = quick::closed(&case.map);
        quick::cross_closed(&core, case.limit, &mut self.tally)?;
        exactly::cross_closed(&core, &mut self.tally)
    }

    // What needs no plan.
    fn cross_others(&mut self, case: &mut Case) -> Result<(), Refused> {
        planning::cross_choice(&mut case.random, &case.map, &mut self.tally);
        planning::cross_choice(&mut case.random, &case.map, &mut self.tally);
        files::cross_map(&case.map, &mut self.tally)?;
        files::cross_paths(&mut case.random, &case.map, &mut self.tally)
    }

    fn cross(&mut self, case: &mut Case) -> Result<(), Refused> {
        self.tally.add(Count::Maps, 1);
        self.tally.add(Count::Faults, case.map.faults() as u64);
        self.tally
            .add(Count::Dead, case.map.count(Mark::Dead) as u64);
        self.cross_first(case)?;
        self.cross_quick(case)?;
        exactly::cross_map(&case.map, &mut self.tally)?;
        self.cross_core(case)?;
        self.cross_others(case)
    }

    // All maps. Those on which something differs are printed.
    fn cross_all<R: Print>(&mut self, rt: &R) -> io::Result<()> {
        let mut seeds = Random {
            state: 88172645463325252,
        };
        for number in 0..MAPS {
            let mut case = Case::draw(
                Random {
                    state: seeds.step(),
                },
                number,
            );
            let before = self.tally.total();
            let crossed = self.cross(&mut case);
            self.tally.compare(crossed.is_ok(), Difference::Refusal);
            self.tally.show(rt, before, &case.map)?;
        }
        Ok(())
    }
}

fn main() {
    let mut comparison = Comparison {
        marks: Marks::new(),
        tally: Tally::NEW,
    };
    // What cannot be written is lost: the status stays 0.
    let _ = comparison.cross_all(&Console);
    let _ = comparison.tally.print(&Console);
}
