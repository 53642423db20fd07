// What is counted, and how it is printed.
use second::maps::{Map, Mark, Spot};
use second::planner::Outcome;
use std::io;

#[derive(Clone, Copy)]
pub enum Count {
    Maps,
    Faults,
    Dead,
    Repaired,
    Beyond,
    Spent,
    Trials,
    Limits,
    // Maps with a dead processor, by outcome.
    DeadRepaired,
    DeadBeyond,
    DeadSpent,
    // The quick planner's outcomes and trials, and how often it or the first planner decides alone.
    QuickRepaired,
    QuickBeyond,
    QuickSpent,
    QuickTrials,
    QuickOnly,
    FirstOnly,
    // Maps on which nothing can be settled, by outcome.
    CoresRepaired,
    CoresBeyond,
    CoresSpent,
    // The exact planner's verdicts, those where nothing can be settled, and how often both other planners are spent.
    ExactRepaired,
    ExactBeyond,
    ExactCoresRepaired,
    ExactCoresBeyond,
    BothSpent,
    Cells,
    LettersA,
    LettersB,
    LettersC,
    LettersD,
    Links,
    Pieces,
    // Links to a side without a neighbour.
    Ends,
    // Plan checks, by their finding.
    Accepted,
    Misplaced,
    Blocked,
    Shared,
    Passed,
    MapFiles,
    PlanFiles,
}

// The counts of a planner's outcomes.
#[derive(Clone, Copy)]
pub struct Outcomes {
    repaired: Count,
    beyond: Count,
    spent: Count,
}

impl Outcomes {
    pub const FIRST: Outcomes = Outcomes {
        repaired: Count::Repaired,
        beyond: Count::Beyond,
        spent: Count::Spent,
    };

    pub const DEAD: Outcomes = Outcomes {
        repaired: Count::DeadRepaired,
        beyond: Count::DeadBeyond,
        spent: Count::DeadSpent,
    };

    pub const QUICK: Outcomes = Outcomes {
        repaired: Count::QuickRepaired,
        beyond: Count::QuickBeyond,
        spent: Count::QuickSpent,
    };

    pub const CORES: Outcomes = Outcomes {
        repaired: Count::CoresRepaired,
        beyond: Count::CoresBeyond,
        spent: Count::CoresSpent,
    };
    // The exact planner is never spent.
    pub const EXACT: Outcomes = Outcomes {
        repaired: Count::ExactRepaired,
        beyond: Count::ExactBeyond,
        spent: Count::ExactBeyond,
    };

    pub const EXACT_CORES: Outcomes = Outcomes {
        repaired: Count::ExactCoresRepaired,
        beyond: Count::ExactCoresBeyond,
        spent: Count::ExactCoresBeyond,
    };

    fn of(self, outcome: Outcome) -> Count {
        match outcome {
            Outcome::Repaired => self.repaired,
            Outcome::Beyond => self.beyond,
            Outcome::Spent => self.spent,
        }
    }
}

// What differs.
#[derive(Clone, Copy)]
pub enum Difference {
    Outcome,
    Directions,
    Limit,
    Check,
    // Of the quick planner: verdicts, what it writes, and the answer where nothing can be settled.
    Verdict,
    QuickPlan,
    Core,
    // Of the exact planner: its answer from the first one's, its verdict from the quick one's, and what it writes.
    ExactAnswer,
    ExactVerdict,
    ExactPlan,
    Placement,
    Seats,
    Switches,
    Link,
    Shared,
    End,
    MapFile,
    PlanFile,
    Refusal,
}

// The lines of the counts, in the order in which they are printed.
const COUNTS: [(Count, &str); 40] = [
    (Count::Maps, "maps"),
    (Count::Faults, "faults"),
    (Count::Dead, "dead"),
    (Count::Repaired, "repaired"),
    (Count::Beyond, "beyond"),
    (Count::Spent, "spent"),
    (Count::Trials, "trials"),
    (Count::Limits, "limits tried again"),
    (Count::DeadRepaired, "repaired with a dead processor"),
    (Count::DeadBeyond, "beyond with a dead processor"),
    (Count::DeadSpent, "spent with a dead processor"),
    (Count::QuickRepaired, "quickly repaired"),
    (Count::QuickBeyond, "quickly beyond"),
    (Count::QuickSpent, "quickly spent"),
    (Count::QuickTrials, "quick trials"),
    (Count::QuickOnly, "spent for the first planner alone"),
    (Count::FirstOnly, "spent for the quick planner alone"),
    (Count::CoresRepaired, "repaired with nothing settled"),
    (Count::CoresBeyond, "beyond with nothing settled"),
    (Count::CoresSpent, "spent with nothing settled"),
    (Count::ExactRepaired, "exactly repaired"),
    (Count::ExactBeyond, "exactly beyond"),
    (
        Count::ExactCoresRepaired,
        "exactly repaired with nothing settled",
    ),
    (
        Count::ExactCoresBeyond,
        "exactly beyond with nothing settled",
    ),
    (Count::BothSpent, "decided by the exact planner alone"),
    (Count::Cells, "cells placed"),
    (Count::LettersA, "switches at a"),
    (Count::LettersB, "switches at b"),
    (Count::LettersC, "switches at c"),
    (Count::LettersD, "switches at d"),
    (Count::Links, "links followed"),
    (Count::Pieces, "pieces of track"),
    (Count::Ends, "links without a neighbour"),
    (Count::Accepted, "plans accepted"),
    (Count::Misplaced, "plans refused with 4"),
    (Count::Blocked, "plans refused with 5"),
    (Count::Shared, "plans refused with 6"),
    (Count::Passed, "plans refused with 7"),
    (Count::MapFiles, "map files read back"),
    (Count::PlanFiles, "plan files read back"),
];

// The lines of what differs, each printed only where something does.
const DIFFERENCES: [(Difference, &str); 19] = [
    (Difference::Outcome, "outcomes"),
    (Difference::Directions, "directions"),
    (Difference::Limit, "limits"),
    (Difference::Check, "plan checks"),
    (Difference::Verdict, "verdicts of the two planners"),
    (Difference::QuickPlan, "quick plans"),
    (Difference::Core, "answers with nothing settled"),
    (Difference::ExactAnswer, "exact answers"),
    (Difference::ExactVerdict, "exact verdicts"),
    (Difference::ExactPlan, "exact plans"),
    (Difference::Placement, "placements"),
    (Difference::Seats, "seats"),
    (Difference::Switches, "switches"),
    (Difference::Link, "links"),
    (Difference::Shared, "shared pieces"),
    (Difference::End, "links without a neighbour"),
    (Difference::MapFile, "map files"),
    (Difference::PlanFile, "plan files"),
    (Difference::Refusal, "refusals"),
];

// How many maps with differences are printed.
const MOST_SHOWN: u64 = 5;

#[derive(Clone, Copy)]
pub struct Tally {
    counts: [u64; 40],
    differences: [u64; 19],
    // How many differences there are in all.
    total: u64,
    // How many maps have a difference.
    different: u64,
}

impl Tally {
    pub const NEW: Tally = Tally {
        counts: [0; 40],
        differences: [0; 19],
        total: 0,
        different: 0,
    };

    pub fn get(&self, what: Count) -> u64 {
        self.counts[what as usize]
    }

    pub fn add(&mut self, what: Count, more: u64) {
        self.counts[what as usize] = self.counts[what as usize].wrapping_add(more);
    }

    pub fn add_outcome(&mut self, counts: Outcomes, outcome: Outcome) {
        self.add(counts.of(outcome), 1);
    }

    // Counts a difference unless two things are the same.
    pub fn compare(&mut self, is_same: bool, what: Difference) {
        if !is_same {
            self.differences[what as usize] = self.differences[what as usize].wrapping_add(1);
            self.total = self.total.wrapping_add(1);
        }
    }

    pub fn total(&self) -> u64 {
        self.total
    }

    // Prints the map where there are more differences than before it, for the first few such maps.
    pub fn show<R: Print>(&mut self, rt: &R, before: u64, map: &Map) -> io::Result<()> {
        if self.total == before {
            return Ok(());
        }
        self.different = self.different.wrapping_add(1);
        if self.different <= MOST_SHOWN {
            print_map(rt, self.get(Count::Maps), map)?;
        }
        Ok(())
    }

    // Prints every count on its own line, and how often something differs, if it does.
    pub fn print<R: Print>(&self, rt: &R) -> io::Result<()> {
        for (what, words) in &COUNTS {
            println!(rt; "{} {}", *words, self.get(*what))?;
        }
        for (what, words) in &DIFFERENCES {
            let count = self.differences[*what as usize];
            if count != 0 {
                println!(rt; "different {} {count}", *words)?;
            }
        }
        println!(rt; "differences {}", self.total)
    }
}

// Prints the row and column of everything that has this mark.
fn print_marked<R: Print>(rt: &R, map: &Map, mark: Mark) -> io::Result<()> {
    for spot in (0..1024).map(Spot::at) {
        if map.mark(spot) == mark {
            print!(rt; " {} {}", spot.row, spot.column)?;
        }
    }
    Ok(())
}

// Prints a map: its number, N, M, the faults and the dead processors.
fn print_map<R: Print>(rt: &R, number: u64, map: &Map) -> io::Result<()> {
    print!(rt;
        "difference at map {number}: {} {} faults",
        map.rows, map.columns
    )?;
    print_marked(rt, map, Mark::Faulty)?;
    print!(rt; " dead")?;
    print_marked(rt, map, Mark::Dead)?;
    println!(rt; "")
}
