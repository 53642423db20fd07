// The operations on maps and plans, answering as the second ones do.
use array::{Refusal, Verdict};
use exact::Decision;
use readers::Head;
use repair::{Answer, Planner};
use second::cells::Places;
use second::links::{Side, Track};
use second::maps::{Map, Plan, Spot};
use second::planner::{Outcome, Planned};
use track::Followed;

// The error of an operation that refuses what is well formed.
#[derive(Clone, Copy)]
pub struct Refused;

// What fills a buffer that an operation is to write.
const UNWRITTEN: u8 = 9;

fn planned_of(found: trials::Outcome, plan: Plan) -> Planned {
    let (outcome, trials) = match found {
        trials::Outcome::Repaired(count) => (Outcome::Repaired, count),
        trials::Outcome::Beyond(count) => (Outcome::Beyond, count),
        trials::Outcome::Spent(count) => (Outcome::Spent, count),
    };
    Planned {
        outcome,
        trials,
        plan,
    }
}

// A decision, with no trials.
fn decided(decision: Decision, plan: Plan) -> Planned {
    let outcome = match decision {
        Decision::Repaired => Outcome::Repaired,
        Decision::Beyond => Outcome::Beyond,
    };
    Planned {
        outcome,
        trials: 0,
        plan,
    }
}

// A planner under a limit, which the exact one does not read.
pub fn planned(planner: Planner, map: &Map, limit: u32) -> Result<Planned, Refused> {
    let Map {
        rows,
        columns,
        marks,
    } = *map;
    let mut directions = [UNWRITTEN; 1024];
    let answer = match planner {
        Planner::Trials => repair::plan_repair(rows, columns, &marks, &mut directions, limit),
        Planner::Quick => repair::plan_quickly(rows, columns, &marks, &mut directions, limit),
        Planner::Exact => repair::plan_exactly(rows, columns, &marks, &mut directions),
    };
    let plan = Plan { directions };
    match answer {
        Answer::Planned(found) => Ok(planned_of(found, plan)),
        Answer::Decided(decision) => Ok(decided(decision, plan)),
        Answer::Refused(_) => Err(Refused),
    }
}

// The plan check: the number, place and second place of a plan that it refuses.
pub fn checked(map: &Map, plan: &Plan) -> Option<(u8, usize, usize)> {
    match plans::check_plan(map.rows, map.columns, &map.marks, &plan.directions) {
        Ok(()) => None,
        Err(refusal) => Some((refusal.number(), refusal.place, refusal.second)),
    }
}

// The placement of a plan.
pub fn placed(map: &Map, plan: &Plan) -> Result<Places, Refused> {
    let mut numbers = [u16::from(UNWRITTEN); 1024];
    match repair::place_cells(
        map.rows,
        map.columns,
        &map.marks,
        &plan.directions,
        &mut numbers,
    ) {
        Ok(()) => Ok(Places { numbers }),
        Err(_) => Err(Refused),
    }
}

// The track of a plan.
pub fn routed(map: &Map, plan: &Plan) -> Result<Track, Refused> {
    let mut across = [UNWRITTEN; 1024];
    let mut down = [UNWRITTEN; 1024];
    let verdict = repair::route_switches(
        map.rows,
        map.columns,
        &map.marks,
        &plan.directions,
        &mut across,
        &mut down,
    );
    match verdict {
        Ok(()) => Ok(Track {
            map: *map,
            plan: *plan,
            across,
            down,
        }),
        Err(_) => Err(Refused),
    }
}

// Where the follower says that the link of a cell by its east or south port comes out: the position, the port and the switches passed.
pub fn landed(track: &Track, cell: Spot, port: Side) -> Option<(usize, u8, u8)> {
    let followed = repair::follow_link(
        track.map.rows,
        track.map.columns,
        &track.map.marks,
        &track.plan.directions,
        &track.across,
        &track.down,
        cell.position(),
        usize::from(port == Side::South),
    );
    match followed {
        Ok(landing) => Some((landing.position, landing.port, landing.switches)),
        Err(_) => None,
    }
}

fn length_of(written: Result<usize, Refusal>) -> Result<usize, Refused> {
    match written {
        Ok(length) => Ok(length),
        Err(_) => Err(Refused),
    }
}

// The head of a file: N, M and the count.
type HeadTold = (usize, usize, usize);

fn told(head: Head) -> HeadTold {
    (head.rows, head.columns, head.count)
}

// Writes a map file and reads it back: its head and its marks.
pub fn map_again(map: &Map) -> Result<(HeadTold, [u8; 1024]), Refused> {
    let mut file = [UNWRITTEN; 4096];
    let length = length_of(writers::write_map(map.rows, map.columns, &map.marks, &mut file))?;
    let written = file.get(..length).ok_or(Refused)?;
    let mut marks = [UNWRITTEN; 1024];
    match readers::read_map(written, &mut marks) {
        Ok(head) => Ok((told(head), marks)),
        Err(_) => Err(Refused),
    }
}

// Writes a plan file with T and reads it back: its head, T and the plan.
pub fn plan_again(map: &Map, plan: &Plan, trials: u32) -> Result<(HeadTold, u32, Plan), Refused> {
    let mut file = [UNWRITTEN; 4096];
    let length = length_of(writers::write_plan(
        map.rows,
        map.columns,
        &plan.directions,
        trials,
        &mut file,
    ))?;
    let written = file.get(..length).ok_or(Refused)?;
    let mut directions = [UNWRITTEN; 1024];
    match readers::read_plan(written, &mut directions) {
        Ok((head, trials)) => Ok((told(head), trials, Plan { directions })),
        Err(_) => Err(Refused),
    }
}
