// Placement, switches and links of a repaired map compared.
use crate::answers::{Refused, landed, placed, routed};
use crate::counts::{Count, Difference, Tally};
use second::cells::{Places, are_seated, place};
use second::links::{Marks, Side, Track};
use second::maps::{Direction, Map, Plan, Spot};
use second::switches;

// How many switches a link between neighbours passes at most, and one that enters a dead processor.
const MOST_SWITCHES: u8 = 3;

// Both placements.
fn cross_cells(map: &Map, plan: &Plan, tally: &mut Tally) -> Result<Places, Refused> {
    let places = placed(map, plan)?;
    let own = place(map, plan);
    tally.compare(places == own, Difference::Placement);
    tally.compare(are_seated(map, &places), Difference::Seats);
    tally.add(Count::Cells, own.cells() as u64);
    Ok(places)
}

// Whether every byte of the switch buffers is the second routing's.
fn are_switches(track: &Track) -> bool {
    (0..1024).map(Spot::at).all(|spot| {
        let across = switches::across(&track.map, &track.plan, spot);
        let down = switches::down(&track.map, &track.plan, spot);
        track.across[spot.position()] == across && track.down[spot.position()] == down
    })
}

fn count_letter(track: &Track, letter: u8) -> u64 {
    let is_letter = |byte: &&u8| **byte == letter;
    let across = track.across.iter().filter(is_letter).count();
    let down = track.down.iter().filter(is_letter).count();
    across as u64 + down as u64
}

// Both routings.
fn cross_switches(map: &Map, plan: &Plan, tally: &mut Tally) -> Result<Track, Refused> {
    let track = routed(map, plan)?;
    tally.compare(are_switches(&track), Difference::Switches);
    tally.add(Count::LettersA, count_letter(&track, b'a'));
    tally.add(Count::LettersB, count_letter(&track, b'b'));
    tally.add(Count::LettersC, count_letter(&track, b'c'));
    tally.add(Count::LettersD, count_letter(&track, b'd'));
    Ok(track)
}

// A link of a cell, by its east or south port.
#[derive(Clone, Copy)]
struct Link {
    cell: Spot,
    port: Side,
}

impl Link {
    // The cell that it leads to, if there is one.
    fn neighbour(self, map: &Map) -> Option<Spot> {
        let towards = match self.port {
            Side::South => Direction::South,
            _ => Direction::East,
        };
        let beside = self.cell.ahead(towards);
        if map.is_inner(beside) {
            Some(beside)
        } else {
            None
        }
    }
}

// Both followers: to a neighbour, to the processor of its cell, and else to wherever the link ends, which may be a dead processor.
fn cross_link(track: &Track, places: &Places, link: Link, marks: &mut Marks, tally: &mut Tally) {
    let first = landed(track, link.cell, link.port);
    let second = track
        .follow(places.spot(link.cell), link.port, marks)
        .map(|landing| landing.told())
        .filter(|told| told.2 <= MOST_SWITCHES);
    let is_same = first == second;
    if let Some(neighbour) = link.neighbour(&track.map) {
        let wanted = (
            places.spot(neighbour).position(),
            link.port.opposite() as u8,
        );
        let arrives = first.is_some_and(|told| (told.0, told.1) == wanted);
        tally.compare(is_same && arrives, Difference::Link);
        tally.add(Count::Links, 1);
    } else {
        tally.compare(is_same, Difference::End);
        tally.add(Count::Ends, 1);
    }
}

// All links to a neighbour, or all to a side without one.
fn cross_links(
    are_beside: bool,
    track: &Track,
    places: &Places,
    marks: &mut Marks,
    tally: &mut Tally,
) {
    for cell in (0..1024).map(Spot::at) {
        for port in [Side::East, Side::South] {
            let link = Link { cell, port };
            let is_beside = link.neighbour(&track.map).is_some();
            if track.map.is_inner(cell) && is_beside == are_beside {
                cross_link(track, places, link, marks, tally);
            }
        }
    }
}

// A repaired map: placement, switches and links, no two of which to neighbours have a piece of track in common.
pub fn cross_track(
    map: &Map,
    plan: &Plan,
    marks: &mut Marks,
    tally: &mut Tally,
) -> Result<(), Refused> {
    let places = cross_cells(map, plan, tally)?;
    let track = cross_switches(map, plan, tally)?;
    marks.begin();
    cross_links(true, &track, &places, marks, tally);
    tally.compare(marks.shared == 0, Difference::Shared);
    tally.add(Count::Pieces, u64::from(marks.pieces));
    cross_links(false, &track, &places, marks, tally);
    Ok(())
}
