// The second placement: every cell at its own position, then the cells of each path moved on by one.
use crate::maps::{Map, Mark, Path, Plan, Spot};

// Where each cell sits: the number of its processor, or 0 where no cell is.
#[derive(Clone, Copy, PartialEq, Eq)]
pub struct Places {
    pub numbers: [u16; 1024],
}

impl Places {
    // How many cells there are.
    pub fn cells(&self) -> usize {
        self.numbers.iter().filter(|number| **number != 0).count()
    }

    pub fn spot(&self, cell: Spot) -> Spot {
        Spot::at(usize::from(self.numbers[cell.position()]))
    }

    fn put(&mut self, cell: Spot, place: Spot) {
        self.numbers[cell.position()] = place.position() as u16;
    }

    // Moves the cells of a path.
    fn shift(&mut self, map: &Map, path: Path) {
        let mut cell = path.start;
        for _ in 0..32 {
            if !map.is_inner(cell) {
                return;
            }
            let next = cell.ahead(path.direction);
            self.put(cell, next);
            cell = next;
        }
    }
}

// The cells where all of them stay.
fn unmoved(map: &Map) -> Places {
    let mut places = Places { numbers: [0; 1024] };
    for cell in (0..1024).map(Spot::at) {
        if map.is_inner(cell) {
            places.put(cell, cell);
        }
    }
    places
}

// The placement of a plan.
pub fn place(map: &Map, plan: &Plan) -> Places {
    let mut places = unmoved(map);
    for path in (0..1024).filter_map(|start| plan.path(Spot::at(start))) {
        places.shift(map, path);
    }
    places
}

// Whether every cell has a healthy processor of its own.
pub fn are_seated(map: &Map, places: &Places) -> bool {
    let mut taken = [false; 1024];
    for cell in (0..1024).map(Spot::at) {
        if map.is_inner(cell) {
            let place = places.spot(cell);
            if taken[place.position()] || map.mark(place) != Mark::Healthy {
                return false;
            }
            taken[place.position()] = true;
        }
    }
    true
}
