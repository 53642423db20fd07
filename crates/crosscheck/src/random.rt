// Random numbers, maps and plans.
ghost use Rattle.std.specs.Prelude.{◌-◌, ◌<◌, ◌≤◌};

use second::maps::{Direction, Map, Mark, Path, Plan, Spot};

// Where the faults of a map fall.
#[derive(Clone, Copy)]
enum Kind {
    Anywhere,
    Inner,
    // Near the middle of a cluster.
    Near,
    // On the rim or beside it, by the row or by the column.
    RimRow,
    RimColumn,
    // On the row or the column of the middle.
    Row,
    Column,
}

const KINDS: [Kind; 7] = [
    Kind::Anywhere,
    Kind::Inner,
    Kind::Near,
    Kind::RimRow,
    Kind::RimColumn,
    Kind::Row,
    Kind::Column,
];

// How the faults of a map are drawn: their kind, or none where each has its own, the middle of a cluster, and of how many
// inner faults one is dead, if any is.
#[derive(Clone, Copy)]
struct Style {
    kind: Option<Kind>,
    middle: Spot,
    share: Option<usize>,
}

// A generator of random numbers, Marsaglia's xorshift with 64 bits.
#[derive(Clone, Copy)]
pub struct Random {
    pub state: u64,
}

impl Random {
    // The next number.
    pub fn step(&mut self) -> u64 {
        let mut x = self.state;
        x ^= x << 13;
        x ^= x >> 7;
        x ^= x << 17;
        self.state = x;
        x
    }

    // A number below k, at most 256, or 0 where k is 0.
    pub fn draw(&mut self, k: usize) -> usize
        ensures { result ≤ k - 1 }
    {
        let x = (self.step() >> 11) % 256;
        if k == 0 { 0 } else { x as usize % k }
    }

    fn draw_direction(&mut self) -> Direction {
        Direction::ALL[self.draw(4)]
    }

    // A size: of 64 maps one is large, 11 are of middle size and 8 very small.
    pub fn draw_size(&mut self, map: usize) -> usize
        ensures { result ≤ 30 }
    {
        match map % 64 {
            0 => 20 + self.draw(11),
            1..=11 => 7 + self.draw(8),
            12..=19 => 1 + self.draw(4),
            _ => 1 + self.draw(7),
        }
    }

    // How many faults are drawn, most often near the number up to which maps of this size are repaired.
    fn draw_count(&mut self, map: &Map) -> usize {
        let sides = map.rows + map.columns;
        match self.draw(8) {
            0 => self.draw(4),
            1..=2 => sides / 2 + self.draw(sides + 1),
            3..=5 => sides + self.draw(sides + 1),
            6 => sides + self.draw(2 * sides + 1),
            _ => self.draw(4 * sides + 1),
        }
    }

    // A row or column of the array, rim included.
    fn draw_line(&mut self, k: usize) -> usize
        requires { k ≤ 30 }
        ensures { result < 32 }
    {
        self.draw(k + 2)
    }

    // An inner row or column.
    fn draw_inner(&mut self, k: usize) -> usize
        requires { k ≤ 30 }
        ensures { result < 32 }
    {
        1 + self.draw(k)
    }

    // A row or column within 2 of another one, wrapped at 32.
    fn draw_near(&mut self, i: usize) -> usize
        requires { i < 32 }
        ensures { result < 32 }
    {
        (i + 30 + self.draw(5)) % 32
    }

    // A row or column on the rim or beside it.
    fn draw_rim(&mut self, k: usize) -> usize
        requires { k ≤ 30 }
        ensures { result < 32 }
    {
        match self.draw(4) {
            0 => 0,
            1 => 1,
            2 => k + 1,
            _ => k,
        }
    }

    fn draw_inner_spot(&mut self, map: &Map) -> Spot {
        let row = self.draw_inner(map.rows);
        let column = self.draw_inner(map.columns);
        Spot { row, column }
    }

    fn draw_spot(&mut self, map: &Map, kind: Kind, middle: Spot) -> Spot {
        let row = match kind {
            Kind::Anywhere | Kind::RimColumn | Kind::Column => self.draw_line(map.rows),
            Kind::Inner => self.draw_inner(map.rows),
            Kind::Near => self.draw_near(middle.row),
            Kind::RimRow => self.draw_rim(map.rows),
            Kind::Row => middle.row,
        };
        let column = match kind {
            Kind::Anywhere | Kind::RimRow | Kind::Row => self.draw_line(map.columns),
            Kind::Inner => self.draw_inner(map.columns),
            Kind::Near => self.draw_near(middle.column),
            Kind::RimColumn => self.draw_rim(map.columns),
            Kind::Column => middle.column,
        };
        Spot { row, column }
    }

    // The mark of a fault: in one case of `share` that of a dead processor at an inner spot.
    fn draw_mark(&mut self, is_inner: bool, share: Option<usize>) -> Mark {
        match share {
            Some(share) if is_inner && self.draw(share) == 0 => Mark::Dead,
            _ => Mark::Faulty,
        }
    }

    // One more fault of a map, where a processor is.
    fn add_fault(&mut self, map: &mut Map, style: Style) {
        let kind = match style.kind {
            Some(kind) => kind,
            None => KINDS[self.draw(7)],
        };
        let spot = self.draw_spot(map, kind, style.middle);
        let mark = self.draw_mark(map.is_inner(spot), style.share);
        if map.is_there(spot) {
            map.put(spot, mark);
        }
    }

    // The kind of all faults of a map, if they have one.
    fn draw_kind(&mut self) -> Option<Kind> {
        match self.draw(12) {
            7..=9 => None,
            number => Some(KINDS.get(number).copied().unwrap_or(Kind::Inner)),
        }
    }

    // How many faults there are for a dead one: in half of the maps none is dead.
    fn draw_share(&mut self) -> Option<usize> {
        match self.draw(8) {
            0..=3 => None,
            4 => Some(1),
            5 => Some(2),
            6 => Some(4),
            _ => Some(8),
        }
    }

    // A random map.
    pub fn draw_map(&mut self, rows: usize, columns: usize) -> Map
        requires { (rows ≤ 30) × (columns ≤ 30) }
    {
        let mut map = Map::healthy(rows, columns);
        let kind = self.draw_kind();
        let middle = self.draw_inner_spot(&map);
        let count = self.draw_count(&map);
        let share = self.draw_share();
        for _ in 0..count {
            self.add_fault(
                &mut map,
                Style {
                    kind,
                    middle,
                    share,
                },
            );
        }
        map
    }

    // A path from a fault, drawn up to three times while it is not open.
    fn draw_path(&mut self, map: &Map, start: Spot) -> Path {
        for _ in 0..3 {
            let path = Path {
                start,
                direction: self.draw_direction(),
            };
            if !path.is_blocked(map) {
                return path;
            }
        }
        Path {
            start,
            direction: self.draw_direction(),
        }
    }

    // Random paths at the inner faults.
    pub fn draw_choice(&mut self, map: &Map) -> Plan {
        let mut plan = Plan::EMPTY;
        for start in (0..1024).map(Spot::at) {
            if map.is_inner_fault(start) {
                plan.put(self.draw_path(map, start));
            }
        }
        plan
    }

    // Random paths at inner spots, one spot in some.
    pub fn draw_paths(&mut self, map: &Map, one_in: usize) -> Plan {
        let mut plan = Plan::EMPTY;
        for start in (0..1024).map(Spot::at) {
            if map.is_inner(start) && self.draw(one_in) == 0 {
                plan.put(Path {
                    start,
                    direction: self.draw_direction(),
                });
            }
        }
        plan
    }

    // Alters one direction: that of a path in four cases of five, else that of any inner spot, and then also to none or to 5.
    pub fn alter(&mut self, map: &Map, plan: &Plan) -> Plan {
        let mut altered = *plan;
        let spot = self.draw_inner_spot(map);
        if self.draw(5) == 0 {
            altered.directions[spot.position()] = self.draw(6) as u8;
        } else {
            let start = pick(plan, spot);
            altered.put(Path {
                start,
                direction: self.draw_direction(),
            });
        }
        altered
    }
}

// The limit of a map: low for every third one, so that many are spent.
pub fn limit_of(map: usize) -> u32 {
    if map % 3 == 0 { 60 } else { 3000 }
}

// The first start of a path from a spot on, starting again from 0 at the end, or 0 where there is none.
fn pick(plan: &Plan, from: Spot) -> Spot {
    let first = from.position();
    (first..first + 1024)
        .map(Spot::at)
        .find(|spot| plan.direction(*spot).is_some())
        .unwrap_or(Spot::at(0))
}
