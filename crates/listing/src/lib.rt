// The listing of a map file, as the bench program prints it: the map, the outcome, and after a repair the paths, the cells and the switches.
#![tactic(auto)]

ghost use Rattle.std.specs.Prelude.{◌≡◌, ◌≤◌, ◌∷◌, [], ◌++◌, cond, length};
ghost use Rattle.array.specs.Map.{inner_faulty};
ghost use Rattle.plans.specs.Inner.{Directed};
ghost use Rattle.repair.specs.declared.Planner.TheVariants.{Trials, Quick, Exact};
ghost use Rattle.writers.specs.Writing.{told};
ghost use Rattle.listing.specs.Listing.{along, digits, field, line, direction_letter, path_line, cell_line};
ghost use Rattle.listing.specs.Listing.{fault_bytes, seat_bytes, letter_bytes, switch_line, plan_lines};
ghost use Rattle.listing.specs.Listing.{repair_lines, outcome_lines, decision_lines, refusal_line, head_line, planned_lines};
ghost use Rattle.listing.specs.Listing.{listing, reported};
ghost use Rattle.listing.specs.Parts.{HasRoom, Fronts};

use array::{Reason, Refusal};
use arrayvec::ArrayVec;
use exact::Decision;
use readers::Head;
use repair::{Answer, Planner};
use trials::Outcome;

// The bytes of a listing, of which there are never more.
pub type Text = ArrayVec<u8, 32768>;

// Inner part: appends bytes.
fn push_bytes(text: &mut Text, bytes: &[u8])
    requires { HasRoom text.old.items bytes.now }
    ensures { text.new.items ≡ text.old.items ++ bytes.now }
{
    text.try_extend_from_slice(bytes).unwrap();
}

// Inner part: appends the decimal digits of a number that has at most `more` + 1 of them.
fn push_digits(text: &mut Text, more: usize, v: usize)
    requires { HasRoom text.old.items (digits more v) }
    ensures { text.new.items ≡ text.old.items ++ digits more v }
{
    if (more == 0) | (v < 10) {
        text.push((48 + v % 10) as u8);
        return;
    }
    push_digits(text, more - 1, v / 10);
    text.push((48 + v % 10) as u8);
}

// Inner part: appends a space and a number.
fn push_field(text: &mut Text, v: usize)
    requires { HasRoom text.old.items (field 0 v) }
    ensures { text.new.items ≡ text.old.items ++ field 0 v }
{
    text.push(b' ');
    push_digits(text, 19, v);
}

// Inner part: appends each number after a space.
fn push_fields(text: &mut Text, values: &[usize])
    requires { HasRoom text.old.items (along field 0 values.now) }
    ensures { text.new.items ≡ text.old.items ++ along field 0 values.now }
{
    for &value in values {
        push_field(text, value);
    }
}

// Inner part: appends a line of a word, numbers and an end.
fn push_line(text: &mut Text, word: &[u8], values: &[usize], end: &[u8])
    requires { HasRoom text.old.items (line word.now values.now end.now) }
    ensures { text.new.items ≡ text.old.items ++ line word.now values.now end.now }
{
    push_bytes(text, word);
    push_fields(text, values);
    push_bytes(text, end);
}

// Inner part: the letter of a direction; a space where it is none.
fn direction_letter(d: u8) -> u8
    ensures { result ≡ direction_letter d }
{
    match d {
        1 => b'S',
        2 => b'N',
        3 => b'E',
        4 => b'W',
        _ => b' ',
    }
}

// Inner part: appends the line of the path from p in direction d.
#[tactic(auto, unfolding(crate::specs::Listing::path_line))]
fn push_path(text: &mut Text, p: usize, d: u8)
    requires { HasRoom text.old.items (path_line p d) }
    ensures { text.new.items ≡ text.old.items ++ path_line p d }
{
    push_line(
        text,
        b"path",
        &[p / 32, p % 32],
        &[b' ', direction_letter(d), b'\n'],
    );
}

// Inner part: appends the line of the cell of p, which sits at q.
#[tactic(auto, unfolding(crate::specs::Listing::cell_line))]
fn push_cell(text: &mut Text, p: usize, q: usize)
    requires { HasRoom text.old.items (cell_line p q) }
    ensures { text.new.items ≡ text.old.items ++ cell_line p q }
{
    push_line(text, b"cell", &[p / 32, p % 32, q / 32, q % 32], b"\n");
}

// Inner part: appends the path at p where an inner fault is.
fn push_fault(text: &mut Text, n: usize, m: usize, p: usize, mark: u8, d: u8)
    requires { HasRoom text.old.items (cond (inner_faulty n m p mark) (path_line p d) []) }
    ensures { text.new.items ≡ text.old.items ++ cond (inner_faulty n m p mark) (path_line p d) [] }
{
    if array::is_inner_fault(n, m, p, mark) {
        push_path(text, p, d);
    }
}

// Inner part: appends the cell of p where p is inner.
fn push_seat(text: &mut Text, n: usize, m: usize, p: usize, q: u16)
    requires { HasRoom text.old.items (seat_bytes n m p q) }
    ensures { text.new.items ≡ text.old.items ++ seat_bytes n m p q }
{
    if array::is_inner(n, m, p) {
        push_cell(text, p, usize::from(q));
    }
}

// Inner part: appends the letter of a switch where there is one.
fn push_letter(text: &mut Text, letter: u8)
    requires { HasRoom text.old.items (letter_bytes 0 letter) }
    ensures { text.new.items ≡ text.old.items ++ letter_bytes 0 letter }
{
    if letter != 0 {
        text.push(letter);
    }
}

// Inner part: appends the path of each inner fault in row order.
fn push_paths(text: &mut Text, n: usize, m: usize, grid: &[u8; 1024], directions: &[u8; 1024])
    requires { HasRoom text.old.items (along (fault_bytes n m directions.now) 0 grid.now) }
    ensures { text.new.items ≡ text.old.items ++ along (fault_bytes n m directions.now) 0 grid.now }
{
    for p in 0..1024 {
        push_fault(text, n, m, p, grid[p], directions[p]);
    }
}

// Inner part: appends each cell in row order.
fn push_cells(text: &mut Text, n: usize, m: usize, places: &[u16; 1024])
    requires { HasRoom text.old.items (along (seat_bytes n m) 0 places.now) }
    ensures { text.new.items ≡ text.old.items ++ along (seat_bytes n m) 0 places.now }
{
    for p in 0..1024 {
        push_seat(text, n, m, p, places[p]);
    }
}

// Inner part: appends a line of a word and the letters of a switch buffer by position.
fn push_switches(text: &mut Text, word: &[u8], switches: &[u8; 1024])
    requires { HasRoom text.old.items (switch_line word.now switches.now) }
    ensures { text.new.items ≡ text.old.items ++ switch_line word.now switches.now }
{
    push_bytes(text, word);
    push_letters(text, switches);
    text.push(b'\n');
}

// Inner part: appends the letters of a switch buffer by position.
fn push_letters(text: &mut Text, switches: &[u8; 1024])
    requires { HasRoom text.old.items (along letter_bytes 0 switches.now) }
    ensures { text.new.items ≡ text.old.items ++ along letter_bytes 0 switches.now }
{
    for &letter in switches {
        push_letter(text, letter);
    }
}

// Inner part: appends the lines of a plan, with its placement and its switches.
fn push_repair(text: &mut Text, n: usize, m: usize, grid: &[u8; 1024], directions: &[u8; 1024])
    requires { HasRoom text.old.items (repair_lines n m grid.now directions.now) }
    ensures { text.new.items ≡ text.old.items ++ repair_lines n m grid.now directions.now }
{
    let mut places = [0u16; 1024];
    let mut across = [0u8; 1024];
    let mut down = [0u8; 1024];
    let _ = repair::place_cells(n, m, grid, directions, &mut places);
    let _ = repair::route_switches(n, m, grid, directions, &mut across, &mut down);
    push_paths(text, n, m, grid, directions);
    push_cells(text, n, m, &places);
    push_switches(text, b"across ", &across);
    push_switches(text, b"down ", &down);
}

// Inner part: appends a line of a word and a number.
fn push_count(text: &mut Text, word: &[u8], t: u32)
    requires { HasRoom text.old.items (line word.now (t ∷ []) (10 ∷ [])) }
    ensures { text.new.items ≡ text.old.items ++ line word.now (t ∷ []) (10 ∷ []) }
{
    push_line(text, word, &[t as usize], b"\n");
}

// Inner part: appends the outcome and what follows it.
fn push_outcome(
    text: &mut Text,
    o: Outcome,
    n: usize,
    m: usize,
    grid: &[u8; 1024],
    directions: &[u8; 1024],
)
    requires { HasRoom text.old.items (outcome_lines n m grid.now directions.now o) }
    ensures { text.new.items ≡ text.old.items ++ outcome_lines n m grid.now directions.now o }
{
    match o {
        Outcome::Repaired(t) => {
            push_count(text, b"repaired", t);
            push_repair(text, n, m, grid, directions);
        }
        Outcome::Beyond(t) => push_count(text, b"beyond", t),
        Outcome::Spent(t) => push_count(text, b"spent", t),
    }
}

// Inner part: appends what the exact planner decides and what follows it.
fn push_decision(
    text: &mut Text,
    d: Decision,
    n: usize,
    m: usize,
    grid: &[u8; 1024],
    directions: &[u8; 1024],
)
    requires { HasRoom text.old.items (decision_lines n m grid.now directions.now d) }
    ensures { text.new.items ≡ text.old.items ++ decision_lines n m grid.now directions.now d }
{
    match d {
        Decision::Repaired => {
            push_bytes(text, b"repaired\n");
            push_repair(text, n, m, grid, directions);
        }
        Decision::Beyond => push_bytes(text, b"beyond\n"),
    }
}

// Inner part: appends the line of a refusal.
#[tactic(auto, unfolding(crate::specs::Listing::refusal_line))]
fn push_refusal(text: &mut Text, e: Refusal)
    requires { HasRoom text.old.items (refusal_line e) }
    ensures { text.new.items ≡ text.old.items ++ refusal_line e }
{
    push_line(text, b"refused", &[usize::from(e.number()), e.place], b"\n");
}

// Inner part: appends the line of a map.
#[tactic(auto, unfolding(crate::specs::Listing::head_line))]
fn push_head(text: &mut Text, head: Head)
    requires { HasRoom text.old.items (head_line head) }
    ensures { text.new.items ≡ text.old.items ++ head_line head }
{
    push_line(text, b"map", &[head.rows, head.columns, head.count], b"\n");
}

// Inner part: appends the listing of a map that was read.
fn push_map(text: &mut Text, planner: Planner, head: Head, grid: &[u8; 1024])
    requires { HasRoom text.old.items (planned_lines planner head grid.now) }
    ensures { text.new.items ≡ text.old.items ++ planned_lines planner head grid.now }
{
    let n = head.rows;
    let m = head.columns;
    let mut directions = [0u8; 1024];
    match repair::plan_by(planner, n, m, grid, &mut directions, 1000000) {
        Answer::Planned(o) => {
            push_head(text, head);
            push_outcome(text, o, n, m, grid, &directions);
        }
        Answer::Decided(d) => {
            push_head(text, head);
            push_decision(text, d, n, m, grid, &directions);
        }
        Answer::Refused(r) => push_refusal(text, r),
    }
}

// Inner part: writes the listing of a map file by a planner to an empty text, which the caller has, so that there is one only.
pub fn list_map(planner: Planner, s: &[u8], text: &mut Text)
    requires { text.old.items ≡ [] }
    ensures { text.new.items ≡ listing planner s.now }
{
    let mut grid = [0u8; 1024];
    match readers::read_map(s, &mut grid) {
        Ok(head) => push_map(text, planner, head, &grid),
        Err(r) => push_refusal(text, r),
    }
}

// Inner part: writes the listing of a map file to the front of `out`, where there is always room, and gives its length.
pub fn write_listing(planner: Planner, out: &mut [u8], s: &[u8]) -> usize
    requires { length out.old ≡ 32768 }
    ensures { Fronts (listing planner s.now) result out.new }
{
    let mut text = Text::new();
    list_map(planner, s, &mut text);
    let length = text.len();
    out[..length].copy_from_slice(text.as_slice());
    length
}

// Writes the listing of a map file by a planner to `out` and answers its length, with the bytes after it kept. Where `out` is too
// short it is 14, with the length needed as place, and nothing is written.
pub fn report_by(planner: Planner, s: &[u8], out: &mut [u8]) -> Result<usize, Refusal>
    ensures { (told result ≡ told (reported planner s.now out.old).0)
        × (out.new ≡ (reported planner s.now out.old).1) }
{
    let mut text = Text::new();
    list_map(planner, s, &mut text);
    let needed = text.len();
    if out.len() < needed {
        return Err(Refusal::at(Reason::Room, needed));
    }
    out[..needed].copy_from_slice(text.as_slice());
    Ok(needed)
}

// The listing by the trial rule.
pub fn report(s: &[u8], out: &mut [u8]) -> Result<usize, Refusal>
    ensures { (told result ≡ told (reported Trials s.now out.old).0)
        × (out.new ≡ (reported Trials s.now out.old).1) }
{
    report_by(Planner::Trials, s, out)
}

// The same with the quick planner.
pub fn report_quickly(s: &[u8], out: &mut [u8]) -> Result<usize, Refusal>
    ensures { (told result ≡ told (reported Quick s.now out.old).0)
        × (out.new ≡ (reported Quick s.now out.old).1) }
{
    report_by(Planner::Quick, s, out)
}

// The same with the exact planner, whose second line is `repaired` or `beyond` without a count.
pub fn report_exactly(s: &[u8], out: &mut [u8]) -> Result<usize, Refusal>
    ensures { (told result ≡ told (reported Exact s.now out.old).0)
        × (out.new ≡ (reported Exact s.now out.old).1) }
{
    report_by(Planner::Exact, s, out)
}
