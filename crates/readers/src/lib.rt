// The readers of map and plan files.
#![tactic(auto)]

ghost use Rattle.std.specs.Prelude.{◌≡◌, ℕ, ◌≤◌, ◌<◌, length, Ok};
ghost use Rattle.array.specs.Place.{position};
ghost use Rattle.array.specs.Reason.{reason_of};
ghost use Rattle.formats.specs.Number.{size_at};
ghost use Rattle.formats.specs.Records.{blank};
ghost use Rattle.readers.specs.Reading.{told, told_map, record_at, records_at, whole_file, dead_at, second_at, trials_at};
ghost use Rattle.readers.specs.Reading.{rest_at, body_at, read_file, read_map, read_plan};
ghost use Rattle.readers.specs.Parts.{blank_mark, stands_at, off_number, repeated, value_at, is_value, marked};
ghost use Rattle.formats.specs.declared.Record.TheVariants.{Dead};

use array::{Reason, Refusal};
use formats::{Kind, Record};

// What both readers return of a file: N, M and the count, which of a map is that of both lists.
#[derive(Clone, Copy)]
pub struct Head {
    pub rows: usize,
    pub columns: usize,
    pub count: usize,
}

// A record as its numbers say it: the offset where it begins, its row and column, what it writes, and the offset after it.
#[derive(Clone, Copy)]
struct Entry {
    start: usize,
    row: usize,
    column: usize,
    value: u32,
    end: usize,
}

// The inner parts of the readers; some have a `requires`.

// N or M at an offset, with the offset after it, or its refusal.
fn read_size(s: &[u8], at: usize) -> Result<(u32, usize), Refusal>
    ensures { result ≡ size_at s.now at }
{
    let answer = formats::read_number(s, at);
    let Ok((size, _)) = answer else {
        return answer;
    };
    if array::is_size(size as usize) {
        return answer;
    }
    Err(Refusal::at(Reason::Size, at))
}

// What a blank buffer holds in a row and a column.
fn blank_mark(kind: Kind, n: usize, m: usize, x: usize, y: usize) -> u8
    requires { (n ≤ 30) × (m ≤ 30) × (y < 32) }
    ensures { result ≡ blank_mark kind n m (position x y) }
{
    match kind {
        Kind::Map => {
            if array::is_processor_at(n, m, x, y) {
                return 0;
            }
            2
        }
        Kind::Plan => 0,
    }
}

// The buffer that a file with no record stands for. Row by row, so that what depends on the row only is tested once for a row.
fn blank_buffer(kind: Kind, n: usize, m: usize) -> [u8; 1024]
    requires { (n ≤ 30) × (m ≤ 30) }
    ensures { result ≡ blank kind n m }
{
    let mut b = [0u8; 1024];
    for x in 0..32 {
        for y in 0..32 {
            b[32 * x + y] = blank_mark(kind, n, m, x, y);
        }
    }
    b
}

// Whether a record may stand at its row and column.
fn may_stand(kind: Record, head: Head, entry: Entry) -> bool
    requires { (head.rows ≤ 30) × (head.columns ≤ 30) }
    ensures { result ≡ stands_at kind head.rows head.columns entry.row entry.column }
{
    match kind {
        Record::Fault => array::is_processor_at(head.rows, head.columns, entry.row, entry.column),
        Record::Dead | Record::Path => array::is_inner_at(
            head.rows,
            head.columns,
            entry.row,
            entry.column,
        ),
    }
}

// Why a record may not stand where it does.
fn off_reason(kind: Record) -> Reason
    ensures { result ≡ reason_of (off_number kind) }
{
    match kind {
        Record::Fault | Record::Path => Reason::RecordPlace,
        Record::Dead => Reason::DeadPlace,
    }
}

// Whether a record repeats an element: a fault of either list, or a direction.
fn is_repeated(kind: Record, v: u8) -> bool
    ensures { result ≡ repeated kind v }
{
    match kind {
        Record::Fault => array::is_faulty(v),
        Record::Dead => array::is_faulty(v),
        Record::Path => v != 0,
    }
}

// What a record writes, with the offset after the record, or its refusal.
fn read_value(kind: Record, s: &[u8], at: usize) -> Result<(u32, usize), Refusal>
    ensures { result ≡ value_at kind s.now at }
{
    match kind {
        Record::Fault => Ok((1, at)),
        Record::Dead => Ok((3, at)),
        Record::Path => formats::read_number(s, at),
    }
}

// Whether a record may write a value: the mark of its kind, or one of the four directions.
fn may_write(kind: Record, v: u32) -> bool
    ensures { result ≡ is_value kind v }
{
    match kind {
        Record::Fault => v == 1,
        Record::Dead => v == 3,
        Record::Path => (1 <= v) & (v <= 4),
    }
}

// Judges a record, and writes its value; gives the offset after it and its position. The record before it has position
// `before`.
fn mark_one(
    kind: Record,
    head: Head,
    before: usize,
    entry: Entry,
    b: &mut [u8],
) -> Result<(usize, usize), Refusal>
    requires { (head.rows ≤ 30) × (head.columns ≤ 30) × (length b.old ≡ 1024) }
    ensures { (result, b.new)
        ≡ marked kind head.rows head.columns entry.start before entry.row entry.column entry.value entry.end b.old }
{
    if !may_stand(kind, head, entry) {
        return Err(Refusal::at(off_reason(kind), entry.start));
    }
    let p = 32 * entry.row + entry.column;
    let repeated = is_repeated(kind, b[p]);
    let lower = p < before;
    if repeated {
        return Err(Refusal::at(Reason::Repeated, entry.start));
    }
    if !may_write(kind, entry.value) {
        return Err(Refusal::at(Reason::RecordDirection, entry.start));
    }
    if lower {
        return Err(Refusal::at(Reason::RecordOrder, entry.start));
    }
    b[p] = entry.value as u8;
    Ok((entry.end, p))
}

// The same; each kind has a call of its own, so that it is compiled by itself.
fn mark(
    kind: Record,
    head: Head,
    before: usize,
    entry: Entry,
    b: &mut [u8],
) -> Result<(usize, usize), Refusal>
    requires { (head.rows ≤ 30) × (head.columns ≤ 30) × (length b.old ≡ 1024) }
    ensures { (result, b.new)
        ≡ marked kind head.rows head.columns entry.start before entry.row entry.column entry.value entry.end b.old }
{
    match kind {
        Record::Fault => mark_one(Record::Fault, head, before, entry, b),
        Record::Dead => mark_one(Record::Dead, head, before, entry, b),
        Record::Path => mark_one(Record::Path, head, before, entry, b),
    }
}

// Reads the record at an offset into a buffer, after a record of position `before`.
fn read_record(
    kind: Record,
    s: &[u8],
    head: Head,
    at: usize,
    before: usize,
    b: &mut [u8],
) -> Result<(usize, usize), Refusal>
    requires { (head.rows ≤ 30) × (head.columns ≤ 30) × (length b.old ≡ 1024) }
    ensures { (result, b.new) ≡ record_at kind s.now head.rows head.columns at before b.old }
{
    let (row, second) = formats::read_number(s, at)?;
    let (column, third) = formats::read_number(s, second)?;
    let (value, end) = read_value(kind, s, third)?;
    let entry = Entry {
        start: at,
        row: row as usize,
        column: column as usize,
        value,
        end,
    };
    mark(kind, head, before, entry, b)
}

// Reads a list of records from an offset on into a buffer, as many as the head counts. Before the first stands position 0:
// no position is lower.
fn read_records(
    kind: Record,
    s: &[u8],
    head: Head,
    start: usize,
    b: &mut [u8],
) -> Result<(usize, usize), Refusal>
    requires { (head.rows ≤ 30) × (head.columns ≤ 30) × (length b.old ≡ 1024) }
    ensures { (result, b.new) ≡ records_at kind s.now head.rows head.columns head.count start 0 b.old }
{
    let mut at = start;
    let mut before = 0;
    for _ in 0..head.count {
        let (next, p) = read_record(kind, s, head, at, before, b)?;
        at = next;
        before = p;
    }
    Ok((at, before))
}

// Fills the lent buffer where the file ends there.
fn fill(
    s: &[u8],
    head: Head,
    trials: u32,
    end: usize,
    b: [u8; 1024],
    lent: &mut [u8],
) -> Result<(Head, u32), Refusal>
    requires { length lent.old ≡ 1024 }
    ensures { (p : ℕ) → (result, lent.new) ≡ whole_file s.now head trials lent.old (Ok (end, p), b) }
{
    if end < s.len() {
        return Err(Refusal::at(Reason::Trailing, end));
    }
    lent.copy_from_slice(&b);
    Ok((head, trials))
}

// Reads the second list of a map, of `more` dead processors, into a grid that has its faults, and fills the lent buffer.
fn read_dead(
    s: &[u8],
    head: Head,
    more: usize,
    start: usize,
    faults: [u8; 1024],
    lent: &mut [u8],
) -> Result<(Head, u32), Refusal>
    requires { (head.rows ≤ 30) × (head.columns ≤ 30) × (length lent.old ≡ 1024) }
    ensures { (result, lent.new) ≡ dead_at s.now head lent.old more start faults }
{
    let mut grid = faults;
    let list = Head {
        rows: head.rows,
        columns: head.columns,
        count: more,
    };
    let (end, _) = read_records(Record::Dead, s, list, start, &mut grid)?;
    fill(s, head, 0, end, grid, lent)
}

// Reads what follows the first list of a map: nothing, or the second list.
fn read_second(
    s: &[u8],
    head: Head,
    end: usize,
    grid: [u8; 1024],
    lent: &mut [u8],
) -> Result<(Head, u32), Refusal>
    requires { (head.rows ≤ 30) × (head.columns ≤ 30) × (head.count < 4294967296) × (length lent.old ≡ 1024) }
    ensures { (p : ℕ) → (result, lent.new) ≡ second_at s.now head lent.old (Ok (end, p), grid) }
{
    if s.len() <= end {
        lent.copy_from_slice(&grid);
        return Ok((head, 0));
    }
    let (more, start) = formats::read_number(s, end)?;
    if more == 0 {
        return Err(Refusal::at(Reason::Trailing, end));
    }
    let both = Head {
        rows: head.rows,
        columns: head.columns,
        count: head.count + more as usize,
    };
    read_dead(s, both, more as usize, start, grid, lent)
}

// Reads what follows the paths of a plan: T, and the end of the file.
fn read_trials(
    s: &[u8],
    head: Head,
    at: usize,
    directions: [u8; 1024],
    lent: &mut [u8],
) -> Result<(Head, u32), Refusal>
    requires { length lent.old ≡ 1024 }
    ensures { (p : ℕ) → (result, lent.new) ≡ trials_at s.now head lent.old (Ok (at, p), directions) }
{
    let (trials, end) = formats::read_number(s, at)?;
    fill(s, head, trials, end, directions, lent)
}

// Reads what follows the first list of a file.
fn read_rest(
    kind: Kind,
    s: &[u8],
    head: Head,
    end: usize,
    b: [u8; 1024],
    lent: &mut [u8],
) -> Result<(Head, u32), Refusal>
    requires { (head.rows ≤ 30) × (head.columns ≤ 30) × (head.count < 4294967296) × (length lent.old ≡ 1024) }
    ensures { (p : ℕ) → (result, lent.new) ≡ rest_at kind s.now head lent.old (Ok (end, p), b) }
{
    match kind {
        Kind::Map => read_second(s, head, end, b, lent),
        Kind::Plan => read_trials(s, head, end, b, lent),
    }
}

// Reads what follows the head of a file.
fn read_body(
    kind: Kind,
    s: &[u8],
    head: Head,
    start: usize,
    lent: &mut [u8],
) -> Result<(Head, u32), Refusal>
    requires { (head.rows ≤ 30) × (head.columns ≤ 30) × (head.count < 4294967296) × (length lent.old ≡ 1024) }
    ensures { (result, lent.new) ≡ body_at kind s.now head lent.old start }
{
    let mut b = blank_buffer(kind, head.rows, head.columns);
    let first = kind.first_list();
    let (end, _) = read_records(first, s, head, start, &mut b)?;
    read_rest(kind, s, head, end, b, lent)
}

// Reads a file of either kind.
fn read_file(kind: Kind, s: &[u8], lent: &mut [u8]) -> Result<(Head, u32), Refusal>
    ensures { (result, lent.new) ≡ read_file kind s.now lent.old }
{
    if lent.len() != 1024 {
        return Err(Refusal::at(Reason::BufferLength, 0));
    }
    let (n, second) = read_size(s, 0)?;
    let (m, third) = read_size(s, second)?;
    let (count, start) = formats::read_number(s, third)?;
    let head = Head {
        rows: n as usize,
        columns: m as usize,
        count: count as usize,
    };
    read_body(kind, s, head, start, lent)
}

// The operations.

// Reads a map file into a grid: N, M and the count, or the refusal. A map has no T.
pub fn read_map(s: &[u8], grid: &mut [u8]) -> Result<Head, Refusal>
    ensures { (told_map result ≡ told_map (read_map s.now grid.old).0)
        × (grid.new ≡ (read_map s.now grid.old).1) }
{
    let (head, _) = read_file(Kind::Map, s, grid)?;
    Ok(head)
}

// Reads a plan file into directions: N, M and the count, with T, the trials on record, or the refusal.
pub fn read_plan(s: &[u8], directions: &mut [u8]) -> Result<(Head, u32), Refusal>
    ensures { (told result ≡ told (read_plan s.now directions.old).0)
        × (directions.new ≡ (read_plan s.now directions.old).1) }
{
    read_file(Kind::Plan, s, directions)
}
