// The writers of map and plan files.
#![tactic(auto)]

ghost use Rattle.std.specs.Prelude.{◌≡◌, ◌<◌, ◌≤◌, length, Ok};
ghost use Rattle.array.specs.Tests.{or_else, first_in};
ghost use Rattle.formats.specs.Parts.{Room, Wrote};
ghost use Rattle.formats.specs.Records.{record_bytes, record_count, list_bytes, rest_bytes, file_bytes};
ghost use Rattle.writers.specs.Writing.{told, path_test, buffer_test, trials_test, room_test, put, write_file, write_map, write_plan};
ghost use Rattle.writers.specs.Parts.{pair_bytes, value_bytes, element_bytes, records_of, records_length, list_length, dead_count, dead_list};
ghost use Rattle.writers.specs.Parts.{dead_length, rest_length, room_for, Fitting};
ghost use Rattle.formats.specs.declared.Kind.TheVariants.{Plan};
ghost use Rattle.formats.specs.declared.Record.TheVariants.{Dead};

use array::{Reason, Refusal, Verdict};
use formats::{Kind, Record};

// What a file is written of: N, M, the buffer, and T, which only a plan has.
#[derive(Clone, Copy)]
struct Contents<'a> {
    kind: Kind,
    rows: usize,
    columns: usize,
    buffer: &'a [u8],
    trials: usize,
}

// The inner parts of the writers; some have a `requires`.

// Test 4 of a plan without a grid.
fn check_paths(n: usize, m: usize, directions: &[u8]) -> Verdict
    requires { length directions.now ≡ 1024 }
    ensures { result ≡ first_in (path_test n m) directions.now }
{
    for (p, &d) in directions.iter().enumerate() {
        if (4 < d) | (!array::is_inner(n, m, p) & !(d == 0)) {
            return Err(Refusal::at(Reason::Direction, p));
        }
    }
    Ok(())
}

// Tests 1, 2 and 4 of a plan without a grid.
fn check_without_grid(n: usize, m: usize, directions: &[u8]) -> Verdict
    ensures { result ≡ buffer_test Plan n m directions.now }
{
    if !(array::is_size(n) & array::is_size(m)) {
        return Err(Refusal::at(Reason::Size, 0));
    }
    if directions.len() != 1024 {
        return Err(Refusal::at(Reason::BufferLength, 0));
    }
    check_paths(n, m, directions)
}

// Test 14 of room for so many bytes.
fn check_room(needed: usize, room: usize) -> Verdict
    ensures { result ≡ room_for needed room }
{
    if room < needed {
        return Err(Refusal::at(Reason::Room, needed));
    }
    Ok(())
}

// How many records of a kind a buffer has. It goes by position, since a loop over the slice does not know that there are 1,024.
fn count_records(kind: Record, b: &[u8]) -> usize
    requires { length b.now ≡ 1024 }
    ensures { (result ≡ record_count kind b.now) × (result ≤ 1024) }
{
    let mut count = 0;
    for p in 0..1024 {
        if kind.is_recorded(b[p]) {
            count += 1;
        }
    }
    count
}

// The length of so many records.
fn length_of_records(kind: Record, count: usize) -> usize
    requires { count ≤ 1024 }
    ensures { (result ≡ records_length kind count) × (result ≤ 3072) }
{
    match kind {
        Record::Fault | Record::Dead => 2 * count,
        Record::Path => 3 * count,
    }
}

// The length of a list of so many records, with its count.
fn length_of_list(kind: Record, count: usize) -> usize
    requires { count ≤ 1024 }
    ensures { (result ≡ list_length kind count) × (result ≤ 3075) }
{
    formats::number_length(count) + length_of_records(kind, count)
}

// The length of the list of so many dead processors: nothing where there is none.
fn length_of_dead(dead: usize) -> usize
    requires { dead ≤ 1024 }
    ensures { (result ≡ dead_length dead) × (result ≤ 3075) }
{
    if dead == 0 {
        return 0;
    }
    length_of_list(Record::Dead, dead)
}

// The length of what follows the first list: so many dead processors, or T.
fn length_of_rest(kind: Kind, dead: usize, trials: usize) -> usize
    requires { dead ≤ 1024 }
    ensures { (result ≡ rest_length kind dead trials) × (result ≤ 3075) }
{
    match kind {
        Kind::Map => length_of_dead(dead),
        Kind::Plan => formats::number_length(trials),
    }
}

// Writes two numbers at an offset, one after the other, and gives the offset after them.
fn write_pair(out: &mut [u8], at: usize, x: usize, y: usize) -> usize
    requires { (x < 2097152) × (y < 2097152) × Room out.old at (pair_bytes x y) }
    ensures { Wrote out.old at (pair_bytes x y) result out.new }
{
    let second = formats::write_number(out, at, x);
    formats::write_number(out, second, y)
}

// Writes what a record has after its row and column, and gives the offset after it.
fn write_value(kind: Record, out: &mut [u8], at: usize, v: u8) -> usize
    requires { Room out.old at (value_bytes kind v) }
    ensures { Wrote out.old at (value_bytes kind v) result out.new }
{
    match kind {
        Record::Fault | Record::Dead => at,
        Record::Path => formats::write_number(out, at, usize::from(v)),
    }
}

// Writes the record of an element at position p, and gives the offset after it.
fn write_record(kind: Record, out: &mut [u8], at: usize, p: usize, v: u8) -> usize
    requires { (p < 1024) × Room out.old at (record_bytes kind p v) }
    ensures { Wrote out.old at (record_bytes kind p v) result out.new }
{
    let third = write_pair(out, at, p / 32, p % 32);
    write_value(kind, out, third, v)
}

// Writes the record of an element at position p where it has one, and gives the offset after it.
fn write_element(kind: Record, out: &mut [u8], at: usize, p: usize, v: u8) -> usize
    requires { (p < 1024) × Room out.old at (element_bytes kind p v) }
    ensures { Wrote out.old at (element_bytes kind p v) result out.new }
{
    if kind.is_recorded(v) {
        return write_record(kind, out, at, p, v);
    }
    at
}

// Writes the records of a buffer in row order, and gives the offset after them.
fn write_records(kind: Record, out: &mut [u8], start: usize, b: &[u8]) -> usize
    requires { (length b.now ≡ 1024) × Room out.old start (records_of kind b.now) }
    ensures { Wrote out.old start (records_of kind b.now) result out.new }
{
    let mut at = start;
    for (p, &v) in b.iter().enumerate() {
        at = write_element(kind, out, at, p, v);
    }
    at
}

// Writes a list, its count and its records, and gives the offset after it.
fn write_list(kind: Record, out: &mut [u8], at: usize, count: usize, b: &[u8]) -> usize
    requires { (length b.now ≡ 1024) × (count ≡ record_count kind b.now) × (count ≤ 1024) × Room out.old at (list_bytes kind b.now) }
    ensures { Wrote out.old at (list_bytes kind b.now) result out.new }
{
    let next = formats::write_number(out, at, count);
    write_records(kind, out, next, b)
}

// Writes the list of so many dead processors where there is one, and gives the offset after it.
fn write_dead(out: &mut [u8], at: usize, count: usize, b: &[u8]) -> usize
    requires { (length b.now ≡ 1024) × (count ≡ record_count Dead b.now) × (count ≤ 1024) × Room out.old at (dead_list count b.now) }
    ensures { Wrote out.old at (dead_list count b.now) result out.new }
{
    if count == 0 {
        return at;
    }
    write_list(Record::Dead, out, at, count, b)
}

impl Contents<'_> {
    // Tests 1 to 3 of a map; 1, 2 and 4 of a plan.
    fn check_buffer(self) -> Verdict
        ensures { result ≡ buffer_test self.entry.kind self.entry.rows self.entry.columns self.entry.buffer.now }
    {
        match self.kind {
            Kind::Map => {
                let right = self.buffer.len() == 1024;
                array::check_map(self.rows, self.columns, right, self.buffer)?;
                Ok(())
            }
            Kind::Plan => check_without_grid(self.rows, self.columns, self.buffer),
        }
    }

    // Test 21 of the trials that a plan has.
    fn check_trials(self) -> Verdict
        ensures { result ≡ trials_test self.entry.kind self.entry.trials }
    {
        match self.kind {
            Kind::Map => Ok(()),
            Kind::Plan => {
                if 2097151 < self.trials {
                    return Err(Refusal::at(Reason::Trials, 0));
                }
                Ok(())
            }
        }
    }

    // How many dead processors the file has records of.
    fn count_dead(self) -> usize
        requires { length self.buffer.now ≡ 1024 }
        ensures { (result ≡ dead_count self.entry.kind self.entry.buffer.now) × (result ≤ 1024) }
    {
        match self.kind {
            Kind::Map => count_records(Record::Dead, self.buffer),
            Kind::Plan => 0,
        }
    }

    // Writes what follows the first list, so many dead processors of a map or T of a plan, and gives the offset after it.
    fn write_rest(self, out: &mut [u8], at: usize, dead: usize) -> usize
        requires { (length self.buffer.now ≡ 1024) × (dead ≡ dead_count self.kind self.buffer.now) × (dead ≤ 1024)
            × (trials_test self.kind self.trials ≡ Ok tt) × Room out.old at (rest_bytes self.kind self.buffer.now self.trials) }
        ensures { Wrote out.old at (rest_bytes self.entry.kind self.entry.buffer.now self.entry.trials) result out.new }
    {
        match self.kind {
            Kind::Map => write_dead(out, at, dead, self.buffer),
            Kind::Plan => formats::write_number(out, at, self.trials),
        }
    }

    // Writes the whole file, with so many records in its first list and so many dead processors, and gives its length.
    fn write_parts(self, out: &mut [u8], count: usize, dead: usize) -> usize
        requires { Fitting self.kind self.rows self.columns count dead self.trials self.buffer.now out.old }
        ensures { Wrote out.old 0
            (file_bytes self.entry.kind self.entry.rows self.entry.columns self.entry.buffer.now self.entry.trials) result out.new }
    {
        let third = write_pair(out, 0, self.rows, self.columns);
        let end = write_list(self.kind.first_list(), out, third, count, self.buffer);
        self.write_rest(out, end, dead)
    }

    // Writes the file of a buffer that passed its tests, where its trials and the room do too.
    fn write_checked(self, out: &mut [u8]) -> Result<usize, Refusal>
        requires { buffer_test self.kind self.rows self.columns self.buffer.now ≡ Ok tt }
        ensures { (result, out.new)
            ≡ put (or_else (trials_test self.entry.kind self.entry.trials)
            (room_test (file_bytes self.entry.kind self.entry.rows self.entry.columns self.entry.buffer.now self.entry.trials) out.old))
            (file_bytes self.entry.kind self.entry.rows self.entry.columns self.entry.buffer.now self.entry.trials) out.old }
    {
        let first = self.kind.first_list();
        let count = count_records(first, self.buffer);
        let dead = self.count_dead();
        let needed = 2
            + length_of_list(first, count)
            + length_of_rest(self.kind, dead, self.trials);
        self.check_trials()?;
        check_room(needed, out.len())?;
        Ok(self.write_parts(out, count, dead))
    }

    // Writes the file: its length, or the refusal.
    fn write(self, out: &mut [u8]) -> Result<usize, Refusal>
        ensures { (result, out.new)
            ≡ write_file self.entry.kind self.entry.rows self.entry.columns self.entry.buffer.now self.entry.trials out.old }
    {
        self.check_buffer()?;
        self.write_checked(out)
    }
}

// The operations.

// Writes the map file of a grid: its length, or the refusal.
pub fn write_map(n: usize, m: usize, grid: &[u8], out: &mut [u8]) -> Result<usize, Refusal>
    ensures { (told result ≡ told (write_map n m grid.now out.old).0) × (out.new ≡ (write_map n m grid.now out.old).1) }
{
    let contents = Contents {
        kind: Kind::Map,
        rows: n,
        columns: m,
        buffer: grid,
        trials: 0,
    };
    contents.write(out)
}

// Writes the plan file of directions with T, the trials on record: its length, or the refusal.
pub fn write_plan(
    n: usize,
    m: usize,
    directions: &[u8],
    trials: u32,
    out: &mut [u8],
) -> Result<usize, Refusal>
    ensures { (told result ≡ told (write_plan n m directions.now trials out.old).0)
        × (out.new ≡ (write_plan n m directions.now trials out.old).1) }
{
    let contents = Contents {
        kind: Kind::Plan,
        rows: n,
        columns: m,
        buffer: directions,
        trials: trials as usize,
    };
    contents.write(out)
}
