// Numbers of a file, the two kinds of file and the kinds of record.
#![tactic(auto)]

ghost use Rattle.std.specs.Prelude.{◌≡◌, ℕ, ◌<◌, ◌≤◌, length};
ghost use Rattle.array.specs.Tests.{refusal};
ghost use Rattle.formats.specs.Number.{told, groups_limit, Below, groups_at, number_at, bytes_of};
ghost use Rattle.formats.specs.Parts.{Room, Wrote};
ghost use Rattle.formats.specs.Records.{recorded, first_list};

use array::{Reason, Refusal};

// A map file or a plan file.
#[derive(Clone, Copy)]
pub enum Kind {
    Map,
    Plan,
}

impl Kind {
    // Inner part: the records of a file's first list.
    pub fn first_list(self) -> Record
        ensures { result ≡ first_list self }
    {
        match self {
            Kind::Map => Record::Fault,
            Kind::Plan => Record::Path,
        }
    }
}

// The kinds of record: a fault that is not dead, a dead processor (T-04), or a path.
#[derive(Clone, Copy)]
pub enum Record {
    Fault,
    Dead,
    Path,
}

impl Record {
    // Inner part: whether an element of a buffer has a record of this kind.
    pub fn is_recorded(self, v: u8) -> bool
        ensures { (p : ℕ) → result ≡ recorded self p v }
    {
        match self {
            Record::Fault => v == 1,
            Record::Dead => array::is_dead(v),
            Record::Path => v != 0,
        }
    }
}

// Inner part: at most so many groups from an offset on, of a number that begins at `start`.
fn read_groups(s: &[u8], start: usize, groups: usize, at: usize) -> Result<(u32, usize), Refusal>
    requires { groups ≤ 3 }
    ensures { (result ≡ groups_at s.now start groups at) × Below (groups_limit groups) result }
{
    if groups == 0 {
        return Err(Refusal::at(Reason::NumberForm, start));
    }
    if s.len() <= at {
        return Err(Refusal::at(Reason::FileEnds, s.len()));
    }
    let low = u32::from(s[at]);
    if low < 128 {
        return Ok((low, at + 1));
    }
    let (rest, next) = read_groups(s, start, groups - 1, at + 1)?;
    if rest == 0 {
        return Err(Refusal::at(Reason::NumberForm, start));
    }
    Ok((low - 128 + 128 * rest, next))
}

// The number that starts at an offset of a file, with the offset after it, or its refusal. Most numbers have one byte, so
// that this case comes first.
pub fn read_number(s: &[u8], at: usize) -> Result<(u32, usize), Refusal>
    ensures { told result ≡ told (number_at s.now at) }
{
    if s.len() <= at {
        return Err(Refusal::at(Reason::FileEnds, s.len()));
    }
    let first = s[at];
    let next = at + 1;
    if first < 128 {
        return Ok((u32::from(first), next));
    }
    read_groups(s, at, 3, at)
}

// Inner part: writes the bytes of a number at an offset and gives the offset after them.
pub fn write_number(out: &mut [u8], start: usize, v: usize) -> usize
    requires { (v < 2097152) × Room out.old start (bytes_of v) }
    ensures { Wrote out.old start (bytes_of v) result out.new }
{
    let mut at = start;
    let mut rest = v;
    while 128 <= rest {
        out[at] = (128 + rest % 128) as u8;
        at += 1;
        rest /= 128;
    }
    out[at] = rest as u8;
    at + 1
}

// Inner part: how many bytes a number takes.
pub fn number_length(v: usize) -> usize
    ensures { (result ≡ length (bytes_of v)) × (result ≤ 3) }
{
    if v < 128 {
        return 1;
    }
    if v < 16384 {
        return 2;
    }
    3
}
