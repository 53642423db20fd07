// The preview of a field report: what the report would answer and leave, without making it (document 02, T-08).
// preview is for callers, count_changes serves `history`; the other functions are inner parts.
#![tactic(auto)]

ghost use Rattle.std.specs.Prelude.{◌≡◌, ◌≤◌, ◌<◌, not, ◌==◌, count_by};
ghost use Rattle.std.specs.List.{zip};
ghost use Rattle.array.specs.Tests.{told};
ghost use Rattle.sessions.specs.Session.{report_test};
ghost use Rattle.previews.specs.Preview.{nothing_foretold, shown_at, foretold, counter_changes};

use array::Verdict;
use sessions::Session;

// The direction that the reported processor would have, and all counters as they would be; all 0 beside a refusal.
#[derive(Clone, Copy)]
pub struct Foretold {
    pub direction: u8,
    pub south: [u8; 1024],
    pub north: [u8; 1024],
    pub east: [u8; 1024],
    pub west: [u8; 1024],
}

impl Foretold {
    // What stands beside a refusal.
    fn nothing() -> Self
        ensures { result ≡ nothing_foretold }
    {
        Foretold {
            direction: 0,
            south: [0; 1024],
            north: [0; 1024],
            east: [0; 1024],
            west: [0; 1024],
        }
    }

    // The direction that a session has at p, and its counters.
    fn shown(s: &Session, p: usize) -> Self
        requires { p < 1024 }
        ensures { result ≡ shown_at s.now p }
    {
        Foretold {
            direction: s.directions[p],
            south: s.south,
            north: s.north,
            east: s.east,
            west: s.west,
        }
    }
}

// The answer of the report, and what it would leave.
#[derive(Clone, Copy)]
pub struct Previewed {
    pub answer: Verdict,
    pub foretold: Foretold,
}

// What the report of a processor that fails or recovers would answer and leave: the report itself, made on the copy that
// is handed over.
pub fn preview(s: Session, failing: bool, position: usize) -> Previewed
    ensures answer { told result.answer ≡ told (report_test s failing position) }
    ensures foretold { result.foretold ≡ foretold s failing position }
{
    let after = sessions::report(s, failing, position);
    let foretold = match after.answer {
        Ok(()) => Foretold::shown(&after.session, position),
        Err(_) => Foretold::nothing(),
    };
    Previewed {
        answer: after.answer,
        foretold,
    }
}

// At how many positions two buffers differ.
fn count_differences(a: &[u8; 1024], b: &[u8; 1024]) -> usize
    ensures pairs { result ≡ count_by (λ p. not (p.0 == p.1)) (zip a.now b.now) }
    ensures few { result ≤ 1024 }
{
    a.iter().zip(b).filter(|(x, y)| x != y).count()
}

// How many counters would change: those of a session that differ from what is foretold. Beside a refusal, where all of
// these are 0, the number says nothing.
pub fn count_changes(s: Session, f: Foretold) -> usize
    ensures { result ≡ counter_changes s f }
{
    count_differences(&s.south, &f.south)
        + count_differences(&s.north, &f.north)
        + count_differences(&s.east, &f.east)
        + count_differences(&s.west, &f.west)
}
