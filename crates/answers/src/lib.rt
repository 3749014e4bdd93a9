// How the engine's calls answer: the counts of the two clocks, why a call was refused with the number that
// the grader shows, and the tests that several levels share.
#![tactic(auto)]

ghost use Rattle.std.specs.Prelude.{◌≡◌};
ghost use Rattle.answers.specs.Ends.{numbered, refusal_shown, shown};

pub mod tests;

// A count on the microcycle clock. The two clocks are two types, so that neither count can stand for the
// other, and C has a struct for each.
#[repr(C)]
#[derive(Clone, Copy)]
pub struct Microcycles {
    pub count: u64,
}

impl Microcycles {
    pub const NONE: Microcycles = Microcycles { count: 0 };
}

// A count on the instruction clock.
#[repr(C)]
#[derive(Clone, Copy)]
pub struct Steps {
    pub count: u64,
}

impl Steps {
    pub const NONE: Steps = Steps { count: 0 };
}

// Why a call was refused, with the word, place, line or bytes that go with it. A call that is done
// answers Ok.
#[derive(Clone, Copy, Debug, PartialEq, Eq)]
pub enum Refusal {
    MemoryLength,
    RegisterCount,
    RegisterZero,
    ProgramLength,
    Microword(usize),
    Outside,
    Request(usize),
    NextAddress,
    TextLength,
    LineForm(usize),
    LineSum(usize),
    RecordType(usize),
    Placement(usize),
    EndRecord(usize),
    RecordOrder(usize),
    Room(usize),
    WalkLeaves(usize),
    WalkNotBack(usize),
}

// A number of the scope's table, and what goes with it.
#[derive(Clone, Copy)]
pub struct Numbered {
    pub number: u64,
    pub at: u64,
}

fn with(number: u64, at: usize) -> Numbered
    ensures { result ≡ numbered number at }
{
    Numbered {
        number,
        at: at as u64,
    }
}

impl From<Refusal> for Numbered {
    ghost from_gives = { λ refusal answer. answer ≡ refusal_shown refusal };

    fn from(refusal: Refusal) -> Numbered {
        match refusal {
            Refusal::MemoryLength => with(1, 0),
            Refusal::RegisterCount => with(2, 0),
            Refusal::RegisterZero => with(3, 0),
            Refusal::ProgramLength => with(4, 0),
            Refusal::Microword(word) => with(5, word),
            Refusal::Outside => with(6, 0),
            Refusal::Request(place) => with(7, place),
            Refusal::NextAddress => with(8, 0),
            Refusal::TextLength => with(9, 0),
            Refusal::LineForm(line) => with(10, line),
            Refusal::LineSum(line) => with(11, line),
            Refusal::RecordType(line) => with(12, line),
            Refusal::Placement(line) => with(13, line),
            Refusal::EndRecord(line) => with(14, line),
            Refusal::RecordOrder(line) => with(15, line),
            Refusal::Room(bytes) => with(16, bytes),
            Refusal::WalkLeaves(word) => with(17, word),
            Refusal::WalkNotBack(word) => with(18, word),
        }
    }
}

// Done is 0.
pub fn shown(end: Result<(), Refusal>) -> Numbered
    ensures { result ≡ shown end }
{
    match end {
        Ok(()) => with(0, 0),
        Err(refusal) => Numbered::from(refusal),
    }
}
