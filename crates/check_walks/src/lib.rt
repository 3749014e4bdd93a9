// The control-store checker: whether every walk of a microprogram from fetch is back within 64
// microcycles and none can leave, and how long the longest is.
#![tactic(auto)]

ghost use Rattle.std.specs.Prelude.{◌≡◌};
ghost use Rattle.check_meaning.specs.Meaning.{Meant};
ghost use Rattle.check_meaning.specs.Survey.{nowhere, extreme, next_set, spread, advance, surveyed, passes, lowest_leaving};

use answers::{Microcycles, Refusal};
use check_meaning::{AddressSet, Survey};
use control_store::microword::Microword;
use control_store::sequencer::{FETCH, next_address};
use control_store::{MOST_MICROWORDS, code};

// Walks are taken on for so many microcycles.
const ROUNDS: u64 = 64;

// The words that the condition `jop` can lead to (table 5.18), 4 to 35.
const OPCODE_WORDS: AddressSet = AddressSet {
    bits: 0xF_FFFF_FFF0,
};

// Where the sequencer leads from the word at `at` if all that it reads outside the microword is `b`.
// An address has six bits, however long the slice is, so `at % MOST_MICROWORDS` asks for no premise.
#[tactic(auto, using(control_store::proofs::SixBits::next_low))]
fn extreme(at: usize, word: u64, b: bool) -> u32
    ensures { result ≡ extreme at word b }
{
    let Microword { addr, cond, .. } = Microword::from(word);
    next_address(
        (at % MOST_MICROWORDS) as u32,
        b as u32 * 31,
        addr,
        cond,
        b,
        b,
        b,
    )
}

// All possible next addresses of the word at `at`: any of the opcodes' words, or the two extremes.
#[tactic(auto, unfolding(check_meaning::specs::Survey::next_set))]
fn next_set(at: usize, word: u64) -> AddressSet
    ensures { result ≡ next_set at word }
{
    if Microword::from(word).cond == code::JOP {
        return OPCODE_WORDS;
    }
    let low = extreme(at, word, false);
    let high = extreme(at, word, true);
    AddressSet::only(low).with(AddressSet::only(high))
}

// The next addresses of all words in a set.
#[tactic(auto, using(crate::proofs::SurveyTurns::spread_on), unfolding(check_meaning::specs::Survey::spread))]
fn spread(program: &[u64], standing: AddressSet) -> AddressSet
    ensures { result ≡ spread 0 program.now standing nowhere }
{
    let mut found = AddressSet::NONE;
    for (at, word) in program.iter().enumerate() {
        if standing.contains(at) {
            found = found.with(next_set(at, *word));
        }
    }
    found
}

// One microcycle of all walks, the last of those done.
#[tactic(auto, unfolding(check_meaning::specs::Survey::advance), using(crate::proofs::SurveyTurns::spread_within))]
fn advance(program: &[u64], done: Microcycles, s: Survey) -> Survey
    ensures { result ≡ advance program.now done s }
{
    let Survey {
        standing,
        seen,
        longest,
    } = s;
    // behind the highest word of the set there is none to look at
    let words = &program[..program.len().min(standing.end())];
    let next = spread(words, standing);
    Survey {
        standing: next.without_fetch(),
        seen: seen.with(standing),
        longest: if next.contains(FETCH as usize) {
            done
        } else {
            longest
        },
    }
}

// All walks together, until none is under way or 64 microcycles are done.
#[tactic(auto, using(crate::proofs::SurveyTurns::from_first, crate::proofs::SurveyTurns::walks_on, crate::proofs::SurveyTurns::none_under_way, crate::proofs::SurveyTurns::all_done))]
fn surveyed(program: &[u64]) -> Survey
    ensures { result ≡ surveyed program.now }
{
    let mut s = Survey {
        standing: AddressSet::only(FETCH),
        seen: AddressSet::NONE,
        longest: Microcycles::NONE,
    };
    for count in 1..=ROUNDS {
        if s.standing.is_empty() {
            return s;
        }
        s = advance(program, Microcycles { count }, s);
    }
    s
}

// Whether the word at `at` has a possible next address of `limit` or more.
#[tactic(auto, unfolding(check_meaning::specs::Survey::passes))]
fn passes(limit: usize, at: usize, word: u64) -> bool
    ensures { result ≡ passes limit at word }
{
    limit <= extreme(at, word, false) as usize || limit <= extreme(at, word, true) as usize
}

// The lowest word that was seen and can leave.
#[tactic(auto, unfolding(check_meaning::specs::Survey::lowest_leaving))]
fn lowest_leaving(program: &[u64], seen: AddressSet) -> Option<usize>
    ensures { result ≡ lowest_leaving program.now seen }
{
    let limit = program.len();
    program
        .iter()
        .enumerate()
        .position(|(at, word)| seen.contains(at) && passes(limit, at, *word))
}

// Tests 4, 5, 17 and 18 in this order. Only reads what it is lent.
#[tactic(auto, using(crate::proofs::VerdictCases::refused_first, crate::proofs::VerdictCases::can_leave, crate::proofs::VerdictCases::late, crate::proofs::VerdictCases::fine))]
pub fn check(program: &[u64]) -> Result<Microcycles, Refusal>
    ensures { Meant program.now result }
{
    control_store::tested(program)?;
    let survey = surveyed(program);
    if let Some(word) = lowest_leaving(program, survey.seen) {
        return Err(Refusal::WalkLeaves(word));
    }
    match survey.standing.lowest() {
        Some(word) => Err(Refusal::WalkNotBack(word)),
        None => Ok(survey.longest),
    }
}
