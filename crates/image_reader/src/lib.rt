// The reader of images: every line is tested first, and only then are words stored, so a refused text
// leaves memory as it was and no copy of memory is needed.
#![tactic(auto)]

ghost use Rattle.std.specs.Prelude.{◌≡◌, ◌+◌, Ok};
ghost use Rattle.std.proofs.lemmas.List.Edits.{sets};
ghost use Rattle.image_meaning.specs.Digits.{words_of};
ghost use Rattle.image_meaning.specs.Records.{data_of};
ghost use Rattle.image_meaning.specs.Reading.{data_read, tested, next, finish, judged, with_line, loaded, read_answer, memory_after};
ghost use Rattle.image_placing.specs.Placing.{placing};

use answers::Refusal;
use image_meaning::{Heading, Reading, Record};
use image_placing::Misfit;
use image_records::Lines;

// A data record's place, as line `number`. The memory's length, the line's number and the end come one by
// one, here and below, as the definitions have them.
fn place_data(
    words: usize,
    number: usize,
    end: usize,
    address: u32,
    count: u16,
) -> Result<Reading, Refusal>
    ensures { result ≡ data_read (placing words end address count) number (address + count) }
{
    match image_placing::place(words, end, address, count) {
        Ok(()) => Ok(Reading::Open(address as usize + count as usize)),
        Err(Misfit::Misplaced) => Err(Refusal::Placement(number)),
        Err(Misfit::Early) => Err(Refusal::RecordOrder(number)),
    }
}

// The tests of one line, in their order.
#[tactic(auto, unfolding(image_meaning::specs::Reading::tested))]
fn test(words: usize, number: usize, end: usize, said: Option<Record>) -> Result<Reading, Refusal>
    ensures { result ≡ tested words number end said }
{
    let Some(Record { heading, sum }) = said else {
        return Err(Refusal::LineForm(number));
    };
    if sum != 0 {
        return Err(Refusal::LineSum(number));
    }
    let Heading {
        count,
        address,
        kind,
    } = heading;
    match kind {
        Heading::DATA => place_data(words, number, end, address, count),
        Heading::END => {
            if count == 0 && address == 0 {
                Ok(Reading::Ended)
            } else {
                Err(Refusal::Placement(number))
            }
        }
        _ => Err(Refusal::RecordType(number)),
    }
}

// How the reading stands after one more line.
fn go_on(words: usize, number: usize, reading: Reading, line: &[u8]) -> Result<Reading, Refusal>
    ensures { result ≡ next words number (Ok reading) line.now }
{
    match reading {
        Reading::Open(end) => test(words, number, end, image_records::record(line)),
        Reading::Ended => Err(Refusal::EndRecord(number)),
    }
}

// The answer when no line is left.
fn end_of(lines: usize, reading: Reading) -> Result<(), Refusal>
    ensures { result ≡ finish lines (Ok reading) }
{
    match reading {
        Reading::Open(_) => Err(Refusal::EndRecord(lines)),
        Reading::Ended => Ok(()),
    }
}

// The tests of all lines, as far as the first that is refused.
#[tactic(auto, using(crate::proofs::LineTurns::line_read, crate::proofs::LineTurns::all_read, crate::proofs::LineTurns::no_more_lines))]
fn judge(words: usize, text: &[u8]) -> Result<(), Refusal>
    ensures { result ≡ judged words text.now }
{
    let mut reading = Reading::Open(0);
    // counted by hand and not by `enumerate`, since `end_of` needs the count too
    let mut lines: usize = 0;
    for line in (Lines { rest: text }) {
        lines += 1;
        reading = go_on(words, lines, reading, line)?;
    }
    end_of(lines, reading)
}

// The first `count` words of a record's data, stored from word `first` on.
// By places, and not by pieces of eight digits: it says of every line what is stored, of a short one too.
#[tactic(auto, using(crate::proofs::LineTurns::word_stored))]
fn store_words(memory: &mut [u32], line: &[u8], first: u32, count: u16)
    ensures { memory.new ≡ sets memory.old first (words_of count (data_of line.now)) }
{
    for k in 0..count {
        let word = image_records::word(line, 9 + 8 * k as u32);
        image_placing::store(memory, first as usize + k as usize, word);
    }
}

// The words of one line.
fn store_line(memory: &mut [u32], line: &[u8])
    ensures { memory.new ≡ with_line memory.old line.now }
{
    let Heading {
        count,
        address,
        kind,
    } = image_records::heading(line);
    if kind == Heading::DATA {
        store_words(memory, line, address / 4, count / 4);
    }
}

// The words of all lines.
fn load(memory: &mut [u32], text: &[u8])
    ensures { memory.new ≡ loaded memory.old text.now }
{
    for line in (Lines { rest: text }) {
        store_line(memory, line);
    }
}

// The whole call. No word is stored while a line is left that could be refused.
#[tactic(auto, unfolding(image_meaning::specs::Reading::read_answer, image_meaning::specs::Reading::memory_after))]
pub fn read(memory: &mut [u32], text: &[u8]) -> Result<(), Refusal>
    ensures { (result ≡ read_answer memory.old text.now)
        × (memory.new ≡ memory_after memory.old text.now) }
{
    if !words::lengths::legal(memory.len()) {
        return Err(Refusal::MemoryLength);
    }
    if 262144 < text.len() {
        return Err(Refusal::TextLength);
    }
    judge(memory.len(), text)?;
    load(memory, text);
    Ok(())
}
