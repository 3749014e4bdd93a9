// The pieces of a text: a digit, a byte, a word, the end of a line, and what a line says.
#![tactic(auto)]

ghost use Rattle.std.specs.Prelude.{◌≡◌, ◌+◌, ◌==◌, cond, drop};
ghost use Rattle.std.specs.List.{position};
ghost use Rattle.std.specs.Iterator.{YieldsFirstRef, item_count};
ghost use Rattle.image_meaning.specs.Digits.{digit_value, byte_of, bytes_of, word_of};
ghost use Rattle.image_meaning.specs.Lines.{lf, is_end, lines_of};
ghost use Rattle.image_meaning.specs.Records.{record_of, heading_of};
ghost use Rattle.image_records.specs.Totals.{total_of, line_length};

use image_meaning::{Heading, Record};

// One of two numbers that are both at hand, so that the compiler needs no branch: digits and letters
// come in no order that a processor could foresee.
fn either(first: bool, a: u8, b: u8) -> u8
    ensures { result ≡ cond first a b }
{
    if first { a } else { b }
}

// What a character counts as a hex digit; 16, which no digit does, where it is none. The definitions say
// 16 too. A match that answers an Option was measured: it branches by digit and reads slower than this.
#[tactic(auto, unfolding(image_meaning::specs::Digits::digit_value))]
fn value(c: u8) -> u8
    ensures { result ≡ digit_value c }
{
    let lower = either((b'a' <= c) & (c <= b'f'), c.wrapping_sub(b'a' - 10), 16);
    let upper = either((b'A' <= c) & (c <= b'F'), c.wrapping_sub(b'A' - 10), lower);
    either((b'0' <= c) & (c <= b'9'), c.wrapping_sub(b'0'), upper)
}

// The byte of two digits at `at`; 256 where there is none. The definitions say 256 too, so that every line
// has a heading, of record form or not.
#[tactic(auto, unfolding(image_meaning::specs::Digits::paired))]
fn byte(text: &[u8], at: usize) -> u16
    ensures { result ≡ byte_of (drop at text.now) }
{
    let Some([high, low, ..]) = text.get(at..) else {
        return 256;
    };
    let high = value(*high) as u16;
    let low = value(*low) as u16;
    if high < 16 && low < 16 {
        16 * high + low
    } else {
        256
    }
}

// The word of eight digits at `at`, the most significant byte first. By arithmetic, since a byte that isn't
// there counts as 256 in the definition, which `u32::from_be_bytes` can't take.
#[tactic(auto, using(crate::proofs::WordsAt::word_at), unfolding(image_meaning::specs::Digits::word_from))]
pub fn word(text: &[u8], at: u32) -> u32
    ensures { result ≡ word_of (drop at text.now) }
{
    let at = at as usize;
    let a = byte(text, at) as u64;
    let b = byte(text, at + 2) as u64;
    let c = byte(text, at + 4) as u64;
    let d = byte(text, at + 6) as u64;
    ((16777216 * a + 65536 * b + 256 * c + d) % 4294967296) as u32
}

// The bytes of a record, from the count to the checksum, summed up modulo 256, where all are bytes.
#[tactic(auto, using(crate::proofs::Totals::from_the_start, crate::proofs::Totals::no_byte, crate::proofs::Totals::one_added, crate::proofs::Totals::all_added))]
fn sum_up(line: &[u8], count: u16) -> Option<u8>
    ensures { result ≡ total_of (bytes_of (count + 5) (drop 1 line.now)) }
{
    let mut sum: u8 = 0;
    for k in 0..count as usize + 5 {
        sum = sum.wrapping_add(u8::try_from(byte(line, 1 + 2 * k)).ok()?);
    }
    Some(sum)
}

// Whether nothing but a line's end stands there.
fn is_end(rest: &[u8]) -> bool
    ensures { result ≡ is_end rest.now }
{
    matches!(rest, [] | [b'\n'] | [b'\r', b'\n'])
}

// Whether nothing but a line's end stands behind `from`.
fn ended(line: &[u8], from: usize) -> bool
    ensures { result ≡ is_end (drop from line.now) }
{
    line.get(from..).is_none_or(is_end)
}

// The count, the address and the type of a record.
pub fn heading(line: &[u8]) -> Heading
    ensures { result ≡ heading_of line.now }
{
    let high = byte(line, 3) as u32;
    let low = byte(line, 5) as u32;
    Heading {
        count: byte(line, 1),
        address: 256 * high + low,
        kind: byte(line, 7),
    }
}

// What a line says; nothing where it is not of record form.
#[tactic(auto, unfolding(image_meaning::specs::Records::record_of, crate::specs::Totals::total_of))]
pub fn record(line: &[u8]) -> Option<Record>
    ensures { result ≡ record_of line.now }
{
    if *line.first()? != b':' {
        return None;
    }
    let heading = heading(line);
    let sum = sum_up(line, heading.count)?;
    if !ended(line, 11 + 2 * heading.count as usize) {
        return None;
    }
    Some(Record { heading, sum })
}

// Where the first LF of a text stands.
fn first_lf(text: &[u8]) -> Option<usize>
    ensures { result ≡ position (λ c. c == lf) text.now }
{
    text.iter().position(|c| *c == b'\n')
}

// Where the first line of a text ends: behind its LF, or at the end of the text.
#[tactic(auto, using(crate::proofs::LineEnds::behind_the_lf, crate::proofs::LineEnds::at_the_end))]
pub fn line_end(text: &[u8]) -> usize
    ensures { result ≡ line_length text.now }
{
    match first_lf(text) {
        Some(at) => at + 1,
        None => text.len(),
    }
}

// The lines of a text, one after the other.
#[derive(Drop)]
pub struct Lines<'a> {
    pub rest: &'a [u8],
}

impl<'a> Iterator for Lines<'a> {
    type Item = &'a [u8];

    ghost next_gives = { YieldsFirstRef (λ s. lines_of s.rest.now) };

    ghost remaining = { item_count (λ s. lines_of s.rest.now) };

    #[tactic(auto, using(crate::proofs::FirstLine::line_and_rest, crate::proofs::FirstLine::inside))]
    fn next(&mut self) -> Option<&'a [u8]> {
        if self.rest.is_empty() {
            return None;
        }
        let (line, rest) = self.rest.split_at(line_end(self.rest));
        self.rest = rest;
        Some(line)
    }
}
