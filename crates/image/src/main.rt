// The image program: 16 zero words, HEX from standard input, and the image of memory on standard
// output; or one line with the number and the line of the refusal.
#![tactic(auto)]

ghost use Rattle.std.specs.Prelude.{◌≡◌, ◌≤◌, length};
ghost use Rattle.image.specs.Image.{image_answer, image_room};

use answers::{Numbered, Refusal};
use std::io;
use std::io::{Print, Read};

fn main(rt: HostRuntime) {
    // one byte more than the longest input, so that a longer one is seen
    let mut text = [0u8; 65537];
    let read = fill(&mut rt.reader(), &mut text);
    // the status is 0 whatever comes of it, as it is of a refusal
    let _ = show(&rt, &text[..read]);
}

// Reads until the input ends, a read fails or no room is left, and says how many bytes were read.
fn fill(from: &mut impl Read, text: &mut [u8]) -> usize
    ensures { result ≤ length text.new }
{
    let mut filled = 0;
    while let Ok(read) = from.read(&mut text[filled..]) {
        if read == 0 {
            break;
        }
        filled += read;
    }
    filled
}

fn show(out: &impl Print, text: &[u8]) -> io::Result<()> {
    let mut room = [0u8; 188];
    match image(text, &mut room) {
        Ok(()) => out.write_all(&room),
        Err(refusal) => {
            let Numbered { number, at } = Numbered::from(refusal);
            println!(out; "refused {number} line {at}")
        }
    }
}

// The text read into 16 zero words, and their image written into the room.
fn image(text: &[u8], room: &mut [u8]) -> Result<(), Refusal>
    ensures { (result ≡ image_answer text.now) × (room.new ≡ image_room text.now room.old) }
{
    if 65536 < text.len() {
        return Err(Refusal::TextLength);
    }
    let mut memory = [0u32; 16];
    image_reader::read(&mut memory, text)?;
    // the room of the program is long enough, and what is too short stays as it was
    let _ = image_writer::write(&memory, room);
    Ok(())
}
