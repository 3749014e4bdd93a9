// avm_read and avm_write: the reader's and the writer's answers as every C call gives them. The crate
// schoonleech exports them.
#![tactic(auto)]

ghost use Rattle.std.specs.Prelude.{◌≡◌};
ghost use Rattle.image_meaning.specs.Reading.{memory_after};
ghost use Rattle.image_meaning.specs.Writing.{room_after};
ghost use Rattle.image_call.specs.Images.{avm_read, avm_write};

use answers::{Microcycles, Steps};
use calls::{Answer, answer_of};

// Reads an image into memory.
#[tactic(auto, unfolding(crate::specs::Images::avm_read))]
pub fn read(memory: &mut [u32], text: &[u8]) -> Answer
    ensures { (result ≡ avm_read memory.old text.now)
        × (memory.new ≡ memory_after memory.old text.now) }
{
    let end = image_reader::read(memory, text);
    answer_of(end, Microcycles::NONE, Steps::NONE)
}

// Writes memory's image into the room.
#[tactic(auto, unfolding(crate::specs::Images::avm_write))]
pub fn write(memory: &[u32], room: &mut [u8]) -> Answer
    ensures { (result ≡ avm_write memory.now room.old)
        × (room.new ≡ room_after memory.now room.old) }
{
    match image_writer::write(memory, room) {
        Ok(bytes) => Answer {
            number: 0,
            at: bytes as u64,
            microcycles: Microcycles::NONE,
            steps: Steps::NONE,
        },
        Err(refusal) => Answer::from(refusal),
    }
}
