// Where a record of data may stand in memory, and the store of one of its words. No text format is
// known here. Addresses, counts and ends are in bytes.
#![tactic(auto)]

ghost use Rattle.std.specs.Prelude.{◌≡◌, set};
ghost use Rattle.image_placing.specs.Placing.{placing};

// Why a record can't stand where it says: it is misplaced (13), or it starts before the end of the last (15).
#[derive(Clone, Copy, Debug, PartialEq, Eq)]
pub enum Misfit {
    Misplaced,
    Early,
}

// A record of `count` bytes from `address` on, in a memory of `words` words, after one that ended at `end`.
#[tactic(auto, unfolding(crate::specs::Placing::placing))]
pub fn place(words: usize, end: usize, address: u32, count: u16) -> Result<(), Misfit>
    ensures { result ≡ placing words end address count }
{
    let from = address as usize;
    let last = from + count as usize;
    if address % 4 != 0 || count % 4 != 0 || words < last / 4 {
        return Err(Misfit::Misplaced);
    }
    if from < end {
        return Err(Misfit::Early);
    }
    Ok(())
}

// One word; nothing where memory has no such word.
pub fn store(memory: &mut [u32], at: usize, word: u32)
    ensures { memory.new ≡ set memory.old at word }
{
    if at < memory.len() {
        memory[at] = word;
    }
}
