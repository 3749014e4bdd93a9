// The tests that several levels share.
ghost use Rattle.std.specs.Prelude.{◌≡◌};
ghost use Rattle.std.specs.List.{position};
ghost use Rattle.answers.specs.Places.{above};
ghost use Rattle.answers.specs.Tests.{lent_test};

use crate::Refusal;

// Memory's length and register 0: 1 and 3, which every call of the engine tests first.
#[tactic(auto, unfolding(crate::specs::Tests::lent_test))]
pub fn lent(words: usize, zero: u32) -> Result<(), Refusal>
    ensures { result ≡ lent_test words zero }
{
    if !words::lengths::legal(words) {
        return Err(Refusal::MemoryLength);
    }
    if zero != 0 {
        return Err(Refusal::RegisterZero);
    }
    Ok(())
}

// The place of the first byte above `most`, where there is one.
pub fn first_above(most: u8, bytes: &[u8]) -> Option<usize>
    ensures { result ≡ position (above most) bytes.now }
{
    bytes.iter().position(|byte| most < *byte)
}
