// The shifter: left, right, arithmetic right, or nothing, with the bit shifted out.
ghost use Rattle.std.specs.Prelude.{◌≡◌};
ghost use Rattle.words.specs.Shifter.{shifter};

use crate::predicates::negative;

// SHFT (table 5.14, p. 120). A code stays a number: `shift` takes any, and every other leaves the word as
// it is.
pub const LEFT: u32 = 0;

pub const RIGHT: u32 = 1;

pub const ARITHMETIC_RIGHT: u32 = 2;

#[derive(Clone, Copy)]
pub struct ShifterOutput {
    pub value: u32,
    pub carry: bool,
}

#[tactic(auto, unfolding(crate::specs::Shifter::asr, crate::specs::Words::bit, crate::specs::Words::lsb, crate::specs::Words::negp, crate::specs::Shifter::shifter, crate::specs::Shifter::shl, crate::specs::Shifter::shr, crate::specs::Words::wordn))]
pub fn shift(code: u32, w: u32) -> ShifterOutput
    ensures { result ≡ shifter code w }
{
    let high = negative(w);
    let low = w % 2 == 1;
    match code {
        LEFT => ShifterOutput {
            value: w % 0x8000_0000 * 2,
            carry: high,
        },
        RIGHT => ShifterOutput {
            value: w / 2,
            carry: low,
        },
        ARITHMETIC_RIGHT => ShifterOutput {
            value: w / 2 + (high as u32) * 0x8000_0000,
            carry: low,
        },
        _ => ShifterOutput {
            value: w,
            carry: false,
        },
    }
}
