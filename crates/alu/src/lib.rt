// The ALU: eleven functions, each with a value and four flags.
#![tactic(auto)]

ghost use Rattle.std.specs.Prelude.{◌≡◌};
ghost use Rattle.alu.specs.Alu.{added, subtracted, plain, alu};

pub mod code;

use words::predicates::{negative, zero};

// The four status bits: overflow, negative, carry, zero.
#[derive(Clone, Copy)]
pub struct Flags {
    pub v: bool,
    pub n: bool,
    pub c: bool,
    pub z: bool,
}

#[derive(Clone, Copy)]
pub struct AluOutput {
    pub value: u32,
    pub flags: Flags,
}

// a + b + carry. A sum that wrapped is below its operand; a sum of two words of one sign that has
// the other sign overflowed.
fn add(a: u32, b: u32, carry: bool) -> AluOutput
    ensures { result ≡ added a b carry }
{
    let partial = a.wrapping_add(b);
    let value = partial.wrapping_add(carry as u32);
    let sign = negative(a);
    let n = negative(value);
    AluOutput {
        value,
        flags: Flags {
            v: !(sign ^ negative(b)) & (sign ^ n),
            n,
            c: (partial < a) | (value < partial),
            z: zero(value),
        },
    }
}

// a - b - borrow. Nothing is borrowed where b is below a, or equal with no borrow in.
fn subtract(a: u32, b: u32, borrow: bool) -> AluOutput
    ensures { result ≡ subtracted a b borrow }
{
    let partial = a.wrapping_sub(b);
    let value = partial.wrapping_sub(borrow as u32);
    let sign = negative(a);
    let n = negative(value);
    AluOutput {
        value,
        flags: Flags {
            v: (sign ^ negative(b)) & (sign ^ n),
            n,
            c: (b < a) | ((b == a) & !borrow),
            z: zero(value),
        },
    }
}

// A value that no sum made.
#[tactic(auto, unfolding(crate::specs::Alu::plain))]
fn pass(value: u32) -> AluOutput
    ensures { result ≡ plain value }
{
    AluOutput {
        value,
        flags: Flags {
            v: false,
            n: negative(value),
            c: false,
            z: zero(value),
        },
    }
}

#[tactic(auto, unfolding(crate::specs::Alu::alu, words::specs::Words::bnot))]
pub fn compute(code: u32, a: u32, b: u32, carry: bool) -> AluOutput
    ensures { result ≡ alu code a b carry }
{
    match code {
        code::ADD => add(a, b, false),
        code::ADD_WITH_CARRY => add(a, b, carry),
        code::INCREMENT => add(a, 1, false),
        code::SUBTRACT => subtract(a, b, false),
        code::SUBTRACT_WITH_CARRY => subtract(a, b, carry),
        code::DECREMENT => subtract(a, 1, false),
        code::AND => pass(a & b),
        code::XOR => pass(a ^ b),
        code::OR => pass(a | b),
        code::NOT => pass(!a),
        _ => pass(a),
    }
}
