// What a microword computes: the result with its flags, and the PSW after it.
ghost use Rattle.std.specs.Prelude.{◌≡◌};
ghost use Rattle.alu.specs.Alu.{alu};
ghost use Rattle.datapath.specs.Operation.{shifted};
ghost use Rattle.datapath.specs.Results.{psw_lines, quiet, new_psw};

use alu::{AluOutput, Flags};
use control_store::code;
use control_store::microword::Microword;
use status::psw::{Change, Psw, PswLines};

// The result that goes onto the C bus, and the flags that the PSW may load: v, n and z are the ALU's,
// c is the ALU's or the shifter's. It takes the codes that it reads and no microword, since a call
// that the compiler keeps would copy all of it; the crate's other functions go into their callers.
#[tactic(auto, unfolding(crate::specs::Operation::shifted))]
pub fn operate(code: u32, shift: u32, csrc: bool, a: u32, b: u32, carry: bool) -> AluOutput
    ensures { result ≡ shifted shift csrc (alu code a b carry) }
{
    let AluOutput { value, flags } = alu::compute(code, a, b, carry);
    let shifted = words::shifter::shift(shift, value);
    AluOutput {
        value: shifted.value,
        flags: Flags {
            c: (csrc & flags.c) | (!csrc & shifted.carry),
            ..flags
        },
    }
}

// The lines into the PSW that a microword drives; the clock line is high in phase four.
fn lines(word: Microword, flags: Flags) -> PswLines
    ensures { result ≡ psw_lines word flags }
{
    PswLines {
        set: word.trgt == code::TO_PSW,
        clock: true,
        sm: Change {
            set: word.ssm,
            clear: word.csm,
        },
        ie: Change {
            set: word.sie,
            clear: word.cie,
        },
        load: Flags {
            v: word.ldv,
            n: word.ldn,
            c: word.ldc,
            z: word.ldz,
        },
        flags,
    }
}

// No line into the PSW is high but its clock's: most microwords.
#[tactic(auto, unfolding(crate::specs::Results::quiet))]
fn quiet(word: Microword) -> bool
    ensures { result ≡ quiet word }
{
    let single = word.ssm | word.csm | word.sie | word.cie;
    let flags = word.ldv | word.ldn | word.ldc | word.ldz;
    !((word.trgt == code::TO_PSW) | single | flags)
}

// The PSW stays where no line asks for a change, which is looked at first since it is quick.
#[tactic(auto, using(crate::proofs::Targets::psw_kept), unfolding(crate::specs::Results::new_psw))]
pub fn psw(word: Microword, out: AluOutput, psw: Psw) -> Psw
    ensures { result ≡ new_psw word out psw }
{
    if quiet(word) {
        return psw;
    }
    status::psw::next(lines(word, out.flags), out.value, psw)
}
