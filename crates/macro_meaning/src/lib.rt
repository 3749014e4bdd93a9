// Instruction steps: the state that a programmer sees, with memory beside it, what an instruction reads
// and does, and what a run answers. The functions here turn one form of the state into the other and
// decide nothing: specs/ says what a step means, proofs/ what follows from it, and macro_level does it.
#![tactic(auto)]

ghost use Rattle.std.specs.Prelude.{◌≡◌};
ghost use Rattle.macro_meaning.specs.Machine.{with_psw, macro_unpacked, macro_packed};

use answers::Steps;
use blocks::memory::Store;
use status::psw::Psw;

// What a programmer sees, with the PSW in one of its two forms.
#[derive(Clone, Copy)]
pub struct MacroLevel<P> {
    pub registers: [u32; 32],
    pub psw: P,
    pub pc: u32,
    pub ivec: u32,
}

// As a caller lends it: the PSW is a number.
pub type MacroState = MacroLevel<u32>;

// As a step sees it: the PSW is its six bits.
pub type MacroMachine = MacroLevel<Psw>;

// The same with another PSW.
fn with_psw<P: Copy, Q>(s: MacroLevel<P>, psw: Q) -> MacroLevel<Q>
    ensures { result ≡ with_psw s psw }
{
    let MacroLevel {
        registers,
        pc,
        ivec,
        ..
    } = s;
    MacroLevel {
        registers,
        psw,
        pc,
        ivec,
    }
}

// The PSW's other bits are dropped.
impl From<MacroState> for MacroMachine {
    ghost from_gives = { λ s m. m ≡ macro_unpacked s };

    fn from(s: MacroState) -> MacroMachine {
        with_psw(s, Psw::from(s.psw))
    }
}

impl From<MacroMachine> for MacroState {
    ghost from_gives = { λ m s. s ≡ macro_packed m };

    fn from(m: MacroMachine) -> MacroState {
        with_psw(m, u32::from(m.psw))
    }
}

// What an instruction reads: the three registers that its word names, SSP, its immediate, the number
// of its destination, PSW, PC and the interrupt vector.
#[derive(Clone, Copy)]
pub struct Operands {
    pub a: u32,
    pub b: u32,
    pub d: u32,
    pub ssp: u32,
    pub imm: u32,
    pub dest: u32,
    pub psw: Psw,
    pub pc: u32,
    pub ivec: u32,
}

// What it does: one register at most, written under the register rule with `sm`; register 0 stands
// for none.
#[derive(Clone, Copy)]
pub struct Effect {
    pub sm: bool,
    pub register: u32,
    pub value: u32,
    pub psw: Psw,
    pub pc: u32,
    pub store: Option<Store>,
}

// What a run that is not refused answers.
#[derive(Clone, Copy)]
pub struct Stepped {
    pub steps: Steps,
    pub state: MacroState,
}
