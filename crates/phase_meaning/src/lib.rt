// The phase level: its state, as the phases see it and as a caller lends it, and the way from one to
// the other. specs/ says what a phase and a call of it mean, proofs/ what follows from it, and
// phase_level does it.
#![tactic(auto)]

ghost use Rattle.std.specs.Prelude.{◌≡◌};
ghost use Rattle.phase_meaning.specs.Machine.{with_psw, phase_unpacked, phase_packed};

use status::psw::Psw;

// The state of the phase level, with the PSW as its six bits or as a number.
#[derive(Clone, Copy)]
pub struct PhaseLevel<P> {
    pub registers: [u32; 32],
    pub psw: P,
    pub pc: u32,
    pub ivec: u32,
    pub ir: u32,
    pub mar: u32,
    pub mbr: u32,
    pub mpc: u32,
    pub alatch: u32,
    pub blatch: u32,
    pub ireq: bool,
    pub iack: bool,
    pub mir: u64,
    pub phase: u32,
}

// As the phases see it.
pub type PhaseMachine = PhaseLevel<Psw>;

// As a caller lends it.
pub type PhaseState = PhaseLevel<u32>;

// The same with another PSW.
fn with_psw<P: Copy, Q>(s: PhaseLevel<P>, psw: Q) -> PhaseLevel<Q>
    ensures { result ≡ with_psw s psw }
{
    let PhaseLevel {
        registers,
        pc,
        ivec,
        ir,
        mar,
        mbr,
        mpc,
        alatch,
        blatch,
        ireq,
        iack,
        mir,
        phase,
        ..
    } = s;
    PhaseLevel {
        registers,
        psw,
        pc,
        ivec,
        ir,
        mar,
        mbr,
        mpc,
        alatch,
        blatch,
        ireq,
        iack,
        mir,
        phase,
    }
}

// The PSW's other bits are dropped.
impl From<PhaseState> for PhaseMachine {
    ghost from_gives = { λ s machine. machine ≡ phase_unpacked s };

    fn from(s: PhaseState) -> PhaseMachine {
        with_psw(s, Psw::from(s.psw))
    }
}

impl From<PhaseMachine> for PhaseState {
    ghost from_gives = { λ machine s. s ≡ phase_packed machine };

    fn from(machine: PhaseMachine) -> PhaseState {
        with_psw(machine, u32::from(machine.psw))
    }
}
