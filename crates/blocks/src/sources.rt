// What stands on the two buses that feed the ALU.
ghost use Rattle.std.specs.Prelude.{◌≡◌};
ghost use Rattle.blocks.specs.Sources.{a_source, b_source};

use control_store::code;

// By SRCA: the register that source A names, the destination register, SSP, the PSW, 255, or PC.
#[tactic(auto, unfolding(crate::specs::Sources::a_source))]
pub fn a(code: u32, file: u32, dest: u32, ssp: u32, psw: u32, pc: u32) -> u32
    ensures { result ≡ a_source code file dest ssp psw pc }
{
    match code {
        code::FROM_REG_FILE => file,
        code::FROM_REG_DEST => dest,
        code::FROM_SSP => ssp,
        code::FROM_PSW => psw,
        code::FROM_C255 => 255,
        _ => pc,
    }
}

// By SRCB: the register that source B names, the vector, or the immediate.
#[tactic(auto, unfolding(crate::specs::Sources::b_source))]
pub fn b(code: u32, file: u32, ivec: u32, imm: u32) -> u32
    ensures { result ≡ b_source code file ivec imm }
{
    match code {
        code::FROM_REG_FILE_B => file,
        code::FROM_IVEC => ivec,
        _ => imm,
    }
}
