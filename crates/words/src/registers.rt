// The register file's one rule for a write.
ghost use Rattle.std.specs.Prelude.{◌≡◌};
ghost use Rattle.words.specs.Registers.{is_sup_reg, update_reg};

// The supervisor's stack pointer.
pub const SSP: u32 = 1;

// The seven registers that only the supervisor writes (pp. 63-65).
#[tactic(auto, unfolding(crate::specs::Registers::is_sup_reg))]
pub fn is_supervisor(n: u32) -> bool
    ensures { result ≡ is_sup_reg n }
{
    (1 <= n) & (n <= 7)
}

pub fn update(sm: bool, n: u32, registers: [u32; 32], value: u32) -> [u32; 32]
    ensures { result ≡ update_reg sm n registers value }
{
    let supervisor = is_supervisor(n);
    if n == 0 {
        return registers;
    }
    if supervisor & !sm {
        return registers;
    }
    if 32 <= n {
        return registers;
    }
    let mut next = registers;
    next[n as usize] = value;
    next
}
