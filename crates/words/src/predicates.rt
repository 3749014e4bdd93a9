// The two test functions of a word, its predicates (section 5.2.1, pp. 87-91).
ghost use Rattle.std.specs.Prelude.{◌≡◌};
ghost use Rattle.words.specs.Words.{negp, zerop};

#[tactic(auto, unfolding(crate::specs::Words::bit, crate::specs::Words::msb, crate::specs::Words::negp))]
pub fn negative(w: u32) -> bool
    ensures { result ≡ negp w }
{
    w / 0x8000_0000 % 2 == 1
}

#[tactic(auto, unfolding(crate::specs::Words::zerop))]
pub fn zero(w: u32) -> bool
    ensures { result ≡ zerop w }
{
    w == 0
}
