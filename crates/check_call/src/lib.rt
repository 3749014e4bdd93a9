// avm_check: the checker's answer as every C call gives it. The crate schoonleech exports it.
#![tactic(auto)]

ghost use Rattle.check_call.specs.Checks.{CheckAnswer};

use answers::Steps;
use calls::{Answer, answer_of};

// Checks a microprogram without running it.
pub fn check(program: &[u64]) -> Answer
    ensures { CheckAnswer program.now result }
{
    match check_walks::check(program) {
        Ok(longest) => answer_of(Ok(()), longest, Steps::NONE),
        Err(refusal) => Answer::from(refusal),
    }
}
