// The bench board: what its two calls mean. The board itself is the micro level's state as a caller
// lends it, micro_meaning::MicroState, which is avm_board of the header. There is no function here:
// specs/ says what a call answers and leaves, proofs/ what follows from it, and board_call does it.
#![tactic(auto)]

use calls::Answer;
use micro_meaning::MicroState;

// What a call answers, and the board after it.
#[derive(Clone, Copy)]
pub struct Moved {
    pub answer: Answer,
    pub board: MicroState,
}
