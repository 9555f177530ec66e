// What a call answers.
ghost use Rattle.std.specs.Prelude.{◌≡◌};
ghost use Rattle.refusals.specs.Refusal.{refusal_number};
ghost use Rattle.clew.specs.Calls.{outcome};

use bands::state::State;
use refusals::refusal::Refusal;

/// Number 0 means done, another is a refusal; count is the bytes recomputed; state is the one to pass to the next call.
// A refusal hands back a state too, and the theorems of crate facts speak of the number: so this is no Result.
#[derive(Clone, Copy, Debug, PartialEq, Eq)]
pub struct Outcome {
    pub number: u8,
    pub count: u32,
    pub state: State,
}

/// How large the buffers of a network are: the bytes of the picture, how many sums are stored, the bytes of the work area and those of a
/// reading. Number 0 means that the file is taken, another is a refusal, and then all are 0.
// The theorems of crate facts speak of the number of a refused file and of its sizes: so this is no Result.
#[derive(Clone, Copy, Debug, PartialEq, Eq)]
pub struct Sizes {
    pub number: u8,
    pub picture: usize,
    pub sums: usize,
    pub area: usize,
    pub reading: usize,
}

// A call that is done and recomputes nothing.
pub fn done(state: State) -> Outcome
    ensures { result ≡ outcome 0 0 state }
{
    Outcome {
        number: 0,
        count: 0,
        state,
    }
}

// A call that is refused, with the state that it hands back.
pub fn refused(refusal: Refusal, state: State) -> Outcome
    ensures { result ≡ outcome (refusal_number refusal) 0 state }
{
    Outcome {
        number: u8::from(refusal),
        count: 0,
        state,
    }
}
