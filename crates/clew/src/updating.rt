// Update: recomputes the rows of the grown bands.
ghost use Rattle.std.specs.Prelude.{◌≡◌};
ghost use Rattle.clew.specs.Calls.{update_of};

use crate::outcome::{Outcome, refused};
use bands::state::{State, all_empty};
use checks::tests::test_call;
use updates::recompute::recompute;

// The count is the bytes recomputed: those of the rows in the grown bands, and no others.
pub fn update(file: &[u8], sums: &[u32], area: &mut [u8], state: State) -> Outcome
    ensures { (result, area.new) ≡ update_of file.now sums.now area.old state }
{
    match test_call(file, sums, area.len(), state) {
        Ok(network) => Outcome {
            number: 0,
            count: recompute(file, &network, sums, area, state),
            state: all_empty(),
        },
        Err(refusal) => refused(refusal, state),
    }
}
