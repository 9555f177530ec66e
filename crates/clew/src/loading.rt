// Load: fills the sums.
ghost use Rattle.std.specs.Prelude.{◌≡◌};
ghost use Rattle.clew.specs.Calls.{load_of};

use crate::outcome::{Outcome, done, refused};
use bands::state::{after_load, all_stale};
use checks::tensors::tensors_of;
use checks::tests::test_load;
use updates::fill::fill_sums;

// Tests 1 to 4, then fills the sums. Every row of every tensor is stale afterwards, so the picture may be written
// straight into the area before the first update.
pub fn load(file: &[u8], sums: &mut [u32], area: &[u8]) -> Outcome
    ensures { (result, sums.new) ≡ load_of file.now sums.old area.now }
{
    match test_load(file, sums.len(), area.len()) {
        Ok(network) => {
            fill_sums(file, &network, sums);
            done(after_load(tensors_of(&network)))
        }
        Err(refusal) => refused(refusal, all_stale()),
    }
}
