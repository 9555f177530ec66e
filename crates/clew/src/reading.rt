// Read: copies the last tensor to a slice lent for it.
ghost use Rattle.std.specs.Prelude.{◌≡◌, IfOk};
ghost use Rattle.refusals.specs.Refusal.{fault_of};
ghost use Rattle.fields.specs.Faults.{first};
ghost use Rattle.network.specs.Decode.{decode_of};
ghost use Rattle.checks.specs.Tests.{call_fault, slice_fault, stale_fault};
ghost use Rattle.clew.specs.Calls.{read_of};

use crate::outcome::{Outcome, done, refused};
use bands::state::State;
use checks::tests::{slice_fault, stale_fault, test_call};
use lists::write::copy_in;
use network::net::Network;
use refusals::refusal::Refusal;

// Tests 1 to 8, with the lengths of the area and of the slice.
#[tactic(auto, using(fields::proofs::Refusals::in_order))]
fn tested(
    file: &[u8],
    sums: &[u32],
    area: usize,
    state: State,
    slice: usize,
) -> Result<Network, Refusal>
    ensures fault { fault_of result ≡ first (call_fault file.now sums.now area state) (first (slice_fault (decode_of file.now).network slice) (stale_fault state)) }
    ensures network { IfOk result (λ n. n ≡ (decode_of file.now).network) }
{
    let network = test_call(file, sums, area, state)?;
    slice_fault(&network, slice)?;
    stale_fault(state)?;
    Ok(network)
}

// The last tensor, all of it, where no band has a row.
pub fn read(file: &[u8], sums: &[u32], area: &[u8], state: State, out: &mut [u8]) -> Outcome
    ensures { (result, out.new) ≡ read_of file.now sums.now area.now state out.old }
{
    match tested(file, sums, area.len(), state, out.len()) {
        Ok(network) => {
            let from = network.place(network.count);
            copy_in(&area[from..from + out.len()], out, 0);
            done(state)
        }
        Err(refusal) => refused(refusal, state),
    }
}
