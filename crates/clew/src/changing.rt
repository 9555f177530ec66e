// Change rows: writes picture rows.
ghost use Rattle.std.specs.Prelude.{◌≡◌, IfOk};
ghost use Rattle.refusals.specs.Refusal.{fault_of};
ghost use Rattle.fields.specs.Faults.{first as earlier};
ghost use Rattle.network.specs.Decode.{decode_of};
ghost use Rattle.checks.specs.Tests.{call_fault, rows_fault};
ghost use Rattle.clew.specs.Calls.{change_of};

use crate::outcome::{Outcome, done, refused};
use bands::state::{State, after_change};
use checks::tests::{rows_fault, test_call};
use lists::write::copy_in;
use network::net::Network;
use refusals::refusal::Refusal;

// Tests 1 to 7, with the lengths of the area and of the rows.
#[tactic(auto, using(fields::proofs::Refusals::in_order))]
fn tested(
    file: &[u8],
    sums: &[u32],
    area: usize,
    state: State,
    first: usize,
    count: usize,
    rows: usize,
) -> Result<Network, Refusal>
    ensures fault { fault_of result ≡ earlier (call_fault file.now sums.now area state) (rows_fault (decode_of file.now).network first count rows) }
    ensures network { IfOk result (λ n. n ≡ (decode_of file.now).network) }
{
    let network = test_call(file, sums, area, state)?;
    rows_fault(&network, first, count, rows)?;
    Ok(network)
}

// The count rows from row `first` of the picture become `rows`, equal bytes or not.
pub fn change_rows(
    file: &[u8],
    sums: &[u32],
    area: &mut [u8],
    state: State,
    first: usize,
    count: usize,
    rows: &[u8],
) -> Outcome
    ensures { (result, area.new) ≡ change_of file.now sums.now area.old state first count rows.now }
{
    match tested(file, sums, area.len(), state, first, count, rows.len()) {
        Ok(network) => {
            let picture = network.picture;
            copy_in(rows, area, first * (picture.columns * picture.channels));
            done(after_change(state, first as u16, (first + count) as u16))
        }
        Err(refusal) => refused(refusal, state),
    }
}
