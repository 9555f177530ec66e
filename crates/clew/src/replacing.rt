// Replace layer: writes a record over the one in place, and its sums.
ghost use Rattle.std.specs.Prelude.{◌≡◌, ◌-◌, IfOk};
ghost use Rattle.refusals.specs.Refusal.{fault_of};
ghost use Rattle.fields.specs.Faults.{first};
ghost use Rattle.network.specs.Network.{layer_of};
ghost use Rattle.network.specs.Decode.{decode_of};
ghost use Rattle.network.specs.Replace.{replace_fault};
ghost use Rattle.checks.specs.Tests.{call_fault, layer_fault};
ghost use Rattle.clew.specs.Calls.{replace_of};

use crate::outcome::{Outcome, done, refused};
use bands::state::{State, after_replace};
use checks::tests::{layer_fault, test_call};
use layers::sums::put_sums;
use lists::write::copy_in;
use network::replace::replace_fault;
use records::layer::Layer;
use refusals::refusal::Refusal;

// Tests 1 to 7 and 9, with the length of the area: the layer in place.
#[tactic(auto, using(fields::proofs::Refusals::in_order))]
fn tested(
    file: &[u8],
    sums: &[u32],
    area: usize,
    state: State,
    number: usize,
    record: &[u8],
) -> Result<Layer, Refusal>
    ensures fault { fault_of result ≡ first (call_fault file.now sums.now area state) (first (layer_fault (decode_of file.now).network number) (replace_fault file.now (layer_of (decode_of file.now).network (number - 1)) «record».now)) }
    ensures layer { IfOk result (λ y. y ≡ layer_of (decode_of file.now).network (number - 1)) }
{
    let network = test_call(file, sums, area, state)?;
    layer_fault(&network, number)?;
    let y = network.layer(number - 1);
    replace_fault(file, y, record)?;
    Ok(y)
}

// Layer `number`, from 1, gets the record.
pub fn replace_layer(
    file: &mut [u8],
    sums: &mut [u32],
    area: &[u8],
    state: State,
    number: usize,
    record: &[u8],
) -> Outcome
    ensures { (result, file.new, sums.new) ≡ replace_of file.old sums.old area.now state number «record».now }
{
    match tested(file, sums, area.len(), state, number, record) {
        Ok(y) => {
            copy_in(record, file, y.start);
            put_sums(y, file, sums);
            done(after_replace(state, number, y.output.rows as u16))
        }
        Err(refusal) => refused(refusal, state),
    }
}
