// The tests of the calls. Each answers nothing where it holds, else the refusal.
ghost use Rattle.std.specs.Prelude.{◌≡◌, ◌+◌, ◌≤◌, length, IfOk};
ghost use Rattle.numbers.specs.Limits.{tensor_most};
ghost use Rattle.refusals.specs.Refusal.{fault_of};
ghost use Rattle.records.specs.Layer.{sums_of, terms_of};
ghost use Rattle.fields.specs.Asked.{GoodShape};
ghost use Rattle.network.specs.Network.{tensor_of};
ghost use Rattle.network.specs.Decode.{decode_of};
ghost use Rattle.network.specs.Taken.{Taken};
ghost use Rattle.checks.specs.Tests.{room_fault, layer_sums_fit, sums_fault, load_fault, call_fault, rows_fault, layer_fault, slice_fault, stale_fault};

use crate::tensors::tensors_of;
use bands::state::{State, clean, state_fault};
use fields::faults::unless;
use network::file::decode;
use network::net::Network;
use records::layer::Layer;
use refusals::refusal::Refusal;

// Test 4.
#[tactic(auto, unfolding(crate::specs::Tests::room_fault))]
fn room_fault(n: &Network, sums: usize, area: usize) -> Result<(), Refusal>
    ensures { fault_of result ≡ room_fault n.now sums area }
{
    unless(n.store <= sums && n.area <= area, Refusal::NoRoom)
}

// Whether no stored sum of a layer is above 255N.
fn sums_fit(y: Layer, sums: &[u32]) -> bool
    requires good_shape { GoodShape y.input }
    requires input_bound { terms_of y.kind y.input ≤ tensor_most }
    requires kind_in_bounds { y.sums + sums_of y.kind ≤ length sums.now }
    ensures { result ≡ layer_sums_fit y sums.now }
{
    let most = 255 * y.terms() as u32;
    let end = y.sums + y.kind.sums();
    sums[y.sums..end].iter().all(|&sum| sum <= most)
}

// Test 6.
fn sums_fault(file: &[u8], n: &Network, sums: &[u32]) -> Result<(), Refusal>
    requires taken { Taken file.now n.now }
    requires store_in_bounds { n.now.store ≤ length sums.now }
    ensures { fault_of result ≡ sums_fault n.now sums.now }
{
    for m in 0..n.count {
        if !sums_fit(n.layer(m), sums) {
            return Err(Refusal::BadSums);
        }
    }
    Ok(())
}

// Tests 1 to 4, with the lengths of the sum store and of the area.
#[tactic(auto, using(fields::proofs::Refusals::in_order), unfolding(crate::specs::Tests::load_fault))]
pub fn test_load(file: &[u8], sums: usize, area: usize) -> Result<Network, Refusal>
    ensures fault { fault_of result ≡ load_fault file.now sums area }
    ensures network { IfOk result (λ n. n ≡ (decode_of file.now).network) }
{
    let network = decode(file)?;
    room_fault(&network, sums, area)?;
    Ok(network)
}

// Tests 1 to 6.
#[tactic(auto, using(fields::proofs::Refusals::in_order, crate::proofs::Passed::call_is))]
pub fn test_call(file: &[u8], sums: &[u32], area: usize, s: State) -> Result<Network, Refusal>
    ensures fault { fault_of result ≡ call_fault file.now sums.now area s }
    ensures network { IfOk result (λ n. n ≡ (decode_of file.now).network) }
{
    let network = test_load(file, sums.len(), area)?;
    state_fault(s, tensors_of(&network))?;
    sums_fault(file, &network, sums)?;
    Ok(network)
}

// Test 7 of change rows. The sums cannot wrap, since each test is made only where the ones before it hold.
#[tactic(auto, unfolding(crate::specs::Tests::rows_fault))]
pub fn rows_fault(n: &Network, first: usize, count: usize, len: usize) -> Result<(), Refusal>
    requires { GoodShape n.now.picture }
    ensures { fault_of result ≡ rows_fault n.now first count len }
{
    let picture = n.picture;
    let within = 1 <= count && count <= picture.rows && first <= picture.rows - count;
    unless(
        within && len == count * (picture.columns * picture.channels),
        Refusal::BadArguments,
    )
}

// Test 7 of replace layer.
#[tactic(auto, unfolding(crate::specs::Tests::layer_fault))]
pub fn layer_fault(n: &Network, k: usize) -> Result<(), Refusal>
    ensures { fault_of result ≡ layer_fault n.now k }
{
    unless(1 <= k && k <= n.count, Refusal::BadArguments)
}

// Test 7 of read.
#[tactic(auto, unfolding(crate::specs::Tests::slice_fault))]
pub fn slice_fault(n: &Network, len: usize) -> Result<(), Refusal>
    requires { (n.now.count ≤ 16) × GoodShape (tensor_of n.now n.now.count) }
    ensures { fault_of result ≡ slice_fault n.now len }
{
    unless(len == n.tensor(n.count).bytes(), Refusal::BadArguments)
}

// Test 8.
#[tactic(auto, unfolding(crate::specs::Tests::stale_fault))]
pub fn stale_fault(s: State) -> Result<(), Refusal>
    ensures { fault_of result ≡ stale_fault s }
{
    unless(clean(s), Refusal::Stale)
}
