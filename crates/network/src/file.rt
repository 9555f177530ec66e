// The whole file: its length, the head, the layers in order, and that nothing follows.
ghost use Rattle.std.specs.Prelude.{◌≡◌, ◌≤◌, ◌<◌, length};
ghost use Rattle.numbers.specs.Limits.{area_most};
ghost use Rattle.refusals.specs.Refusal.{fault_of};
ghost use Rattle.fields.specs.Asked.{GoodShape};
ghost use Rattle.records.specs.Answer.{read_of};
ghost use Rattle.network.specs.Network.{tensor_of};
ghost use Rattle.network.specs.Decode.{read_layer, start_of, end_fault, decode_of};
ghost use Rattle.network.specs.Answer.{started_as, decoded_to};

use crate::head::{head_fault, picture_at};
use crate::net::Network;
use fields::faults::{cut_fault, unless};
use numbers::limits::FILE_MOST;
use records::layer::Layer;
use records::mark::mark_at;
use records::reader::{Before, fit_record, kind_at, own_fault};
use refusals::refusal::Refusal;

// The record of layer made + 1, which reads tensor made. Found are the layer, and where the next record begins.
#[tactic(auto, using(fields::proofs::Refusals::in_order, fields::proofs::Tests::cut_there, records::proofs::Answers::answered), unfolding(crate::specs::Decode::read_layer, records::specs::Reader::read_as))]
fn read_layer(s: &[u8], at: usize, n: &Network, made: usize) -> Result<(Layer, usize), Refusal>
    requires at_in_bounds { at ≤ length s.now }
    requires made_bound { (made < 16) × (n.now.area ≤ area_most) }
    requires good_shape { GoodShape (tensor_of n.now made) }
    ensures { read_of result ≡ read_layer s.now at n.now made }
{
    let mark = mark_at(s, at);
    cut_fault(s, at, mark.fixed_len())?;
    own_fault(mark, s, at)?;
    let kind = kind_at(mark, s, at);
    let other = n.tensor(kind.other(made).min(made));
    let b = Before {
        input: n.tensor(made),
        made,
        area: n.area,
        store: n.store,
    };
    fit_record(mark, kind, s, at, b, other)
}

// The head read: a network of no layer yet.
#[tactic(auto, using(crate::proofs::Layers::head_there, crate::proofs::Layers::started_number, crate::proofs::Layers::started_none), unfolding(crate::specs::Decode::start_of))]
fn start(s: &[u8]) -> Result<Network, Refusal>
    ensures { started_as result ≡ start_of s.now }
{
    head_fault(s)?;
    let picture = picture_at(s);
    Ok(Network::empty(picture, s[7], usize::from(s[8]), picture.bytes()))
}

// Nothing follows the last layer.
#[tactic(auto, unfolding(crate::specs::Decode::end_fault))]
fn end_fault(s: &[u8], at: usize) -> Result<(), Refusal>
    ensures { fault_of result ≡ end_fault s.now at }
{
    unless(at == s.len(), Refusal::Malformed)
}

// Tests 1 to 3: the network of the file, or the refusal.
pub fn decode(file: &[u8]) -> Result<Network, Refusal>
    ensures { decoded_to result ≡ decode_of file.now }
{
    unless(file.len() <= FILE_MOST, Refusal::Unfit)?;
    let mut network = start(file)?;
    let mut at = 10;
    for made in 0..network.count {
        let (layer, next) = read_layer(file, at, &network, made)?;
        network.push(made, layer);
        at = next;
    }
    end_fault(file, at)?;
    Ok(network)
}
