// One record read: its own faults, the faults of its shape, and what is stored after its fixed part.
ghost use Rattle.std.specs.Prelude.{◌≡◌, ◌+◌, ◌*◌, ◌≤◌, length};
ghost use Rattle.numbers.specs.Limits.{area_most};
ghost use Rattle.fields.specs.Asked.{GoodShape, SmallShape};
ghost use Rattle.refusals.specs.Refusal.{fault_of};
ghost use Rattle.records.specs.Mark.{fixed_len};
ghost use Rattle.records.specs.Asked.{KindOk};
ghost use Rattle.records.specs.Layer.{output_shape};
ghost use Rattle.records.specs.Reader.{kind_at, own_fault, suit_fault, read_as, record_fault};
ghost use Rattle.records.specs.Answer.{read_of};

use crate::add::add_at;
use crate::conv::{blank_conv, conv_at};
use crate::full::full_at;
use crate::layer::{Kind, Layer};
use crate::mark::Mark;
use fields::faults::{spare_fault, unless};
use fields::shape::Shape;
use fields::stored::{bias_faults, stored_fault, stored_len};
use refusals::refusal::Refusal;

// What stands before a record: the tensor that its layer reads, and how many layers, bytes of tensors and stored sums
// there are so far.
#[derive(Clone, Copy, Debug, PartialEq, Eq)]
pub struct Before {
    pub input: Shape,
    pub made: usize,
    pub area: usize,
    pub store: usize,
}

// The parameters that the record at a place holds.
pub fn kind_at(m: Mark, s: &[u8], at: usize) -> Kind
    requires { at + fixed_len m ≤ length s.now }
    ensures { result ≡ kind_at m s.now at }
{
    match m {
        Mark::CV => Kind::Conv(conv_at(s, at)),
        Mark::FU => Kind::Full(full_at(s, at)),
        Mark::AD => Kind::Add(add_at(s, at)),
        Mark::Other => Kind::Conv(blank_conv()),
    }
}

// An unknown mark; a spare, then the fields in file order.
#[tactic(auto, using(fields::proofs::Refusals::in_order), unfolding(crate::specs::Reader::own_fault))]
pub fn own_fault(m: Mark, s: &[u8], at: usize) -> Result<(), Refusal>
    requires { at + fixed_len m ≤ length s.now }
    ensures { fault_of result ≡ own_fault m s.now at }
{
    match m {
        Mark::CV => conv_at(s, at).check(),
        Mark::FU => {
            spare_fault(s[at + 9])?;
            full_at(s, at).check()
        }
        Mark::AD => {
            spare_fault(s[at + 21])?;
            add_at(s, at).check()
        }
        Mark::Other => Err(Refusal::Malformed),
    }
}

// The input suits the layer; `other` is the shape of the other tensor that it reads.
#[tactic(auto, unfolding(crate::specs::Reader::suit_fault, fields::specs::Shape::same_shape))]
fn suit_fault(kind: Kind, b: Before, other: Shape) -> Result<(), Refusal>
    requires { GoodShape b.input }
    ensures { fault_of result ≡ suit_fault kind b other }
{
    let suits = match kind {
        Kind::Conv(c) => c.frame.fits(b.input),
        Kind::Full(_) => true,
        Kind::Add(a) => usize::from(a.other) <= b.made && other == b.input,
    };
    unless(suits, Refusal::Unfit)
}

// The shape of what a layer that its input suits makes.
fn output_shape(kind: Kind, b: Before, other: Shape) -> Shape
    requires kind_ok { KindOk kind }
    requires good_shape { GoodShape b.input }
    requires other_value { suit_fault kind b other ≡ 0 }
    ensures { (result ≡ output_shape kind b.input) × SmallShape result }
{
    match kind {
        Kind::Conv(c) => c.frame.output(b.input, c.filters),
        Kind::Full(f) => f.output(),
        Kind::Add(_) => b.input,
    }
}

// The record of a layer whose own fields are in their ranges: its shape, and what is stored. Found are the layer, and
// where the next record begins.
pub fn fit_record(
    m: Mark,
    kind: Kind,
    s: &[u8],
    at: usize,
    b: Before,
    other: Shape,
) -> Result<(Layer, usize), Refusal>
    requires m_in_bounds { at + fixed_len m ≤ length s.now }
    requires at_value { (own_fault m s.now at ≡ 0) × (kind ≡ kind_at m s.now at) }
    requires good_shape { GoodShape b.input × (b.area ≤ area_most) }
    ensures { read_of result ≡ read_as m kind s.now at b other }
{
    suit_fault(kind, b, other)?;
    let output = output_shape(kind, b, other);
    output.size_fault(b.area)?;
    let fixed = m.fixed_len();
    let n = kind.sums();
    let w = kind.terms(b.input);
    stored_fault(s, at + fixed, n, w)?;
    let y = Layer {
        mark: m,
        input: b.input,
        output,
        kind,
        start: at,
        place: b.area,
        sums: b.store,
    };
    Ok((y, at + (fixed + stored_len(n, w))))
}

// A field, bias or spare of a record with so many biases out of range.
#[tactic(auto, using(fields::proofs::Refusals::in_order))]
pub fn record_fault(m: Mark, r: &[u8], n: usize) -> Result<(), Refusal>
    requires { fixed_len m + 4 * n ≤ length r.now }
    ensures { fault_of result ≡ record_fault m r.now n }
{
    own_fault(m, r, 0)?;
    bias_faults(r, m.fixed_len(), n)
}
