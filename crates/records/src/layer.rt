// A decoded layer: its mark, its shapes, its kind with the parameters, and where its parts stand.
ghost use Rattle.std.specs.Prelude.{◌≡◌, ◌+◌, ◌≤◌};
ghost use Rattle.numbers.specs.Limits.{file_most};
ghost use Rattle.fields.specs.Asked.{GoodShape};
ghost use Rattle.records.specs.Layer.{sums_of, terms_of, other_of, biases_at, weights_at, record_len};

use crate::add::Add;
use crate::conv::Conv;
use crate::full::Full;
use crate::mark::Mark;
use fields::shape::Shape;
use fields::stored::stored_len;

// The kinds of layer, each with its parameters.
#[derive(Clone, Copy, Debug, PartialEq, Eq)]
pub enum Kind {
    Conv(Conv),
    Full(Full),
    Add(Add),
}

// Its record begins in the file at `start`, its output tensor in the area at `place`, its sums in the store at `sums`. The
// mark stands last, where it costs a network's copies least.
#[derive(Clone, Copy, Debug, PartialEq, Eq)]
pub struct Layer {
    pub input: Shape,
    pub output: Shape,
    pub kind: Kind,
    pub start: usize,
    pub place: usize,
    pub sums: usize,
    pub mark: Mark,
}

impl Kind {
    // How many stored sums a layer has: one for each filter or output.
    pub fn sums(self) -> usize
        ensures { (result ≡ sums_of self) × (result ≤ 65535) }
    {
        match self {
            Kind::Conv(c) => usize::from(c.filters),
            Kind::Full(f) => usize::from(f.outputs),
            Kind::Add(_) => 0,
        }
    }

    // The other tensor that a layer after tensor m reads, or m itself.
    pub fn other(self, m: usize) -> usize
        ensures { result ≡ other_of self m }
    {
        match self {
            Kind::Conv(_) | Kind::Full(_) => m,
            Kind::Add(a) => usize::from(a.other),
        }
    }

    // N: the terms of each output of a layer with that input.
    pub fn terms(self, input: Shape) -> usize
        requires { GoodShape input }
        ensures { (result ≡ terms_of self input) × (result ≤ 16777216) }
    {
        match self {
            Kind::Conv(c) => (usize::from(c.frame.height) * usize::from(c.frame.width))
                * input.channels,
            Kind::Full(_) => input.bytes(),
            Kind::Add(_) => 0,
        }
    }
}

impl Layer {
    // The same, of a layer.
    pub fn terms(self) -> usize
        requires { GoodShape self.input }
        ensures { (result ≡ terms_of self.kind self.input) × (result ≤ 16777216) }
    {
        self.kind.terms(self.input)
    }

    // Where a layer's biases begin in the file.
    pub fn biases_at(self) -> usize
        requires { self.start ≤ file_most }
        ensures { (result ≡ biases_at self) × (result ≤ 65558) }
    {
        self.start + self.mark.fixed_len()
    }

    // Where its weights begin.
    pub fn weights_at(self) -> usize
        requires { self.start ≤ file_most }
        ensures { result ≡ weights_at self }
    {
        self.biases_at() + 4 * self.kind.sums()
    }

    // The bytes of its whole record.
    pub fn record_len(self) -> usize
        requires { GoodShape self.input }
        ensures { (result ≡ record_len self) × (result ≤ 3000000000000) }
    {
        self.mark.fixed_len() + stored_len(self.kind.sums(), self.terms())
    }
}
