// A decoded network: its tensors, layers and what it needs.
ghost use Rattle.std.specs.Prelude.{◌≡◌, ◌≤◌, ◌<◌};
ghost use Rattle.numbers.specs.Limits.{file_most, area_most};
ghost use Rattle.numbers.specs.Asked.{channels_most};
ghost use Rattle.fields.specs.Asked.{GoodShape};
ghost use Rattle.records.specs.Layer.{sums_of};
ghost use Rattle.network.specs.Network.{blank_layer};

use fields::shape::Shape;
use records::conv::blank_conv;
use records::layer::{Kind, Layer};
use records::mark::Mark;

// The picture's shape and zero-point, the number of layers, the layers, and the bytes of all tensors and the number of
// all stored sums: what the work area and the sum store must hold. Nothing is allocated, so the layers stand in an array
// of the most that a file may have.
#[derive(Clone, Copy, Debug, PartialEq, Eq)]
pub struct Network {
    pub picture: Shape,
    pub zero: u8,
    pub count: usize,
    pub layers: [Layer; 16],
    pub area: usize,
    pub store: usize,
}

impl Network {
    ghost use Rattle.network.specs.Network.{empty_network, with_layer, tensor_of, place_of, zero_of, layer_of};

    // A network of no layer yet.
    pub fn empty(picture: Shape, zero: u8, count: usize, area: usize) -> Network
        ensures { result ≡ empty_network picture zero count area }
    {
        Network {
            picture,
            zero,
            count,
            layers: [blank_layer(); 16],
            area,
            store: 0,
        }
    }

    // One more layer, after so many.
    pub fn push(&mut self, made: usize, layer: Layer)
        requires made { (made < 16) × (self.old.area ≤ area_most) × (self.old.store ≤ file_most) }
        requires layer { GoodShape layer.output × (sums_of layer.kind ≤ channels_most) }
        ensures { self.new ≡ with_layer self.old made layer }
    {
        self.layers[made] = layer;
        self.area += layer.output.bytes();
        self.store += layer.kind.sums();
    }

    // Layer m, counted from 0: it makes tensor m + 1.
    pub fn layer(&self, m: usize) -> Layer
        requires { m < 16 }
        ensures { result ≡ layer_of self.now m }
    {
        self.layers[m]
    }

    // The shape of tensor t. A look-up shared with `place` and `zero_point` would be longer than the three.
    pub fn tensor(&self, t: usize) -> Shape
        requires { t ≤ 16 }
        ensures { result ≡ tensor_of self.now t }
    {
        if t == 0 {
            return self.picture;
        }
        self.layers[t - 1].output
    }

    // Where tensor t begins in the work area.
    pub fn place(&self, t: usize) -> usize
        requires { t ≤ 16 }
        ensures { result ≡ place_of self.now t }
    {
        if t == 0 {
            return 0;
        }
        self.layers[t - 1].place
    }

    // A tensor's own zero-point: the head's, or that of the layer which makes it.
    pub fn zero_point(&self, t: usize) -> u8
        requires { t ≤ 16 }
        ensures { result ≡ zero_of self.now t }
    {
        if t == 0 {
            return self.zero;
        }
        match self.layers[t - 1].kind {
            Kind::Conv(c) => c.weighing.zero,
            Kind::Full(f) => f.weighing.zero,
            Kind::Add(a) => a.zero,
        }
    }
}

// A layer that is zero throughout: what a list of layers has past its end.
pub fn blank_layer() -> Layer
    ensures { result ≡ blank_layer }
{
    let shape = Shape {
        rows: 0,
        columns: 0,
        channels: 0,
    };
    Layer {
        mark: Mark::CV,
        input: shape,
        output: shape,
        kind: Kind::Conv(blank_conv()),
        start: 0,
        place: 0,
        sums: 0,
    }
}
