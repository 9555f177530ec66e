// Where a row begins.
ghost use Rattle.std.specs.Prelude.{◌≡◌, ◌+◌, ◌*◌, ◌^◌, ◌≤◌, ◌<◌};
ghost use Rattle.fields.specs.Shape.{bytes_of, row_bytes};
ghost use Rattle.fields.specs.Asked.{GoodShape};

use fields::shape::Shape;

// The place of row i of a tensor of shape s that stands from `from`.
#[tactic(auto, using(crate::proofs::Rows::row_in))]
pub fn row_start(from: usize, s: Shape, i: usize) -> usize
    requires shape { GoodShape s }
    requires row { i < s.rows }
    requires room { from + bytes_of s < 2 ^ 64 }
    ensures value { result ≡ from + i * row_bytes s }
    ensures within { result + row_bytes s ≤ from + bytes_of s }
{
    from + i * (s.columns * s.channels)
}
