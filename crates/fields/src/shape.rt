// Shapes and sizes of tensors.
ghost use Rattle.std.specs.Prelude.{◌≡◌, ◌≤◌};
ghost use Rattle.numbers.specs.Limits.{area_most};
ghost use Rattle.refusals.specs.Refusal.{fault_of};
ghost use Rattle.fields.specs.Shape.{bytes_of, size_fault};
ghost use Rattle.fields.specs.Asked.{SmallShape};

use crate::faults::unless;
use numbers::limits::{AREA_MOST, TENSOR_MOST};
use refusals::refusal::Refusal;

// The rows, columns and channels of a tensor. That it is good is no fact of the type: a file's are read before they are tested, and past
// the last layer there is a shape of no rows.
#[derive(Clone, Copy, Debug, PartialEq, Eq)]
pub struct Shape {
    pub rows: usize,
    pub columns: usize,
    pub channels: usize,
}

impl Shape {
    // The bytes of a tensor of that shape.
    pub fn bytes(self) -> usize
        requires { SmallShape self }
        ensures { result ≡ bytes_of self }
    {
        self.rows * self.columns * self.channels
    }

    // One tensor has at most 16,384 bytes, all tensors together at most 65,536: total is the bytes of those before.
    #[tactic(auto, unfolding(crate::specs::Shape::size_fault))]
    pub fn size_fault(self, total: usize) -> Result<(), Refusal>
        requires small_shape { SmallShape self }
        requires total_le_area_most { total ≤ area_most }
        ensures { fault_of result ≡ size_fault self total }
    {
        let n = self.bytes();
        unless(n <= TENSOR_MOST && total + n <= AREA_MOST, Refusal::Unfit)
    }
}
