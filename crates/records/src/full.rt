// The full record: mark 46 55, 14 bytes, biases, weights by output and then in the input tensor's storage order.
ghost use Rattle.std.specs.Prelude.{◌≡◌, ◌+◌, ◌≤◌, length};
ghost use Rattle.fields.specs.Asked.{SmallShape};
ghost use Rattle.refusals.specs.Refusal.{fault_of};
ghost use Rattle.records.specs.Mark.{fixed_len};
ghost use Rattle.records.specs.Full.{full_at, full_fields, full_output};
ghost use Rattle.records.specs.declared.mark.Mark.TheVariants.{FU};

use crate::weighing::{Weighing, weighing_at};
use fields::bytes::u16_at;
use fields::faults::within;
use fields::shape::Shape;
use refusals::refusal::Refusal;

// The parameters of a full layer.
#[derive(Clone, Copy, Debug, PartialEq, Eq)]
pub struct Full {
    pub outputs: u16,
    pub weighing: Weighing,
}

// The parameters of the record at a place.
pub fn full_at(s: &[u8], at: usize) -> Full
    requires { at + fixed_len FU ≤ length s.now }
    ensures { result ≡ full_at s.now at }
{
    Full {
        outputs: u16_at(s, at + 2),
        weighing: weighing_at(s, at + 4, at + 10),
    }
}

impl Full {
    // The fields in file order.
    #[tactic(auto, using(fields::proofs::Refusals::in_order))]
    pub fn check(self) -> Result<(), Refusal>
        ensures { fault_of result ≡ full_fields self }
    {
        within(1, 256, u32::from(self.outputs))?;
        self.weighing.check()
    }

    // 1 row, 1 column and a channel per output.
    pub fn output(self) -> Shape
        ensures { (result ≡ full_output self) × SmallShape result }
    {
        Shape {
            rows: 1,
            columns: 1,
            channels: usize::from(self.outputs),
        }
    }
}
