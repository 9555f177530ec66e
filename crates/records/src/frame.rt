// The frame of a windowed layer: its kernel, its stride and its padding.
ghost use Rattle.std.specs.Prelude.{◌≡◌};
ghost use Rattle.fields.specs.Asked.{GoodShape, SmallShape};
ghost use Rattle.refusals.specs.Refusal.{fault_of};
ghost use Rattle.records.specs.Frame.{frame_fields, fits, frame_output};
ghost use Rattle.records.specs.Asked.{FrameOk, FrameFits};

use fields::faults::{padding_fault, within};
use fields::shape::Shape;
use numbers::stride::strides_in;
use refusals::refusal::Refusal;

// Kernel rows are `height` and kernel columns `width`.
#[derive(Clone, Copy, Debug, PartialEq, Eq)]
pub struct Frame {
    pub height: u8,
    pub width: u8,
    pub stride: u8,
    pub padding: u8,
}

impl Frame {
    // The fields in file order.
    #[tactic(auto, using(fields::proofs::Refusals::in_order))]
    pub fn check(self) -> Result<(), Refusal>
        ensures { fault_of result ≡ frame_fields self }
    {
        within(1, 7, u32::from(self.height))?;
        within(1, 7, u32::from(self.width))?;
        within(1, 4, u32::from(self.stride))?;
        padding_fault(self.padding, self.height, self.width)
    }

    // Whether each padded side of the input is at least the kernel's.
    #[tactic(auto, unfolding(crate::specs::Frame::fits))]
    pub fn fits(self, input: Shape) -> bool
        requires { GoodShape input }
        ensures { result ≡ fits self input }
    {
        let twice = 2 * usize::from(self.padding);
        usize::from(self.height) <= input.rows + twice
            && usize::from(self.width) <= input.columns + twice
    }

    // The output's shape, with so many channels.
    pub fn output(self, input: Shape, channels: u8) -> Shape
        requires frame_ok { FrameOk self }
        requires good_shape { GoodShape input }
        requires frame_fits { FrameFits self input }
        ensures { (result ≡ frame_output self input channels) × SmallShape result }
    {
        let twice = 2 * usize::from(self.padding);
        let stride = usize::from(self.stride);
        Shape {
            rows: strides_in(input.rows + twice - usize::from(self.height), stride) + 1,
            columns: strides_in(input.columns + twice - usize::from(self.width), stride) + 1,
            channels: usize::from(channels),
        }
    }
}
