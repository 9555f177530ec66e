// The convolution record: mark 43 56, 16 bytes, biases, weights by filter, row, column, channel.
ghost use Rattle.std.specs.Prelude.{◌≡◌, ◌+◌, ◌≤◌, length};
ghost use Rattle.refusals.specs.Refusal.{fault_of};
ghost use Rattle.records.specs.Mark.{fixed_len};
ghost use Rattle.records.specs.Conv.{blank_conv, conv_at, conv_fields};
ghost use Rattle.records.specs.declared.mark.Mark.TheVariants.{CV};

use crate::frame::Frame;
use crate::weighing::{Weighing, weighing_at};
use fields::faults::within;
use numbers::rescale::Scale;
use refusals::refusal::Refusal;

// The parameters of a convolution.
#[derive(Clone, Copy, Debug, PartialEq, Eq)]
pub struct Conv {
    pub filters: u8,
    pub frame: Frame,
    pub weighing: Weighing,
}

// Zero throughout.
pub fn blank_conv() -> Conv
    ensures { result ≡ blank_conv }
{
    Conv {
        filters: 0,
        frame: Frame {
            height: 0,
            width: 0,
            stride: 0,
            padding: 0,
        },
        weighing: Weighing {
            v: 0,
            zero: 0,
            low: 0,
            high: 0,
            scale: Scale {
                multiplier: 0,
                shift: 0,
            },
        },
    }
}

// The parameters of the record at a place.
pub fn conv_at(s: &[u8], at: usize) -> Conv
    requires { at + fixed_len CV ≤ length s.now }
    ensures { result ≡ conv_at s.now at }
{
    Conv {
        filters: s[at + 2],
        frame: Frame {
            height: s[at + 3],
            width: s[at + 4],
            stride: s[at + 5],
            padding: s[at + 6],
        },
        weighing: weighing_at(s, at + 7, at + 12),
    }
}

impl Conv {
    // The fields in file order.
    #[tactic(auto, using(fields::proofs::Refusals::in_order))]
    pub fn check(self) -> Result<(), Refusal>
        ensures { fault_of result ≡ conv_fields self }
    {
        within(1, 64, u32::from(self.filters))?;
        self.frame.check()?;
        self.weighing.check()
    }
}
