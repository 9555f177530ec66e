// The add record: mark 41 44, 22 bytes.
ghost use Rattle.std.specs.Prelude.{◌≡◌, ◌+◌, ◌≤◌, length};
ghost use Rattle.refusals.specs.Refusal.{fault_of};
ghost use Rattle.records.specs.Mark.{fixed_len};
ghost use Rattle.records.specs.Add.{add_at, add_fields};
ghost use Rattle.records.specs.declared.mark.Mark.TheVariants.{AD};

use fields::bytes::u32_at;
use fields::faults::{clamp_fault, multiplier_fault, shift_fault};
use numbers::rescale::Scale;
use refusals::refusal::Refusal;

// `first` rescales tensor k − 1, `second` tensor `other`, and `third` their sum.
#[derive(Clone, Copy, Debug, PartialEq, Eq)]
pub struct Add {
    pub other: u8,
    pub zero: u8,
    pub low: u8,
    pub high: u8,
    pub first: Scale,
    pub second: Scale,
    pub third: Scale,
}

// The parameters of the record at a place.
pub fn add_at(s: &[u8], at: usize) -> Add
    requires { at + fixed_len AD ≤ length s.now }
    ensures { result ≡ add_at s.now at }
{
    Add {
        other: s[at + 2],
        zero: s[at + 3],
        low: s[at + 4],
        high: s[at + 5],
        first: Scale {
            multiplier: u32_at(s, at + 6),
            shift: s[at + 18],
        },
        second: Scale {
            multiplier: u32_at(s, at + 10),
            shift: s[at + 19],
        },
        third: Scale {
            multiplier: u32_at(s, at + 14),
            shift: s[at + 20],
        },
    }
}

impl Add {
    // The fields in file order.
    #[tactic(auto, using(fields::proofs::Refusals::in_order))]
    pub fn check(self) -> Result<(), Refusal>
        ensures { fault_of result ≡ add_fields self }
    {
        clamp_fault(self.low, self.high)?;
        multiplier_fault(self.first.multiplier)?;
        multiplier_fault(self.second.multiplier)?;
        multiplier_fault(self.third.multiplier)?;
        shift_fault(self.first.shift)?;
        shift_fault(self.second.shift)?;
        shift_fault(self.third.shift)
    }
}
