// The nine refusals, in the order of their numbers.
ghost use Rattle.refusals.specs.Refusal.{HasNumber, Numbers};

use std::error::Error;
use std::fmt;

/// Why a call refuses.
#[derive(Clone, Copy, Debug, PartialEq, Eq)]
pub enum Refusal {
    Malformed,
    OutOfRange,
    Unfit,
    NoRoom,
    BadBands,
    BadSums,
    BadArguments,
    Stale,
    BadRecord,
}

impl From<Refusal> for u8 {
    ghost from_gives = { HasNumber };

    fn from(refusal: Refusal) -> u8 {
        match refusal {
            Refusal::Malformed => 1,
            Refusal::OutOfRange => 2,
            Refusal::Unfit => 3,
            Refusal::NoRoom => 4,
            Refusal::BadBands => 5,
            Refusal::BadSums => 6,
            Refusal::BadArguments => 7,
            Refusal::Stale => 8,
            Refusal::BadRecord => 9,
        }
    }
}

/// A number by which no refusal is known, as 0, which says that a call was taken.
#[derive(Clone, Copy, Debug, PartialEq, Eq)]
pub struct NoRefusal(pub u8);

impl TryFrom<u8> for Refusal {
    type Error = NoRefusal;

    ghost try_from_gives = { Numbers };

    fn try_from(number: u8) -> Result<Self, NoRefusal> {
        match number {
            1 => Ok(Refusal::Malformed),
            2 => Ok(Refusal::OutOfRange),
            3 => Ok(Refusal::Unfit),
            4 => Ok(Refusal::NoRoom),
            5 => Ok(Refusal::BadBands),
            6 => Ok(Refusal::BadSums),
            7 => Ok(Refusal::BadArguments),
            8 => Ok(Refusal::Stale),
            9 => Ok(Refusal::BadRecord),
            _ => Err(NoRefusal(number)),
        }
    }
}

impl fmt::Display for Refusal {
    fn fmt<W: fmt::Write>(&self, f: &mut fmt::Formatter<W>) -> fmt::Result {
        f.write_str(match self {
            Refusal::Malformed =>
                "a record is cut, its mark unknown, a spare not 0, or bytes follow the last layer",
            Refusal::OutOfRange => "a field or bias outside its range",
            Refusal::Unfit =>
                "file too long, kernel too big, shapes of an add differ, tensor j not there yet, a tensor or all tensors too big",
            Refusal::NoRoom =>
                "sum store or area shorter than needed (longer is allowed; the rest stays)",
            Refusal::BadBands =>
                "a band not 0,0 for a tensor that the network lacks; first > end; end > rows; empty but not 0,0",
            Refusal::BadSums => "a stored sum above 255N",
            Refusal::BadArguments =>
                "layer number not 1..n; no rows, or rows beyond the picture; rows or reading slice of the wrong length",
            Refusal::Stale => "a reading while any band is not empty",
            Refusal::BadRecord =>
                "replacement differs in length, or in bytes 0-6 (convolution), 0-3 (full), 0-2 (add); or has a field, bias or spare out of range",
        })
    }
}

impl Error for Refusal {}

impl fmt::Display for NoRefusal {
    fn fmt<W: fmt::Write>(&self, f: &mut fmt::Formatter<W>) -> fmt::Result {
        write!(f, "no refusal has the number {}", self.0)
    }
}

impl Error for NoRefusal {}
