// Sizes: how large the buffers of a network are.
ghost use Rattle.std.specs.Prelude.{◌≡◌};
ghost use Rattle.clew.specs.Sizes.{sizes_of};

use crate::outcome::Sizes;
use network::file::decode;

// Tests 1 to 3, and the sizes; all 0 where the file is refused.
pub fn sizes(file: &[u8]) -> Sizes
    ensures { result ≡ sizes_of file.now }
{
    match decode(file) {
        Ok(network) => Sizes {
            number: 0,
            picture: network.picture.bytes(),
            sums: network.store,
            area: network.area,
            reading: network.tensor(network.count).bytes(),
        },
        Err(refusal) => Sizes {
            number: u8::from(refusal),
            picture: 0,
            sums: 0,
            area: 0,
            reading: 0,
        },
    }
}
