// The state as 34 numbers, and back. No impl of From: it would stand with State, below the definitions that say what these give.
ghost use Rattle.std.specs.Prelude.{◌≡◌};
ghost use Rattle.clew_c.specs.Flat.{flat, state_of};

use bands::band::Band;
use bands::state::State;
use std::array;

// The state that 34 numbers stand for.
pub fn state_of(numbers: &[u16; 34]) -> State
    ensures { result ≡ state_of numbers.now }
{
    State {
        bands: array::from_fn(|t| Band {
            first: numbers[2 * t],
            end: numbers[2 * t + 1],
        }),
    }
}

// The 34 numbers of a state.
pub fn numbers_of(s: State) -> [u16; 34]
    ensures { result ≡ flat s }
{
    let mut numbers = [0u16; 34];
    for (t, band) in s.bands.iter().enumerate() {
        numbers[2 * t] = band.first;
        numbers[2 * t + 1] = band.end;
    }
    numbers
}
