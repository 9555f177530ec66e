// Where an input stands.

// An input's place in the work area, and its zero-point.
#[derive(Clone, Copy)]
pub struct Source {
    pub from: usize,
    pub zero: u8,
}
