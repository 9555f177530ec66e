// What stands outside the work area.

// A network's file, and the sums of its weights.
#[derive(Clone, Copy)]
pub struct Stored<'a> {
    pub file: &'a [u8],
    pub sums: &'a [u32],
}
