// The limits of document 01 on what a network holds.

// The bytes of a network file.
pub const FILE_MOST: usize = 65536;

// The bytes of all tensors.
pub const AREA_MOST: usize = 65536;

// The bytes of one tensor.
pub const TENSOR_MOST: usize = 16384;

// The bytes of a convolution's window: 7 × 7 cells of 256 channels.
pub const WINDOW_MOST: usize = 12544;
