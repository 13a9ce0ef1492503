// Messages to take digests of.
use std::alloc::{AllocError, Global};

// `size` bytes that count up from 0 and begin again at 251.
pub fn counting(heap: Global, size: usize) -> Result<Vec<u8>, AllocError> {
    (0..size).map(|i| (i % 251) as u8).collect(heap)
}
