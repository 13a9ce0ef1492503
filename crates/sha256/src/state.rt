// A digest in the making.
use crate::words::Words;

// The hash value after the whole blocks taken so far, the bytes past them in front of `pending`, and the number of all bytes
// taken.
// Nothing is allocated, so the bytes pending have a block's room and their number follows from that of all.
#[derive(Clone, Copy)]
pub struct Sha256 {
    pub(crate) words: Words,
    pub(crate) pending: [u8; 64],
    pub(crate) size: u16,
}
