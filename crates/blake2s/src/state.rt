// A digest in the making.

// The state after the whole blocks that are known not to be the last, the bytes past them in front of `pending`, and the
// number of all bytes taken.
// Nothing is allocated, so the bytes pending have a block's room and their number follows from that of all.
#[derive(Clone, Copy)]
pub struct Blake2s {
    pub(crate) words: [u32; 8],
    pub(crate) pending: [u8; 64],
    pub(crate) size: u16,
}
