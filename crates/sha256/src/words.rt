// The eight words of a hash value, and of the working variables a to h. They are named, as in the standard, so that a round
// reads as its equations do.
#[derive(Clone, Copy)]
pub(crate) struct Words {
    pub(crate) a: u32,
    pub(crate) b: u32,
    pub(crate) c: u32,
    pub(crate) d: u32,
    pub(crate) e: u32,
    pub(crate) f: u32,
    pub(crate) g: u32,
    pub(crate) h: u32,
}
