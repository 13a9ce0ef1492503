//! The records of a sheet.
ghost use Rattle.std.specs.Prelude.{◌≡◌};
ghost use Rattle.search.specs.Sheet.{filled_to, record_of};

/// A node with its digest. Fields past its kind's shape are 0. Anybody may have written it, so its kind is any number.
#[derive(Clone, Copy)]
pub struct SheetRecord {
    pub kind: u32,
    pub numbers: [i32; 4],
    pub successors: [u32; 3],
    pub digest: [u8; 32],
}

impl SheetRecord {
    pub const ZERO: SheetRecord = SheetRecord {
        kind: 0,
        numbers: [0; 4],
        successors: [0; 3],
        digest: [0; 32],
    };

    /// The record of a node whose digest is not known yet.
    pub fn of_node(kind: u32, numbers: &[i32], successors: &[u32]) -> SheetRecord
        ensures { result ≡ record_of (record { kind = kind; numbers = numbers.now; successors = successors.now }) }
    {
        SheetRecord {
            kind,
            numbers: filled(0, numbers),
            successors: filled(0, successors),
            digest: [0; 32],
        }
    }
}

/// As many fields, those not used filled.
fn filled<T: Copy, const COUNT: usize>(filler: T, xs: &[T]) -> [T; COUNT]
    ensures { result ≡ filled_to COUNT filler xs.now }
{
    let mut fields = [filler; COUNT];
    let used = xs.len().min(COUNT);
    fields[..used].copy_from_slice(&xs[..used]);
    fields
}
