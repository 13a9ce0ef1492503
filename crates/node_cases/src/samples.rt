//! The numbers and digests of the sample strings.

use std::array;

const NUMBERS: [i32; 7] = [-2_147_483_648, 2_147_483_647, -1, 0, 1, -500_000, 65_535];

/// Four of the numbers from a turn on, the extreme ones first.
pub fn numbers_of(turn: usize) -> [i32; 4] {
    array::from_fn(|i| NUMBERS[(turn % 7 + i) % 7])
}

/// Three digests, no two bytes of one alike.
pub fn digests_of(turn: usize) -> [[u8; 32]; 3] {
    array::from_fn(|i| digest_from(turn % 8 + 64 * i))
}

fn digest_from(first: usize) -> [u8; 32] {
    array::from_fn(|i| ((first % 256 + 7 * i) % 256) as u8)
}
