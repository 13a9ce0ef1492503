// Exact fractions with a positive denominator, small enough that cross multiplication never overflows.
ghost use Rattle.std.specs.Prelude.{pos, negsuc, ◌≤ℤ◌, ◌<ℤ◌};

mod order;
mod parts;

#[derive(Clone, Copy)]
pub struct Fraction {
    over: i64,
    under: i64,
    ghost over_least: { negsuc 1499999999999 ≤ℤ over },
    ghost over_greatest: { over ≤ℤ pos 1500000000000 },
    ghost positive: { pos 0 <ℤ under },
    ghost under_greatest: { under ≤ℤ pos 1000000 },
}
