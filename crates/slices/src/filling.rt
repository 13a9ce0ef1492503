//! The rest of a slice set to one value.

ghost use Rattle.std.specs.Prelude.{◌≡◌, ◌-◌, ◌++◌, length, take, replicate};

/// Writes `value` to every place of `s` from place `from` on.
pub fn fill_rest<T: Copy>(s: &mut [T], from: usize, value: T)
    ensures { s.new ≡ take from s.old ++ replicate (length s.old - from) value }
{
    let begins = from.min(s.len());
    s[begins..].fill_with(|| value);
}
