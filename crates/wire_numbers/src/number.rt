// Numbers of a fixed width, the least byte first. Callers have tested the message's length.
ghost use Rattle.std.specs.Prelude.{◌+◌, ◌≤◌, List, ℕ, drop, length, take, ◌≡◌};
ghost use Rattle.wire_numbers.specs.Widths.{le_own, signed_own};
ghost use Rattle.wire_types.specs.Numbers.{le, signed};

/// A number that stands in a fixed number of bytes.
pub trait Number: Sized {
    // How many bytes it takes.
    ghost width: { ℕ };

    // The number of the bytes of a message from a place on.
    ghost value: { List ℕ → ℕ → Self };

    /// The number of the bytes of `m` from `at` on.
    fn read(m: &[u8], at: usize) -> Self
        requires { at + width ≤ length m.now }
        ensures { result ≡ value m.now at };

    // It is told by its own bytes alone.
    ghost own_bytes: { (m : List ℕ) (at : ℕ) → value (take width (drop at m)) 0 ≡ value m at };
}

impl Number for u16 {
    ghost width = { 2 };

    ghost value = { le 2 };

    ghost own_bytes = { le_own 2 };

    fn read(m: &[u8], at: usize) -> u16 {
        u16::from_le_bytes(*bytes_at(m, at))
    }
}

impl Number for u32 {
    ghost width = { 4 };

    ghost value = { le 4 };

    ghost own_bytes = { le_own 4 };

    fn read(m: &[u8], at: usize) -> u32 {
        u32::from_le_bytes(*bytes_at(m, at))
    }
}

impl Number for u64 {
    ghost width = { 8 };

    ghost value = { le 8 };

    ghost own_bytes = { le_own 8 };

    fn read(m: &[u8], at: usize) -> u64 {
        u64::from_le_bytes(*bytes_at(m, at))
    }
}

impl Number for i16 {
    ghost width = { 2 };

    ghost value = { λ m at. signed 2 (le 2 m at) };

    ghost own_bytes = { signed_own 2 };

    fn read(m: &[u8], at: usize) -> i16 {
        u16::read(m, at).cast_signed()
    }
}

impl Number for i32 {
    ghost width = { 4 };

    ghost value = { λ m at. signed 4 (le 4 m at) };

    ghost own_bytes = { signed_own 4 };

    fn read(m: &[u8], at: usize) -> i32 {
        u32::read(m, at).cast_signed()
    }
}

impl Number for i64 {
    ghost width = { 8 };

    ghost value = { λ m at. signed 8 (le 8 m at) };

    ghost own_bytes = { signed_own 8 };

    fn read(m: &[u8], at: usize) -> i64 {
        u64::read(m, at).cast_signed()
    }
}

/// The `N` bytes of `m` from `at` on as an array, whatever they hold.
pub fn bytes_at<const N: usize>(m: &[u8], at: usize) -> &[u8; N]
    requires { at + N ≤ length m.now }
    ensures { result.now ≡ take N (drop at m.now) }
{
    m[at..at + N].first_chunk().unwrap()
}
