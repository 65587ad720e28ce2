ghost use Rattle.std.specs.Prelude.{◌≡◌, ℕ};

/// The raw bits of a float of 16 to 64 bits.
pub trait FloatBits: Copy + Drop {
    ghost bits: { Self → ℕ };

    ghost held: { ℕ → Self };

    /// The same bits.
    fn widened(self) -> u64
        ensures { result ≡ bits self };

    /// These bits, or the greatest of this type.
    fn held_of(wanted: u64) -> Self
        ensures { result ≡ held wanted };
}

impl FloatBits for u16 {
    ghost use Rattle.std.specs.Prelude.{◌-◌, ◌^◌, min};

    ghost bits = { λ n. n };

    ghost held = { λ n. min n (2 ^ 16 - 1) };

    fn widened(self) -> u64 {
        u64::from(self)
    }

    fn held_of(wanted: u64) -> u16 {
        wanted.min(u64::from(u16::MAX)) as u16
    }
}

impl FloatBits for u32 {
    ghost use Rattle.std.specs.Prelude.{◌-◌, ◌^◌, min};

    ghost bits = { λ n. n };

    ghost held = { λ n. min n (2 ^ 32 - 1) };

    fn widened(self) -> u64 {
        u64::from(self)
    }

    fn held_of(wanted: u64) -> u32 {
        wanted.min(u64::from(u32::MAX)) as u32
    }
}

impl FloatBits for u64 {
    ghost use Rattle.std.specs.Prelude.{◌-◌, ◌^◌, min};

    ghost bits = { λ n. n };

    ghost held = { λ n. min n (2 ^ 64 - 1) };

    fn widened(self) -> u64 {
        u64::from(self)
    }

    fn held_of(wanted: u64) -> u64 {
        wanted
    }
}
