ghost use Rattle.std.specs.Prelude.{◌≡◌, ℤ, pos, true};
ghost use Rattle.dsdl_types.specs.Cast.{cast_uint, cast_int};

/// An integer of 8 to 64 bits.
pub trait Whole: Copy + Drop {
    ghost number: { Self → ℤ };

    ghost nearest: { ℤ → Self };

    /// The same number.
    fn widened(self) -> i128
        ensures { result ≡ number self };

    /// The number of this type that is nearest to one.
    fn nearest_to(wanted: i128) -> Self
        ensures { result ≡ nearest wanted };
}

impl Whole for u8 {
    ghost number = { λ n. pos n };

    ghost nearest = { λ z. cast_uint 8 true z };

    fn widened(self) -> i128 {
        i128::from(self)
    }

    fn nearest_to(wanted: i128) -> u8 {
        if wanted < 0 {
            0
        } else if wanted > 0xFF {
            u8::MAX
        } else {
            wanted as u8
        }
    }
}

impl Whole for u16 {
    ghost number = { λ n. pos n };

    ghost nearest = { λ z. cast_uint 16 true z };

    fn widened(self) -> i128 {
        i128::from(self)
    }

    fn nearest_to(wanted: i128) -> u16 {
        if wanted < 0 {
            0
        } else if wanted > 0xFFFF {
            u16::MAX
        } else {
            wanted as u16
        }
    }
}

impl Whole for u32 {
    ghost number = { λ n. pos n };

    ghost nearest = { λ z. cast_uint 32 true z };

    fn widened(self) -> i128 {
        i128::from(self)
    }

    fn nearest_to(wanted: i128) -> u32 {
        if wanted < 0 {
            0
        } else if wanted > 0xFFFF_FFFF {
            u32::MAX
        } else {
            wanted as u32
        }
    }
}

impl Whole for u64 {
    ghost number = { λ n. pos n };

    ghost nearest = { λ z. cast_uint 64 true z };

    fn widened(self) -> i128 {
        i128::from(self)
    }

    fn nearest_to(wanted: i128) -> u64 {
        if wanted < 0 {
            0
        } else if wanted > 0xFFFF_FFFF_FFFF_FFFF {
            u64::MAX
        } else {
            wanted as u64
        }
    }
}

impl Whole for i8 {
    ghost number = { λ z. z };

    ghost nearest = { λ z. cast_int 8 z };

    fn widened(self) -> i128 {
        i128::from(self)
    }

    fn nearest_to(wanted: i128) -> i8 {
        if wanted < -0x80 {
            i8::MIN
        } else if wanted > 0x7F {
            i8::MAX
        } else {
            wanted as i8
        }
    }
}

impl Whole for i16 {
    ghost number = { λ z. z };

    ghost nearest = { λ z. cast_int 16 z };

    fn widened(self) -> i128 {
        i128::from(self)
    }

    fn nearest_to(wanted: i128) -> i16 {
        if wanted < -0x8000 {
            i16::MIN
        } else if wanted > 0x7FFF {
            i16::MAX
        } else {
            wanted as i16
        }
    }
}

impl Whole for i32 {
    ghost number = { λ z. z };

    ghost nearest = { λ z. cast_int 32 z };

    fn widened(self) -> i128 {
        i128::from(self)
    }

    fn nearest_to(wanted: i128) -> i32 {
        if wanted < -0x8000_0000 {
            i32::MIN
        } else if wanted > 0x7FFF_FFFF {
            i32::MAX
        } else {
            wanted as i32
        }
    }
}

impl Whole for i64 {
    ghost number = { λ z. z };

    ghost nearest = { λ z. cast_int 64 z };

    fn widened(self) -> i128 {
        i128::from(self)
    }

    fn nearest_to(wanted: i128) -> i64 {
        if wanted < -0x8000_0000_0000_0000 {
            i64::MIN
        } else if wanted > 0x7FFF_FFFF_FFFF_FFFF {
            i64::MAX
        } else {
            wanted as i64
        }
    }
}
