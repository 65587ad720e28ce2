ghost use Rattle.std.specs.Prelude.{◌≡◌, ◌/◌, ◌%◌, ◌∷◌, [], take};

/// A block that begins with the four bytes of a number, the highest first.
#[inline(always)]
pub fn ident_block(ident: u32) -> [u8; 8]
    ensures { take 4 result ≡ ident / 0x1000000 ∷ ident / 0x10000 % 256 ∷ ident / 256 % 256
        ∷ ident % 256 ∷ [] }
{
    [
        (ident / 0x100_0000) as u8,
        (ident / 0x1_0000 % 256) as u8,
        (ident / 256 % 256) as u8,
        (ident % 256) as u8,
        0,
        0,
        0,
        0,
    ]
}
