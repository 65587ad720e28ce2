ghost use Rattle.std.specs.Prelude.{◌≡◌};
ghost use Rattle.node_core.specs.Heard.{subject_in};

/// The subject that a message's identifier says; a service's says none.
#[inline(always)]
pub fn subject_in(ident: u32) -> Option<u16>
    ensures { result ≡ subject_in ident }
{
    if ident / 0x200_0000 % 2 == 1 {
        None
    } else {
        Some((ident / 0x100 % 0x2000) as u16)
    }
}
