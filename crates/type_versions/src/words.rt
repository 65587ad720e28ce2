//! Words at the end of a text.
ghost use Rattle.std.specs.Prelude.{◌≡◌, ◌++◌, OnOk, decimal};
ghost use Rattle.layout_text.specs.Heads.{type_name};
ghost use Rattle.type_versions.specs.Lines.{compat_why_text};

use compat_check::CompatWhy;
use cy_bits::NoMemory;
use dsdl_names::TypeId;
use itoa::Buffer;

/// Appends bytes.
pub fn push_bytes(text: &mut Vec<u8>, bytes: &[u8]) -> Result<(), NoMemory>
    ensures { OnOk result (text.new.items ≡ text.old.items ++ bytes.now) }
{
    text.extend_from_slice(bytes)?;
    Ok(())
}

/// Appends a number.
pub fn push_number(text: &mut Vec<u8>, number: u64) -> Result<(), NoMemory>
    ensures { OnOk result (text.new.items ≡ text.old.items ++ decimal number) }
{
    let mut buffer = Buffer::new();
    text.extend_from_slice(buffer.format(number).as_bytes())?;
    Ok(())
}

/// Appends a dotted name with its version.
pub fn push_id(text: &mut Vec<u8>, id: &TypeId) -> Result<(), NoMemory>
    ensures { OnOk result (text.new.items ≡ text.old.items ++ type_name id.now) }
{
    push_bytes(text, id.name.as_bytes())?;
    push_bytes(text, b".")?;
    push_number(text, id.major as u64)?;
    push_bytes(text, b".")?;
    push_number(text, id.minor as u64)
}

/// The word of why a type isn't newer.
pub fn compat_why_text(why: CompatWhy) -> &'static [u8]
    ensures { result.now ≡ compat_why_text why }
{
    match why {
        CompatWhy::Kind => b"Kind",
        CompatWhy::Sealing => b"Sealing",
        CompatWhy::Extent => b"Extent",
        CompatWhy::Sealed => b"Sealed",
        CompatWhy::Count => b"Count",
        CompatWhy::Gone => b"gone",
        CompatWhy::Port => b"port",
    }
}
