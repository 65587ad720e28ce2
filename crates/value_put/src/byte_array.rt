//! Arrays of bytes.
ghost use Rattle.std.specs.Prelude.{◌≡◌, ◌≤◌, ◌+◌, ◌^◌, ◌++◌, OnOk, codes, length, take, true};
ghost use Rattle.hex.specs.Hex.{encode_upper};
ghost use Rattle.dsdl_types.specs.Views.{sch};
ghost use Rattle.line_text.specs.Buffer.{text_of};
ghost use Rattle.value_text.specs.Texts.{is_uint8};
ghost use Rattle.value_put.specs.Counted.{counted};
ghost use Rattle.value_put.specs.Parts.{array_told};
ghost use Rattle.value_put.specs.Told.{AreBytes, Begins, Puts};

use crate::bits::Bits;
use crate::stop::Stop;
use dsdl_types::Schema;
use line_text::TextBuffer;

/// Puts an array of so many bytes. It gives up one that doesn't begin at a multiple of 8 bits, and one that isn't there
/// as a whole.
#[tactic(auto, using(crate::proofs::Front::begins))]
pub fn put_bytes(
    item: &Schema,
    count: u32,
    at: &mut Bits<'_>,
    text: &mut TextBuffer,
) -> Result<(), Stop>
    requires { is_uint8 (sch item.now) ≡ true }
    ensures told { OnOk result (Puts (array_told (sch item.now) count)
        at.old text.old at.new text.new) }
    ensures same { counted at.new ≡ counted at.old }
    ensures front { Begins (text_of text.old) (text_of text.new) }
{
    let _ = item;
    let size = u64::from(count);
    let window = at.window(size)?;
    put_hex(window.bytes, count as usize, text)?;
    at.skip(8 * size)
}

/// Puts `#` and two hex digits for each of the first bytes, behind which at least 8 more stand.
#[tactic(auto, using(crate::proofs::Front::begins))]
fn put_hex(bytes: &[u8], count: usize, text: &mut TextBuffer) -> Result<(), Stop>
    requires few { count ≤ 2 ^ 32 }
    requires wide { count + 8 ≤ length bytes.now }
    ensures text { OnOk result (text_of text.new
        ≡ (text_of text.old ++ codes "#") ++ encode_upper (take count bytes.now)) }
    ensures small { AreBytes (take count bytes.now) }
    ensures front { Begins (text_of text.old) (text_of text.new) }
{
    text.reserve(2 * count + 17)?;
    text.put(b"#", 1);
    text.put_hex_of(bytes, count);
    Ok(())
}
