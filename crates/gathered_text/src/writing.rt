ghost use Rattle.std.specs.Prelude.{◌≡◌, ◌≤◌, [], length, OnOk, OnErr};
ghost use Rattle.cy_outside.specs.Outside.{Rose};
ghost use Rattle.cy_outside.specs.Written.{behind, Begins};
ghost use Rattle.line_text.specs.Buffer.{text_of};
ghost use Rattle.gathered_text.specs.Gathered.{Gathered};

use cy_outside::{Failed, Sink, put_all};
use line_text::TextBuffer;

/// The most text, in bytes, that stays gathered while more comes.
const MUCH: usize = 1 << 16;

/// Writes what is gathered at once, and gathers anew.
pub fn flush<O: Sink>(out: &mut O, gathered: &mut TextBuffer) -> Result<(), Failed>
    ensures written { OnOk result
        (O.written out.new ≡ behind (O.written out.old) (text_of gathered.old)) }
    ensures none { OnOk result (text_of gathered.new ≡ []) }
    ensures begins { OnErr result
        (Begins (text_of gathered.old) (O.written out.old) (O.written out.new)) }
    ensures fault { OnErr result (Rose (O.faults out.old) (O.faults out.new)) }
    ensures err { OnErr result (text_of gathered.new ≡ text_of gathered.old) }
    ensures kept { OnOk result (O.faults out.new ≡ O.faults out.old) }
{
    put_all(out, gathered.as_slice())?;
    gathered.clear();
    Ok(())
}

/// Writes what is gathered, where it is much.
#[inline(always)]
pub fn flush_much<O: Sink>(out: &mut O, gathered: &mut TextBuffer) -> Result<(), Failed>
    ensures text { OnOk result
        (Gathered (text_of gathered.old) (text_of gathered.new) (O.written out.old)
        (O.written out.new)) }
    ensures few { OnOk result (length (text_of gathered.new) ≤ 65536) }
    ensures begins { OnErr result
        (Begins (text_of gathered.old) (O.written out.old) (O.written out.new)) }
    ensures fault { OnErr result (Rose (O.faults out.old) (O.faults out.new)) }
    ensures err { OnErr result (text_of gathered.new ≡ text_of gathered.old) }
    ensures kept { OnOk result (O.faults out.new ≡ O.faults out.old) }
{
    if gathered.len() <= MUCH {
        return Ok(());
    }
    flush(out, gathered)
}
