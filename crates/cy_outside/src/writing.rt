ghost use Rattle.std.specs.Prelude.{◌≡◌, OnOk, OnErr};
ghost use Rattle.cy_outside.specs.Outside.{Rose};
ghost use Rattle.cy_outside.specs.Written.{behind, Begins};

use crate::{Failed, Sink};

/// Writes all of the bytes, in as many writes as the sink takes.
///
/// `Failed` comes only where a write failed, and leaves the bytes before it written.
pub fn put_all<O: Sink>(out: &mut O, bytes: &[u8]) -> Result<(), Failed>
    ensures written { OnOk result (O.written out.new ≡ behind (O.written out.old) bytes.now) }
    ensures begins { OnErr result (Begins bytes.now (O.written out.old) (O.written out.new)) }
    ensures fault { OnErr result (Rose (O.faults out.old) (O.faults out.new)) }
    ensures kept { OnOk result (O.faults out.new ≡ O.faults out.old) }
{
    let mut done = 0;
    while done < bytes.len() {
        let Ok(n) = out.write(&bytes[done..]) else {
            return Err(Failed);
        };
        done += n;
    }
    Ok(())
}
