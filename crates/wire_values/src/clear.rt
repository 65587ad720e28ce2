ghost use Rattle.std.specs.Prelude.{◌≡◌, ◌++◌, ◌-◌, ◌≤◌, length, replicate, take};

/// Makes the bytes from a place on zeros.
pub fn clear_from(out: &mut [u8], from: usize)
    requires { from ≤ length out.old }
    ensures { out.new ≡ take from out.old ++ replicate (length out.old - from) 0 }
{
    for i in from..out.len() {
        out[i] = 0;
    }
}
