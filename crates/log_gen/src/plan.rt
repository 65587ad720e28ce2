/// The plan of every log: node 10 hears four sources of subject 100 on three buses, and never sends.
pub const PLAN: &[u8] =
    b"plan 1\nnode 10\nbus can0\nbus can1\nbus can2\nsilent\nsub 100 4 raw 64\n";
