//! Texts compared by blocks.
ghost use Rattle.std.specs.Prelude.{◌≡◌, ◌≤◌, ◌<◌, ◌++◌, true, drop, length, take};
ghost use Rattle.std.specs.Int.{to_le_bytes, w32, w64};

/// Whether bytes begin with a text.
#[inline(always)]
pub fn begins(bytes: &[u8], text: &[u8]) -> bool
    ensures { result ≡ true → bytes.now ≡ text.now ++ drop (length text.now) bytes.now }
{
    let len = text.len();
    len <= bytes.len() && is_same(&bytes[..len], text)
}

/// Whether bytes begin with a text of two.
#[inline(always)]
pub fn begins_pair(bytes: &[u8], pair: [u8; 2]) -> bool
    ensures { result ≡ true → bytes.now ≡ pair ++ drop 2 bytes.now }
{
    bytes.len() >= 2 && bytes[0] == pair[0] && bytes[1] == pair[1]
}

/// Whether two texts of one length are the same. Those of the length of most names are compared by two blocks that may
/// overlap.
#[inline(always)]
fn is_same(one: &[u8], other: &[u8]) -> bool
    requires { length one.now ≡ length other.now }
    ensures { result ≡ true → one.now ≡ other.now }
{
    let len = one.len();
    if len < 4 {
        is_short_same(one, other)
    } else if len < 8 {
        four(one) == four(other) && four(&one[len - 4..]) == four(&other[len - 4..])
    } else if len <= 16 {
        eight(one) == eight(other) && eight(&one[len - 8..]) == eight(&other[len - 8..])
    } else if len <= 32 {
        is_front_same(one, other) && is_front_same(&one[len - 16..], &other[len - 16..])
    } else {
        is_long_same(one, other)
    }
}

/// Whether two texts of any length are the same.
#[cold]
#[inline(never)]
fn is_long_same(one: &[u8], other: &[u8]) -> bool
    ensures { result ≡ true → one.now ≡ other.now }
{
    one == other
}

/// Whether the first sixteen bytes of two texts are the same.
#[inline(always)]
fn is_front_same(one: &[u8], other: &[u8]) -> bool
    requires one { 16 ≤ length one.now }
    requires other { 16 ≤ length other.now }
    ensures { result ≡ true → take 16 one.now ≡ take 16 other.now }
{
    eight(one) == eight(other) && eight(&one[8..]) == eight(&other[8..])
}

/// Whether two texts of one length below four are the same.
#[inline(always)]
fn is_short_same(one: &[u8], other: &[u8]) -> bool
    requires same { length one.now ≡ length other.now }
    requires short { length one.now < 4 }
    ensures { result ≡ true → one.now ≡ other.now }
{
    let len = one.len();
    len == 0
        || (one[0] == other[0] && one[len / 2] == other[len / 2] && one[len - 1] == other[len - 1])
}

/// The first four bytes as a number.
#[inline(always)]
fn four(bytes: &[u8]) -> u32
    requires { 4 ≤ length bytes.now }
    ensures { to_le_bytes w32 result ≡ take 4 bytes.now }
{
    u32::from_le_bytes([bytes[0], bytes[1], bytes[2], bytes[3]])
}

/// The first eight bytes as a number.
#[inline(always)]
fn eight(bytes: &[u8]) -> u64
    requires { 8 ≤ length bytes.now }
    ensures { to_le_bytes w64 result ≡ take 8 bytes.now }
{
    u64::from_le_bytes([
        bytes[0], bytes[1], bytes[2], bytes[3], bytes[4], bytes[5], bytes[6], bytes[7],
    ])
}
