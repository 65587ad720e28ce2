//! The path of a file of another node.
ghost use Rattle.std.specs.Prelude.{◌≡◌};
ghost use Rattle.std.specs.List.{list_all};
ghost use Rattle.cyphal.specs.Words.{is_visible, is_path};

/// Whether a path has at most 255 bytes, each of them a space or a visible character of ASCII.
pub fn is_path(path: &[u8]) -> bool
    ensures { result ≡ is_path path.now }
{
    path.len() <= 255 && are_visible(path)
}

fn are_visible(bytes: &[u8]) -> bool
    ensures { result ≡ list_all is_visible bytes.now }
{
    bytes.iter().all(|byte| is_visible(*byte))
}

fn is_visible(byte: u8) -> bool
    ensures { result ≡ is_visible byte }
{
    32 <= byte && byte <= 126
}
