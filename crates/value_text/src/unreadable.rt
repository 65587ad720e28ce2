//! Why bytes can't be read, as a text.
ghost use Rattle.std.specs.Prelude.{◌≡◌, ◌≤◌, length};
ghost use Rattle.value_text.specs.Unreadable.{read_why_number, read_why_word};

use dsdl_types::ReadWhy;

/// The word of why bytes can't be read, with a space behind it.
pub fn read_why_word(why: ReadWhy) -> &'static [u8]
    ensures text { result.now ≡ read_why_word why }
    ensures short { length result.now ≤ 13 }
{
    match why {
        ReadWhy::BadTag(_) => b"BadTag ",
        ReadWhy::BadLength(_) => b"BadLength ",
        ReadWhy::BadDelimiter(_) => b"BadDelimiter ",
    }
}

/// The number that was read where bytes can't be read.
pub fn read_why_number(why: ReadWhy) -> u64
    ensures { result ≡ read_why_number why }
{
    match why {
        ReadWhy::BadTag(n) | ReadWhy::BadLength(n) | ReadWhy::BadDelimiter(n) => n,
    }
}
