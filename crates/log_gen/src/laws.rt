//! What holds of every log, the contracts of calls that do nothing.

ghost use Rattle.log_gen.specs.Laws.{EachIsExplained, EachReads, IsExplained, IsRead};

/// Whatever the payloads are and however each transfer stands on each bus: what each source sent
/// explains what node 10 hears of it, and there is no chance match.
pub fn each_is_explained()
    ensures { EachIsExplained }
{
    frag::laws::frames_are_seen();
    frag::laws::unbroken();
}

/// Whatever the payloads are and however each transfer stands on each bus: the text of the log reads
/// as its records, and none of its lines is refused.
pub fn each_reads()
    ensures { EachReads }
{
    log_text::log_is_read();
    log_text::text_is_short();
}

/// So it is with the log of a number.
pub fn explained_and_read(number: u32)
    ensures explained { IsExplained number }
    ensures reads { IsRead number }
{
    each_is_explained();
    each_reads();
}
