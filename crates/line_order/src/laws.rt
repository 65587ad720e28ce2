//! The laws of lines that are brought into order.
ghost use Rattle.std.specs.Prelude.{◌≡◌, ◌+◌, ◌↔◌, ℕ, List, Some, length};
ghost use Rattle.line_loop.specs.Reply.{HasOneAnswer, IsReply, heard_lines};
ghost use Rattle.line_loop.specs.declared.ended.LinesEnded.TheVariants as end;
ghost use Rattle.line_order.specs.Answers.{bounds, order_voice, refusal_of, too_late};
ghost use Rattle.line_order.specs.Order.{Entry, texts};
ghost use Rattle.line_order.specs.Sorted.{AreInOrder, AreTimely, IsLate, IsOrderOf, IsOrdered, entries_in, oldest_first};

/// Where no line of an input is refused, what is said is the one list of its lines that is sorted by
/// moment and stable, so each line once. Lines that are in order stay so.
pub fn in_order()
    ensures sorted { (window : ℕ) (bytes text : List ℕ)
        → IsReply (order_voice window) bytes text end.Ok → IsOrdered bytes text }
    ensures one { (es a b : List Entry) → IsOrderOf es a → IsOrderOf es b → a ≡ b }
    ensures kept { (window : ℕ) (bytes text : List ℕ)
        → IsReply (order_voice window) bytes text end.Ok → AreInOrder (entries_in bytes)
        → text ≡ texts (oldest_first (entries_in bytes)) }
{}

/// A line is refused as late exactly where its moment and the window together are below the greatest
/// moment before it; where no line of an input is refused, none is late.
pub fn late_lines()
    ensures exactly { (window : ℕ) (past : List (List ℕ)) (line : List ℕ)
        → (refusal_of window past line ≡ Some (too_late (length past + 1)))
        ↔ IsLate window past line }
    ensures none { (window : ℕ) (bytes text : List ℕ)
        → IsReply (order_voice window) bytes text end.Ok
        → AreTimely window (heard_lines bounds bytes) }
{}

/// Each line has one answer, and there are no two last words.
pub fn one_answer()
    ensures { (window : ℕ) → HasOneAnswer (order_voice window) }
{}
