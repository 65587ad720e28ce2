//! Laws of reasons, each the contract of a call that does nothing.

ghost use Rattle.log_explain.specs.ReasonLaws.{ReadsEach, Tells, TellsFrames};

/// The records of a key that are told as delivered are exactly those at which a delivery ends,
/// each with the lines of its first and its last frame; and those told as bad CRCs are exactly
/// those at which one ends.
pub fn tells()
    ensures { Tells }
{}

/// Each record is a frame, or breaks a rule and is none.
pub fn reads_each()
    ensures { ReadsEach }
{}

/// A record is told as discarded exactly where it is no frame, and for the first rule that it
/// breaks; as the node's own, or as for another node, where it is a frame that isn't for the node.
pub fn tells_frames()
    ensures { TellsFrames }
{}
