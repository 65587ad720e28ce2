ghost use Rattle.std.specs.Prelude.{◌≡◌, ℕ, List, All};
ghost use Rattle.std.specs.Result.{result_ok};
ghost use Rattle.hex.specs.Hex.{decode_of};
ghost use Rattle.frame_log.specs.Line.{pairs_of};
ghost use Rattle.frame_log.specs.Log.{Place, log_of, log_from};
ghost use Rattle.frame_log.specs.Order.{IsAhead, IsFit};

/// The records of a log are in order: their moments never fall and their lines rise, from 1 on.
/// Each has one of the buses, an identifier of 29 bits, at most 64 bytes and a moment below 10^18.
pub fn ordered()
    ensures order { (buses : List (List ℕ)) (bytes : List ℕ)
        → IsAhead 0 0 (log_of buses bytes).records }
    ensures fit { (buses : List (List ℕ)) (bytes : List ℕ)
        → All (IsFit buses) (log_of buses bytes).records }

    // The same from any place between two lines.
    ensures order_from { (buses : List (List ℕ)) (room : ℕ) (bytes : List ℕ) (at : Place)
        → IsAhead at.last at.lines (log_from buses room bytes at).records }
    ensures fit_from { (buses : List (List ℕ)) (room : ℕ) (bytes : List ℕ) (at : Place)
        → All (IsFit buses) (log_from buses room bytes at).records }
{}

/// The bytes of pairs of hex digits, as the definitions of a line say them, are those that the crate
/// `hex` decodes.
pub fn hex_pairs()
    ensures { (s : List ℕ) → pairs_of s ≡ result_ok (decode_of s) }
{}
