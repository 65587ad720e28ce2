ghost use Rattle.std.specs.Prelude.{◌<◌, length};
ghost use Rattle.std.specs.List.{IsFirstBest};
ghost use Rattle.tx_queue.specs.Waiting.{is_less};

use crate::OutFrame;

/// The place of the first of the frames with the least identifier.
pub(crate) fn first_least(frames: &[OutFrame]) -> usize
    requires { 0 < length frames.now }
    ensures { IsFirstBest is_less frames.now (length frames.now) result }
{
    let mut least = 0;
    for place in 1..frames.len() {
        if frames[place].ident < frames[least].ident {
            least = place;
        }
    }
    least
}
