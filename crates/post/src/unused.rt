// Whether a post is unused.
ghost use Rattle.std.specs.Prelude.{Decides};
ghost use Rattle.post.specs.Lanes.{Unused};

use crate::Post;
use crate::messages::sent_on;

// Whether nothing was ever sent on any lane.
// Kept: a `for` over the lanes; tried as `all`, whose clause stayed open.
pub fn is_unused<P: Post>(post: &P) -> bool
    ensures { Decides result (Unused (P.lanes post.now)) }
{
    for lane in 0..2 * post.office_count() {
        if sent_on(post, lane) > 0 {
            return false;
        }
    }
    true
}
