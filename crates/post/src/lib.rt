// A post: offices that send bytes to a coordinator and hear from it, and a post that delivers at once.
#![tactic(auto)]

ghost use Rattle.std.specs.Prelude.{◌≡◌, ℕ, List, None, Ok};
ghost use Rattle.fault.specs.Refused.{UnchangedIfErr};
ghost use Rattle.post.specs.Lanes.{Lane, PostLaw, send as send_lane, take as take_lane, sent_answer, waiting_answer};
ghost use Rattle.post.specs.Outs.{out};

mod direct_post;
mod lane_table;
mod messages;
mod office_lanes;
mod slot;
#[cfg(test)]
mod tests;
mod unused;

pub use direct_post::DirectPost;
use fault::Fault;
pub use lane_table::LaneTable;
pub use messages::{MessageCount, message_count};
pub use office_lanes::OfficeLanes;
pub use unused::is_unused;

// Office i sends to the coordinator on lane 2i - 2 and hears from it on lane 2i - 1.
pub trait Post {
    ghost offices: { Self → ℕ };

    ghost lanes: { Self → List Lane };

    // How a post may come to be another by calls, as each kind of post has it.
    ghost became: { Self → Self → Type 0 };

    fn office_count(&self) -> u32
        ensures { result ≡ offices self.now };

    // How many bytes were ever sent on the lane.
    fn sent_count(&self, lane: u32) -> Result<u32, Fault>
        ensures { result ≡ sent_answer (lanes self.now) lane };

    // How many bytes wait on the lane.
    fn waiting_count(&self, lane: u32) -> Result<u32, Fault>
        ensures { result ≡ waiting_answer (lanes self.now) lane };

    // The byte joins the end of the lane; after a refusal the post is as it was.
    fn send(&mut self, lane: u32, byte: u8) -> Result<(), Fault>
        ensures became { became self.old self.new }
        ensures did { out (lanes self.new) result ≡ send_lane lane byte (lanes self.old) }
        ensures offices { offices self.new ≡ offices self.old }
        ensures refused { UnchangedIfErr result self.old self.new };

    // The first byte that waits leaves the lane; after a refusal, or if none waits, the post is as it was.
    fn take(&mut self, lane: u32) -> Result<Option<u8>, Fault>
        ensures became { became self.old self.new }
        ensures did { out (lanes self.new) result ≡ take_lane lane (lanes self.old) }
        ensures offices { offices self.new ≡ offices self.old }
        ensures refused { UnchangedIfErr result self.old self.new }
        ensures none { result ≡ Ok None → self.new ≡ self.old };

    ghost sound: { (p : Self) → PostLaw (offices p) (lanes p) };

    ghost stays: { (p : Self) → became p p };

    ghost joins: { (p q r : Self) → became p q → became q r → became p r };
}
