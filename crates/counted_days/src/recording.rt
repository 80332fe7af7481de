// A post that notes what is sent over it: the lane and the byte of each send.
ghost use Rattle.std.proofs.Common.{rules};

use fault::Fault;
use post::Post;
use std::alloc::Global;

// A send for which there is no memory is carried and not noted.
#[derive(Drop)]
pub struct RecordingPost<P> {
    inner: P,
    sends: Vec<(u32, u8)>,
}

impl<P: Post> RecordingPost<P> {
    pub fn new(heap: Global, inner: P) -> RecordingPost<P> {
        RecordingPost {
            inner,
            sends: Vec::new(heap),
        }
    }

    // The lanes and bytes that were sent, first to last.
    pub fn sends(&self) -> &[(u32, u8)] {
        &self.sends
    }
}

impl<P: Post> Post for RecordingPost<P> {
    ghost offices = { λ r. P.Post.offices r.inner };

    ghost lanes = { λ r. P.Post.lanes r.inner };

    ghost became = { λ r s. P.Post.became r.inner s.inner };

    ghost sound = { Prim.search rules };

    ghost stays = { Prim.search rules };

    ghost joins = { λ p q r a b. P.Post.joins p.inner q.inner r.inner a b };

    fn office_count(&self) -> u32 {
        self.inner.office_count()
    }

    fn sent_count(&self, lane: u32) -> Result<u32, Fault> {
        self.inner.sent_count(lane)
    }

    fn waiting_count(&self, lane: u32) -> Result<u32, Fault> {
        self.inner.waiting_count(lane)
    }

    // A refused send is not noted.
    fn send(&mut self, lane: u32, byte: u8) -> Result<(), Fault> {
        self.inner.send(lane, byte)?;
        // This post stands in tests alone and so may want memory, which the posts of the program may not.
        let _noted = self.sends.push((lane, byte));
        Ok(())
    }

    fn take(&mut self, lane: u32) -> Result<Option<u8>, Fault> {
        self.inner.take(lane)
    }
}
