// Posts and wires together: worked sends, recorded frame by frame, and both posts at their limits.
#![tactic(auto)]

ghost use Rattle.std.proofs.Common.{rules};

#[cfg(test)]
mod tests {
    use bit_post::BitPost;
    use fault::Fault;
    use post::{DirectPost, Post};
    use refusals::refusal_of;
    use std::test::Fail;
    use wire::{CleanWire, MarkedWire, Wire};

    // A wire that notes the first frames that are put on it.
    // Kept: a fixed table with its count, since the tests compare all eight places.
    #[derive(Drop)]
    struct Recorder<W> {
        inner: W,
        frames: [u16; 8],
        count: usize,
    }

    impl<W: Wire> Wire for Recorder<W> {
        ghost offices = { λ r. W.Wire.offices r.inner };

        ghost lanes = { λ r. W.Wire.lanes r.inner };

        ghost troubles = { λ r. W.Wire.troubles r.inner };

        ghost ran = { λ r s outcomes. W.Wire.ran r.inner s.inner outcomes };

        ghost rests = { Prim.search rules };

        ghost goes = { λ w v u xs ys a b. W.Wire.goes w.inner v.inner u.inner xs ys a b };

        ghost sound = { Prim.search rules };

        fn office_count(&self) -> u32 {
            self.inner.office_count()
        }

        fn troubles_left(&self) -> u32 {
            self.inner.troubles_left()
        }

        fn put(&mut self, lane: u32, frame: u16) -> Result<(), Fault> {
            self.inner.put(lane, frame)?;
            if self.count < 8 {
                self.frames[self.count] = frame;
                self.count += 1;
            }
            Ok(())
        }

        fn take(&mut self, lane: u32) -> Result<Option<u16>, Fault> {
            self.inner.take(lane)
        }
    }

    fn recorded(rt: &HostRuntime, marks: &[u8]) -> Result<BitPost<Recorder<MarkedWire>>, Fail> {
        Ok(BitPost::new(Recorder {
            inner: MarkedWire::new(rt.alloc(), 1, marks)?,
            frames: [0; 8],
            count: 0,
        }))
    }

    // A lost data frame and a doubled one: delivered once.
    #[test]
    fn lost_then_doubled(rt: HostRuntime) -> Result<(), Fail> {
        let mut post = recorded(&rt, b"-+")?;
        post.send(0, 33)?;
        assert_eq!(rt; post.wire().frames, [33, 33, 512, 512, 0, 0, 0, 0]);
        assert_eq!(rt; post.waiting_count(0)?, 1);
        assert_eq!(rt; post.frame_count().number(), 4);
        assert_eq!(rt; post.troubles_used(), 2);
        Ok(())
    }

    // A lost acknowledgement: the byte is not delivered again.
    #[test]
    fn acknowledgement_lost(rt: HostRuntime) -> Result<(), Fail> {
        let mut post = recorded(&rt, b".-")?;
        post.send(0, 33)?;
        assert_eq!(rt; post.wire().frames, [33, 512, 33, 512, 0, 0, 0, 0]);
        assert_eq!(rt; post.waiting_count(0)?, 1);
        assert_eq!(rt; post.take(0)?, Some(33));
        assert_eq!(rt; post.take(0)?, None);
        Ok(())
    }

    // The second send has the other bit.
    #[test]
    fn bits_alternate(rt: HostRuntime) -> Result<(), Fail> {
        let mut post = recorded(&rt, b"")?;
        post.send(0, 33)?;
        post.send(0, 33)?;
        assert_eq!(rt; post.wire().frames, [33, 512, 289, 768, 0, 0, 0, 0]);
        assert_eq!(rt; post.waiting_count(0)?, 2);
        Ok(())
    }

    // Frames that waited on the wire before are dropped, and delivered to nobody.
    #[test]
    fn old_frames_dropped(rt: HostRuntime) -> Result<(), Fail> {
        let mut wire = CleanWire::new(1)?;
        wire.put(0, 7)?;
        wire.put(1, 512)?;
        let mut post = BitPost::new(wire);
        post.send(0, 33)?;
        assert_eq!(rt; post.take(0)?, Some(33));
        assert_eq!(rt; post.take(0)?, None);
        assert_eq!(rt; post.frame_count().number(), 2);
        Ok(())
    }

    // As many troubles as there can be, one after another.
    #[test]
    fn all_lost(rt: HostRuntime) -> Result<(), Fail> {
        let marks = vec![in rt.alloc(); b'-'; 65535]?;
        let mut post = BitPost::new(MarkedWire::new(rt.alloc(), 1, marks.as_slice())?);
        post.send(1, 9)?;
        assert_eq!(rt; post.frame_count().number(), 65537);
        assert_eq!(rt; post.troubles_used(), 65535);
        assert_eq!(rt; post.take(1)?, Some(9));
        Ok(())
    }

    // Sends on lane 0 until 65,535 are sent and sixteen wait, and tells the refusals met on the way.
    fn limits<P: Post>(post: &mut P) -> Result<[u32; 4], Fault> {
        let no_lane = refusal_of(post.send(2, 1)).0;
        for _ in 0..16 {
            post.send(0, 5)?;
        }
        let full = refusal_of(post.send(0, 5)).0;
        for _ in 0..65519 {
            post.take(0)?;
            post.send(0, 5)?;
        }
        let all_sent = refusal_of(post.send(0, 5)).0;
        Ok([no_lane, full, all_sent, post.waiting_count(0)?])
    }

    #[test]
    fn limits_of_both_posts(rt: HostRuntime) -> Result<(), Fail> {
        let mut direct = DirectPost::new(1)?;
        assert_eq!(rt; limits(&mut direct)?, [1, 3, 4, 16]);
        assert_eq!(rt; direct.sent_count(0)?, 65535);
        let mut over_wire = BitPost::new(CleanWire::new(1)?);
        assert_eq!(rt; limits(&mut over_wire)?, [1, 3, 4, 16]);
        assert_eq!(rt; over_wire.frame_count().number(), 131070);
        Ok(())
    }
}
