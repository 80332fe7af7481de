// A day of lots over any post.
ghost use Rattle.std.specs.Prelude.{◌≡◌, ℕ, ◌+◌, ◌^◌, ◌<◌, ◌≤◌, true, List, [], ◌∷◌, ◌++◌};
ghost use Rattle.post.specs.Lanes.{Unused};
ghost use Rattle.rules.specs.Runs.{Answer};
ghost use Rattle.window.specs.Windows.{setting_for, setting_of};
ghost use Rattle.playing.specs.Tallies.{no_tally, counted};
ghost use Rattle.playing.specs.Days.{DayAt, DayPlayed, NoDay};

use crate::tally::Tally;
use ladder::Ladder;
use post::Post;
use window::Window;

// The window at the end of the day, and what was counted beside its books.
#[derive(Drop)]
pub struct Played<P: Post> {
    pub window: Window<P>,
    pub tally: Tally,
}

impl<P: Post> Played<P> {
    // One lot more.
    fn next(&mut self, office: u32)
        requires { counted self.old.tally < 2 ^ 63 }
        ensures became { P.Post.became self.old.window.post self.new.window.post }
        ensures setting { setting_of self.new.window ≡ setting_of self.old.window }
        ensures accepted { self.new.tally.accepted ≤ self.old.tally.accepted + 1 }
        ensures late { self.new.tally.late ≤ self.old.tally.late + 1 }
        ensures counted { counted self.new.tally ≤ counted self.old.tally + 1 }
        ensures used { self.old.window.used ≡ true → self.new ≡ self.old }
        ensures day { (lots : List ℕ) (answers : List Answer) → DayAt P.Post.lanes lots answers self.old → (a : Answer) × DayAt P.Post.lanes (lots ++ office ∷ []) (answers ++ a ∷ []) self.new }
    {
        let answer = self.window.lot(office);
        let closed = self.window.is_closed();
        self.tally.note(answer, closed);
    }

    fn play_all(&mut self, lots: &[u32])
        requires { self.old.tally ≡ no_tally }
        ensures became { P.Post.became self.old.window.post self.new.window.post }
        ensures setting { setting_of self.new.window ≡ setting_of self.old.window }
        ensures used { self.old.window.used ≡ true → self.new ≡ self.old }
        ensures day { DayAt P.Post.lanes [] [] self.old → DayPlayed P.Post.lanes lots.now self.new }
    {
        for office in lots {
            self.next(*office);
        }
    }
}

// Opens a window and plays the lots of a day.
pub fn play<P: Post, L: Ladder + Drop>(post: P, ladder: L, lots: &[u32]) -> Played<P>
    ensures became { P.Post.became post result.window.post }
    ensures setting { setting_of result.window ≡ setting_for (P.Post.offices post) (L.Ladder.steps ladder) (L.Ladder.slack ladder) }
    ensures day { Unused (P.Post.lanes post) → DayPlayed P.Post.lanes lots.now result }
    ensures used { (Unused (P.Post.lanes post) → ⊥) → NoDay post result }
{
    let mut played = Played {
        window: Window::open(post, ladder),
        tally: Tally::default(),
    };
    played.play_all(lots);
    played
}
