// How a window begins: the slacks read off a ladder, and empty books.
ghost use Rattle.std.specs.Prelude.{◌≡◌, ℕ, ◌≤◌};
ghost use Rattle.window.specs.Parts.{slack as slack_of};
ghost use Rattle.window.specs.Opening.{opened};

use crate::books::{Books, Coordinator, MOST_OFFICES, OfficeRecord, Phase};
use crate::checked_books::CheckedBooks;
use crate::setting_table::SettingTable;
use ladder::Ladder;
use post::Post;
use std::array;

// The number of offices of a post, and the slacks of all steps of a ladder.
pub fn read_setting<P: Post, L: Ladder>(post: &P, ladder: &L) -> SettingTable
    ensures offices { result.offices ≡ P.Post.offices post.now }
    ensures steps { result.steps ≡ L.Ladder.steps ladder.now }
    ensures slacks { (j : ℕ) → j ≤ result.steps → slack_of result j ≡ L.Ladder.slack ladder.now j }
{
    SettingTable {
        offices: post.office_count(),
        steps: ladder.step_count(),
        slacks: array::from_fn(|step| ladder.slack_of(step as u32).unwrap_or(0)),
    }
}

pub fn open_books(setting: SettingTable) -> CheckedBooks
    ensures { result.books ≡ opened setting }
{
    let record = OfficeRecord {
        step: 1,
        credit: 0,
        remainder: 0,
    };
    CheckedBooks {
        books: Books {
            setting,
            coordinator: Coordinator {
                phase: Phase::Open(1),
                signals: 0,
            },
            table: [record; MOST_OFFICES],
        },
    }
}
