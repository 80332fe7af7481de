// The window: counts the lots of all offices up to the ceiling, over any post and any ladder.
#![tactic(auto)]

mod books;
mod calls;
mod checked_books;
mod comparing;
mod message;
mod opening;
mod place;
mod setting_table;
mod settling;
mod turns;
mod ways;

use checked_books::CheckedBooks;
pub use comparing::same_books;
use post::Post;

// The post that carries the messages, the books, and whether the post was used before the window opened on it.
#[derive(Drop)]
pub struct Window<P: Post> {
    post: P,
    checked: CheckedBooks,
    // Kept: a plain `bool`, since whether the post was used before is all that it says, and the clauses `unused` and `used` name it.
    used: bool,
}
