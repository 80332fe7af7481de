// Whether two windows have the same books, over whatever posts they count.
ghost use Rattle.std.specs.Prelude.{◌≡◌, ℕ, ◌<◌, List, length, slice_index_or, Decides};
ghost use Rattle.rules.specs.Laws.{SameLots, OrderDoesNotMatter};
ghost use Rattle.rules.specs.Runs.{Answer, accepted_at};
ghost use Rattle.window.specs.Comparing.{SameFigures, SameHeads};
ghost use Rattle.window.specs.Parts.{no_office};
ghost use Rattle.window.specs.Windows.{setting_of, state_of, books_of, SameSetting, Reached};

use crate::Window;
use crate::books::OfficeRecord;
use post::Post;

// Whether equally many offices have equal credits and remainders.
// Kept: field by field and no derive, since an office's step is no figure of the books and is left out.
fn same_figures(first: &[OfficeRecord], second: &[OfficeRecord]) -> bool
    requires { length first.now ≡ length second.now }
    ensures { Decides result ((i : ℕ) → i < length first.now → SameFigures (slice_index_or first.now i no_office) (slice_index_or second.now i no_office)) }
{
    first.iter().zip(second).all(|(one, other)| one.credit == other.credit
        && one.remainder == other.remainder)
}

// Whether the figures that are not by office are equal, and the number of offices too.
fn same_heads<P: Post, Q: Post>(first: &Window<P>, second: &Window<Q>) -> bool
    ensures { Decides result (SameHeads (state_of P.Post.lanes first.now) (state_of Q.Post.lanes second.now)) }
{
    first.office_count() == second.office_count()
        && first.checked.books.coordinator == second.checked.books.coordinator
        && first.messages() == second.messages()
}

// Compares every figure of the books.
fn equal_books<P: Post, Q: Post>(first: &Window<P>, second: &Window<Q>) -> bool
    ensures { Decides result (books_of P.Post.lanes first.now ≡ books_of Q.Post.lanes second.now) }
{
    same_heads(first, second) && same_figures(first.checked.records(), second.checked.records())
}

// Whether two windows have the same books: with equally many offices on the same ladder, exactly if each office had equally many lots accepted.
pub fn same_books<P: Post, Q: Post>(first: &Window<P>, second: &Window<Q>) -> bool
    ensures books { Decides result (books_of P.Post.lanes first.now ≡ books_of Q.Post.lanes second.now) }
    ensures order { (lots lots' : List ℕ) (answers answers' : List Answer) → SameSetting (setting_of first.now) (setting_of second.now) → Reached P.Post.lanes lots answers first.now → Reached Q.Post.lanes lots' answers' second.now → OrderDoesNotMatter (setting_of first.now) (λ i. accepted_at i lots answers) (λ i. accepted_at i lots' answers') (books_of P.Post.lanes first.now) (books_of Q.Post.lanes second.now) }
    ensures lots { (lots lots' : List ℕ) (answers answers' : List Answer) → SameSetting (setting_of first.now) (setting_of second.now) → Reached P.Post.lanes lots answers first.now → Reached Q.Post.lanes lots' answers' second.now → Decides result (SameLots (setting_of first.now) (λ i. accepted_at i lots answers) (λ i. accepted_at i lots' answers')) }
{
    equal_books(first, second)
}
