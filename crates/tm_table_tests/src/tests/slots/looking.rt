//! What was found, in these tests.
ghost use Rattle.std.specs.Prelude.{◌≡◌, ◌∷◌, [], IsTrue, IsSomeAnd};
ghost use Rattle.tm_batch.specs.declared.message.Request.TheVariants.{Apply, Grant};
ghost use Rattle.tm_table_tests.specs.Sample.{the_name, two_asked, one_granted};

use super::less::Less;
use tm_batch::{Answer, Batch, Name, Request};
use tm_pair::Collected;

/// Whether a name is the object's.
fn is_the_name(name: Name) -> bool
    ensures { IsTrue result → name ≡ the_name }
{
    name.id == 1 && name.place == 0
}

/// Takes the first request out, and tells whether it asks that number of the object.
pub(super) fn asks(batch: &mut Batch<Less>, number: u64) -> bool
    ensures { IsTrue result → batch.old.requests.items ≡ Apply the_name number ∷ batch.new.requests.items }
{
    match batch.take_first() {
        Some(Request::Apply(name, found)) => is_the_name(name) && found == number,
        _ => false,
    }
}

/// Takes the first request out, and tells whether it grants the object to client 1.
fn grants(batch: &mut Batch<Less>) -> bool
    ensures { IsTrue result → batch.old.requests.items ≡ Grant the_name 1 ∷ batch.new.requests.items }
{
    match batch.take_first() {
        Some(Request::Grant(name, to)) => is_the_name(name) && to == 1,
        _ => false,
    }
}

/// Whether 5 and 6 are asked of the object, and nothing else.
pub(super) fn are_two(batch: Option<Batch<Less>>) -> bool
    ensures { IsTrue result → IsSomeAnd batch (λ b. b.requests.items ≡ two_asked) }
{
    match batch {
        None => false,
        Some(mut batch) => asks(&mut batch, 5) && asks(&mut batch, 6) && batch.is_empty(),
    }
}

/// Whether the object is granted to client 1, and nothing else is asked.
pub(super) fn is_grant(batch: Option<Batch<Less>>) -> bool
    ensures { IsTrue result → IsSomeAnd batch (λ b. b.requests.items ≡ one_granted) }
{
    match batch {
        None => false,
        Some(mut batch) => grants(&mut batch) && batch.is_empty(),
    }
}

/// Whether nothing is asked, with room for as many gifts as may come.
pub(super) fn is_for_gifts(batch: Option<Batch<Less>>) -> bool
    ensures { IsTrue result → IsSomeAnd batch (λ b. (b.requests.items ≡ []) × (b.room ≡ 16)) }
{
    match batch {
        None => false,
        Some(batch) => batch.is_empty() && batch.room() == 16,
    }
}

/// Whether two replies came and nothing else, as the third entry of the log.
pub(super) fn are_replies(found: Collected<Less>, first: u64, second: u64) -> bool {
    match found {
        Collected::Answers(came) => {
            let replies = match came.answers.as_slice() {
                [Answer::Replied(one), Answer::Replied(two)] => *one == first && *two == second,
                _ => false,
            };
            replies && came.gifts.is_empty() && came.completions.is_empty() && came.front == 3
        }
        _ => false,
    }
}

/// Whether an answer batch came with nothing in it, as the first entry of the log.
pub(super) fn comes_empty(found: Collected<Less>) -> bool {
    match found {
        Collected::Answers(came) => {
            let nothing = came.answers.is_empty() && came.gifts.is_empty();
            nothing && came.completions.is_empty() && came.front == 1
        }
        _ => false,
    }
}

/// Whether the object came as a gift and nothing else.
pub(super) fn is_one_gift(found: Collected<Less>) -> bool {
    match found {
        Collected::Answers(came) => {
            let gift = match came.gifts.as_slice() {
                [name] => is_the_name(*name),
                _ => false,
            };
            gift && came.answers.is_empty() && came.completions.is_empty() && came.front == 3
        }
        _ => false,
    }
}

/// Whether the answer came that the object was granted, and nothing else.
pub(super) fn is_granted(found: Collected<Less>) -> bool {
    match found {
        Collected::Answers(came) => {
            let granted = matches!(came.answers.as_slice(), [Answer::Granted]);
            granted && came.gifts.is_empty() && came.completions.is_empty() && came.front == 2
        }
        _ => false,
    }
}
