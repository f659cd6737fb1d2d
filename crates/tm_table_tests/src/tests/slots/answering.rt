//! What the trustee of these tests answers.
ghost use Rattle.std.specs.Prelude.{◌≡◌, ℕ, ◌∷◌, [], ◌≤◌, IsTrue};
ghost use Rattle.std.specs.declared.option.Option.TheVariants.{None, Some};
ghost use Rattle.tm_batch.specs.declared.limits.TheConstants.{MOST_ROOM};
ghost use Rattle.tm_batch.specs.declared.message.Answer.TheVariants.{Replied, Granted};
ghost use Rattle.tm_pair.specs.Views.{hand_of, new_trustee};
ghost use Rattle.tm_pair.specs.Theory.{KeepsClients};
ghost use Rattle.tm_table_tests.specs.Sample.{sample, the_name, two_asked, one_granted, granted_log};

use super::asking::the_name;
use super::less::Less;
use super::looking::{are_two, is_for_gifts, is_grant};
use std::marker::Brand;
use tm_batch::{Answer, AnswerBatch};
use tm_pair::PairTable;

fn two_replies() -> AnswerBatch<Less>
    ensures front { result.front ≡ 3 }
    ensures answers { result.answers.items ≡ Replied 1 ∷ Replied 2 ∷ [] }
    ensures gifts { result.gifts.items ≡ [] }
    ensures completions { result.completions.items ≡ [] }
{
    let mut answers = AnswerBatch::new(3);
    answers.answers.push(Answer::Replied(1));
    answers.answers.push(Answer::Replied(2));
    answers
}

fn granted() -> AnswerBatch<Less>
    ensures front { result.front ≡ 2 }
    ensures answers { result.answers.items ≡ Granted ∷ [] }
    ensures gifts { result.gifts.items ≡ [] }
    ensures completions { result.completions.items ≡ [] }
{
    let mut answers = AnswerBatch::new(2);
    answers.answers.push(Answer::Granted);
    answers
}

fn one_gift() -> AnswerBatch<Less>
    ensures front { result.front ≡ 3 }
    ensures answers { result.answers.items ≡ [] }
    ensures gifts { result.gifts.items ≡ the_name ∷ [] }
    ensures completions { result.completions.items ≡ [] }
{
    let mut answers = AnswerBatch::new(3);
    answers.gifts.push(the_name());
    answers
}

/// Answers 5 and 6, of which 4 is taken away, by 1 and 2.
fn reply_twice<P: PairTable<Less>>(table: &mut P, side: &mut P::TrusteeSide)
    requires mine { P.theory.HasTrustee table.old side.old }
    requires opening { P.theory.opening table.old ≡ sample (record { by = 4 }) }
    requires log { (P.theory.trustee_view side.old).log ≡ [] }
    requires hand { (room : ℕ) × (hand_of (P.theory.trustee_view side.old) 0 ≡ Some (record { requests = two_asked; room = room })) }
    ensures hand { hand_of (P.theory.trustee_view side.new) 0 ≡ None }
    ensures other { hand_of (P.theory.trustee_view side.new) 1 ≡ hand_of (P.theory.trustee_view side.old) 1 }
    ensures keeps { KeepsClients P.theory table.old table.new side.new }
{
    table.answer::<Brand>(side, 0, two_replies());
}

/// The trustee at first looks at place 0, and answers 5 and 6. Whether it could.
pub(super) fn answer_two<P: PairTable<Less>>(table: &mut P, side: &mut P::TrusteeSide) -> bool
    requires mine { P.theory.HasTrustee table.old side.old }
    requires opening { P.theory.opening table.old ≡ sample (record { by = 4 }) }
    requires first { P.theory.trustee_view side.old ≡ new_trustee 2 }
    ensures hand { IsTrue result → hand_of (P.theory.trustee_view side.new) 0 ≡ None }
    ensures other { hand_of (P.theory.trustee_view side.new) 1 ≡ None }
    ensures mine { P.theory.HasTrustee table.new side.new }
    ensures opening { P.theory.opening table.new ≡ P.theory.opening table.old }
    ensures clients { (other : P.ClientSide) → P.theory.HasClient table.old other → P.theory.HasClient table.new other }
{
    let seen = table.see(side, 0);
    let asked = are_two(seen);
    if asked {
        reply_twice(table, side);
    }
    asked
}

/// Answers a grant at place 0, which is the first that the trustee answers.
fn reply_granted<P: PairTable<Less>>(table: &mut P, side: &mut P::TrusteeSide)
    requires mine { P.theory.HasTrustee table.old side.old }
    requires opening { P.theory.opening table.old ≡ sample (record { by = 4 }) }
    requires log { (P.theory.trustee_view side.old).log ≡ [] }
    requires hand { (room : ℕ) × (hand_of (P.theory.trustee_view side.old) 0 ≡ Some (record { requests = one_granted; room = room })) }
    ensures log { (room : ℕ) × (room ≤ MOST_ROOM) × ((P.theory.trustee_view side.new).log ≡ granted_log room) }
    ensures other { hand_of (P.theory.trustee_view side.new) 1 ≡ hand_of (P.theory.trustee_view side.old) 1 }
    ensures keeps { KeepsClients P.theory table.old table.new side.new }
{
    table.answer::<Brand>(side, 0, granted());
}

/// The trustee at first looks at place 0, and answers a grant. Whether it could.
pub(super) fn answer_grant<P: PairTable<Less>>(table: &mut P, side: &mut P::TrusteeSide) -> bool
    requires mine { P.theory.HasTrustee table.old side.old }
    requires opening { P.theory.opening table.old ≡ sample (record { by = 4 }) }
    requires first { P.theory.trustee_view side.old ≡ new_trustee 2 }
    ensures log { IsTrue result → (room : ℕ) × (room ≤ MOST_ROOM) × ((P.theory.trustee_view side.new).log ≡ granted_log room) }
    ensures other { hand_of (P.theory.trustee_view side.new) 1 ≡ None }
    ensures mine { P.theory.HasTrustee table.new side.new }
    ensures opening { P.theory.opening table.new ≡ P.theory.opening table.old }
    ensures clients { (other : P.ClientSide) → P.theory.HasClient table.old other → P.theory.HasClient table.new other }
{
    let seen = table.see(side, 0);
    let asked = is_grant(seen);
    if asked {
        reply_granted(table, side);
    }
    asked
}

/// Answers a batch of place 1 that asks nothing with the gift of the object.
fn give<P: PairTable<Less>>(table: &mut P, side: &mut P::TrusteeSide)
    requires mine { P.theory.HasTrustee table.old side.old }
    requires opening { P.theory.opening table.old ≡ sample (record { by = 4 }) }
    requires log { (room : ℕ) × (room ≤ MOST_ROOM) × ((P.theory.trustee_view side.old).log ≡ granted_log room) }
    requires hand { hand_of (P.theory.trustee_view side.old) 1 ≡ Some (record { requests = []; room = 16 }) }
    ensures keeps { KeepsClients P.theory table.old table.new side.new }
{
    table.answer::<Brand>(side, 1, one_gift());
}

/// The trustee that answered the grant looks at place 1, and gives the object where gifts may come.
/// Whether it could.
pub(super) fn answer_gift<P: PairTable<Less>>(table: &mut P, side: &mut P::TrusteeSide) -> bool
    requires mine { P.theory.HasTrustee table.old side.old }
    requires opening { P.theory.opening table.old ≡ sample (record { by = 4 }) }
    requires log { (room : ℕ) × (room ≤ MOST_ROOM) × ((P.theory.trustee_view side.old).log ≡ granted_log room) }
    requires free { hand_of (P.theory.trustee_view side.old) 1 ≡ None }
    ensures mine { P.theory.HasTrustee table.new side.new }
    ensures opening { P.theory.opening table.new ≡ P.theory.opening table.old }
    ensures clients { (other : P.ClientSide) → P.theory.HasClient table.old other → P.theory.HasClient table.new other }
{
    let seen = table.see(side, 1);
    let asked = is_for_gifts(seen);
    if asked {
        give(table, side);
    }
    asked
}
