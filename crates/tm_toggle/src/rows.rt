//! Arrays that are always full, of which the first so many elements count.
ghost use Rattle.std.specs.Prelude.{◌≡◌, ◌≤◌, [], ◌++◌, length, take, drop, replicate};
ghost use Rattle.tm_batch.specs.declared.limits.TheConstants.{MOST_REQUESTS};

use arrayvec::ArrayVec;
use std::mem;
use tm_batch::MOST_REQUESTS;

/// As many elements as a batch has at most, of which none need count.
pub(crate) type Row<T> = ArrayVec<T, MOST_REQUESTS>;

/// A row of blank elements.
pub(crate) fn blanks<T: Default + Drop>() -> Row<T>
    ensures { (x : T) → ((d : T) → T.is_default d → d ≡ x) → result.items ≡ replicate MOST_REQUESTS x }
{
    let mut row = Row::new();
    for _ in 0..MOST_REQUESTS {
        row.push(T::default());
    }
    row
}

/// Puts all of some elements at the front of a row.
pub(crate) fn put<T>(row: &mut Row<T>, items: &mut Row<T>)
    requires { length row.old.items ≡ MOST_REQUESTS }
    ensures front { take (length items.old.items) row.new.items ≡ items.old.items }
    ensures full { length row.new.items ≡ MOST_REQUESTS }
{
    swap_front(row.as_mut_slice(), items.as_mut_slice());
}

/// Swaps the front of some elements with others.
fn swap_front<T>(row: &mut [T], items: &mut [T])
    requires { length items.old ≤ length row.old }
    ensures row { row.new ≡ items.old ++ drop (length items.old) row.old }
{
    let count = items.len();
    row[..count].swap_with_slice(items);
}

/// Takes the first `count` elements out of a row.
pub(crate) fn take_out<T: Default + Drop>(row: &mut Row<T>, count: usize, items: &mut Row<T>)
    requires full { length row.old.items ≡ MOST_REQUESTS }
    requires count { count ≤ MOST_REQUESTS }
    requires none { items.old.items ≡ [] }
    ensures items { items.new.items ≡ take count row.old.items }
    ensures full { length row.new.items ≡ MOST_REQUESTS }
{
    take_front(row.as_mut_slice(), count, items);
}

/// Takes the first `count` of some elements.
fn take_front<T: Default + Drop>(row: &mut [T], count: usize, items: &mut Row<T>)
    requires count { count ≤ length row.old }
    requires most { count ≤ MOST_REQUESTS }
    requires none { items.old.items ≡ [] }
    ensures items { items.new.items ≡ take count row.old }
    ensures full { length row.new ≡ length row.old }
{
    for item in &mut row[..count] {
        items.push(mem::take(item));
    }
}
