//! What holds of a table between any two atomic steps.
ghost use Rattle.std.specs.Prelude.{ℕ, ◌+◌, ◌*◌, ◌<◌, ◌≤◌, ◌⊎◌};
ghost use Rattle.atomic_table.specs.Table.{State as TableState};
ghost use Rattle.tm_toggle.specs.Ruled.{opening_by, r_of, s_of, Delegates};
ghost use Rattle.tm_toggle.specs.Shared.{IsClientOf, IsTrusteeOf, IsSame};
ghost use Rattle.tm_toggle.specs.declared.shared.SharedTable.{SharedTable};
ghost use Rattle.tm_toggle.specs.declared.sides.SharedClient.{SharedClient};
ghost use Rattle.tm_toggle.specs.declared.sides.SharedTrustee.{SharedTrustee};
ghost use Rattle.tm_toggle.specs.OneCore.{ShowsOneCore};
ghost use Rattle.tm_toggle.specs.declared.content.Content.{Content};
ghost use Rattle.tm_toggle.specs.declared.view.View.{View};
ghost use Rattle.tm_toggle.specs.declared.sides.Key.{Key};

use crate::content::Content;
use crate::fitting::Shareable;
use crate::ruling::Order;
use crate::sides::Key;
use crate::view::View;
use atomic_table::TableRule;

/// **One good core between any two atomic steps.** In each state that the rule [`Order`](crate::Order)
/// of a table allows, one list of calls tells everything: each call could come where it stands, the
/// core that they leave is good, the words and the slots at home are those of that core, and each
/// seat's view is what that core shows to its place, or to the trustee. What a side stands for is
/// read off its seat's view, and each call of a side adds itself, and nothing else of that side's, to
/// the list (the clauses `next` of [`SharedTable`](crate::SharedTable)'s calls).
pub fn one_good_core<S: Shareable>()
    ensures { (key : Key S S.Op S.Reply S.Task) (s : TableState (Content S S.Op S.Reply S.Task) (View S S.Op S.Reply S.Task)) → ⟦<Order<S> as TableRule<Content<S>, View<S>, Key<S>>>⟧.holds key s → ShowsOneCore S.kind (opening_by key) s }
{}

/// Handles of one table have the same sides.
pub fn handles_share_sides<S: Shareable>()
    ensures clients { (a b : SharedTable S S.Op S.Reply S.Task) (side : SharedClient S S.Op S.Reply S.Task) → IsSame a b → IsClientOf S.kind a side → IsClientOf S.kind b side }
    ensures trustee { (a b : SharedTable S S.Op S.Reply S.Task) (side : SharedTrustee S S.Op S.Reply S.Task) → IsSame a b → IsTrusteeOf S.kind a side → IsTrusteeOf S.kind b side }
{}

/// **The words stand apart.** A client stores the request word of its place alone, and the trustee the response words.
/// Between the beginnings of any two of these are at least 16 words, and so many stand before the first and, in a table
/// of so many places, behind the beginning of the last. A word has 8 bytes, so no two of them, and no other memory, share
/// 128 bytes.
pub fn words_stand_apart()
    ensures requests { (c d : ℕ) → c < d → r_of c + 16 ≤ r_of d }
    ensures responses { (c d : ℕ) → c < d → s_of c + 16 ≤ s_of d }
    ensures both { (c d : ℕ) → (r_of c + 16 ≤ s_of d) ⊎ (s_of d + 16 ≤ r_of c) }
    ensures first { (c : ℕ) → 16 ≤ r_of c }
    ensures last { (c places : ℕ) → c < places → s_of c + 16 ≤ 32 * places + 48 }
{}
