//! Laws of settling, on functions that do nothing, so that a crate above can cite them by a call.
ghost use Rattle.std.specs.Prelude.{◌≡◌, List, Some};
ghost use Rattle.settling.specs.Runs.{Run};
ghost use Rattle.settling.specs.Cells.{clean};
ghost use Rattle.settling.specs.Settling.{Visits, Runs, Settles, Covers, IsReady, settled};
ghost use Rattle.settling.specs.Laws.{IsSettled};

use crate::field::Field;

/// A visit leads to one state and gives one value, and a settle leads to one state.
pub fn settles_once<F: Field>()
    ensures visits { (tree : F.Place → Run F.Place F.Value F.Fault) (s t u : F.State) (p : F.Place) (v w : F.Value) →
        Visits F.space tree s p v t → Visits F.space tree s p w u → (v ≡ w) × (t ≡ u) }
    ensures settles { (tree : F.Place → Run F.Place F.Value F.Fault) (places : List F.Place) (s t u : F.State) →
        Settles F.space tree places s t → Settles F.space tree places s u → t ≡ u }
{}

/// The function is the relation: settling comes to its end, where it says.
pub fn settled_settles<F: Field>()
    ensures settles { (tree : F.Place → Run F.Place F.Value F.Fault) (places : List F.Place) (s : F.State) →
        Covers F.space places s → Settles F.space tree places s (settled F.space tree places s) }
    ensures only { (tree : F.Place → Run F.Place F.Value F.Fault) (places : List F.Place) (s t : F.State) →
        Covers F.space places s → Settles F.space tree places s t → t ≡ settled F.space tree places s }
{}

/// The value that a visit gave never changes within a settle, neither by a later visit nor by an evaluation.
pub fn visits_keep_values<F: Field>()
    ensures visited { (tree : F.Place → Run F.Place F.Value F.Fault) (s t u : F.State) (p q : F.Place) (v w : F.Value) →
        Visits F.space tree s p v t → Visits F.space tree t q w u → clean (F.space.at u p) ≡ Some v }
    ensures evaluated { (tree : F.Place → Run F.Place F.Value F.Fault) (s t u : F.State) (p q : F.Place) (v : F.Value) (r : Run F.Place F.Value F.Fault) →
        Visits F.space tree s p v t → Runs F.space tree q r t u → clean (F.space.at u p) ≡ Some v }
    ensures settled { (tree : F.Place → Run F.Place F.Value F.Fault) (places : List F.Place) (s t u : F.State) (p : F.Place) (v : F.Value) →
        Visits F.space tree s p v t → Settles F.space tree places t u → clean (F.space.at u p) ≡ Some v }
{}

/// After a settle each place has its value: the equation of each that was visited holds, and the others are as
/// they were.
pub fn settled_holds<F: Field>()
    ensures { (tree : F.Place → Run F.Place F.Value F.Fault) (places : List F.Place) (s : F.State) (p : F.Place) →
        Covers F.space places s → IsReady F.space s → IsSettled F.space tree s (settled F.space tree places s) p }
{}
