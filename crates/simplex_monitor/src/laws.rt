//! Laws of windows.

ghost use Rattle.std.specs.Prelude.{ℕ, ◌≤◌, max};
ghost use Rattle.simplex_lead.specs.Windows.{IsAdmitted};

/// A view that is admitted from a view is admitted from each later one, if the node looks at least one view ahead. Without a
/// lookahead it is not so: if terms have three views, view 3 is admitted from view 0 and not from view 1. What is admitted
/// without a lookahead is admitted with one of one view. So the votes that a window took are of rounds that it still admits,
/// counted as if it looked at least one view ahead, or of rounds up to `current`.
pub fn admitted_views_stay()
    ensures stay { (l k c d q : ℕ) → 1 ≤ l → 1 ≤ k → c ≤ d → IsAdmitted l k c q →
        IsAdmitted l k d q }
    ensures ahead { (l k c q : ℕ) → IsAdmitted l k c q → IsAdmitted l (max k 1) c q }
{}
