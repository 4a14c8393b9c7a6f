//! What follows of a desk's state, in plain words.
ghost use Rattle.std.specs.Prelude.{◌≡◌, ◌≢◌, ℕ, ◌+◌, ◌^◌, ◌<◌, ◌≤◌, ◌==◌, true, nat_lt, cond, List, sum_by, count_by};
ghost use mathlib.Core.Option.{some};
ghost use lib.ListN.{get_elem?};
ghost use Rattle.shared_best.specs.Views.{spent_view, is_done};
ghost use Rattle.shared_best.specs.DeskStates.{IsDeskState};
ghost use Rattle.shared_best.specs.declared.view.View.{View};

/// Between any two steps: each number below the number of claims was claimed once, by one place, and no other was; the number
/// of claims can't wrap, and is above the number of tasks where some place is done; and a place with the whole share is alone.
pub fn desk_states_are_sound()
    ensures once { (tasks claimed best : ℕ) (views : List View) → IsDeskState tasks claimed best views
        → (x : ℕ) → sum_by (λ v. count_by (λ y. y == x) v.claims) views ≡ cond (nat_lt x claimed) 1 0 }
    ensures room { (tasks claimed best : ℕ) (views : List View) → IsDeskState tasks claimed best views
        → claimed ≤ 2 ^ 32 + 256 }

    // A place that is done, and one with the whole share.
    ensures done { (tasks claimed best : ℕ) (views : List View) → IsDeskState tasks claimed best views
        → (k : ℕ) (v : View) → get_elem? views k ≡ some v → is_done v ≡ true → tasks < claimed }
    ensures alone { (tasks claimed best : ℕ) (views : List View) → IsDeskState tasks claimed best views
        → (k : ℕ) (v : View) → get_elem? views k ≡ some v → v.share ≡ 2 ^ 32
        → (j : ℕ) (w : View) → get_elem? views j ≡ some w → j ≢ k → w ≡ spent_view }
{}
