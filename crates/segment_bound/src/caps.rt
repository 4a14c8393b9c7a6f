//! How many products the caps allow.
ghost use Rattle.std.specs.Prelude.{◌≡◌, ◌-◌, List, ◌∷◌};
ghost use Rattle.std.specs.List.{AllPairs};
ghost use Rattle.offer_model.specs.declared.products.Limit.{Limit};
ghost use Rattle.offer_model.specs.Validity.{Repeats};
ghost use Rattle.segment_bound.specs.Tangents.{total_cap, category_size, left_by, left_out, most_offered};

use offer_model::{Limit, Limits, Problem};

/// The lesser of the number and what the limit allows in all, where it is a total cap.
fn capped(limit: Limit, n: usize) -> usize
    ensures { (limits : List Limit) → total_cap (limit ∷ limits) n ≡ total_cap limits result }
{
    match limit {
        Limit::Total(cap) => (cap as usize).min(n),
        Limit::Category(_, _) | Limit::Requires(_, _) | Limit::Shelf(_) | Limit::Ladder(_) => n,
    }
}

/// The total cap, and `n` where there is none.
fn total_cap(limits: &Limits, n: usize) -> usize
    ensures { result ≡ total_cap limits.now.items n }
{
    let mut cap = n;
    for k in 0..limits.len() {
        cap = capped(*limits.get(k), cap);
    }
    cap
}

/// How many products are of the category.
fn category_size(p: &Problem, category: u32) -> usize
    ensures { result ≡ category_size p.now category }
{
    let products = p.products();
    let mut size = 0;
    for i in 0..products.len() {
        if products.get(i).category == category {
            size += 1;
        }
    }
    size
}

/// How many products the limit by itself leaves out at least, where it caps a category.
fn left_by(p: &Problem, limit: Limit) -> usize
    ensures { result ≡ left_by p.now limit }
{
    match limit {
        Limit::Category(category, cap) => category_size(p, category).saturating_sub(cap as usize),
        Limit::Total(_) | Limit::Requires(_, _) | Limit::Shelf(_) | Limit::Ladder(_) => 0,
    }
}

/// The number less what category caps leave out.
fn without_left(p: &Problem, limits: &Limits, n: usize) -> usize
    requires once { AllPairs (λ a b. Repeats a b → ⊥) limits.now.items }
    ensures { result ≡ n - left_out p.now limits.now.items }
{
    let mut most = n;
    for k in 0..limits.len() {
        most = most.saturating_sub(left_by(p, *limits.get(k)));
    }
    most
}

/// How many products the caps allow at most.
pub fn most_offered(p: &Problem) -> usize
    ensures { result ≡ most_offered p.now }
{
    let limits = p.limits();
    total_cap(limits, without_left(p, limits, p.products().len()))
}
