//! Where each cap stands among the limits.
ghost use Rattle.std.specs.Prelude.{◌≡◌, ℕ, ◌+◌, ◌<◌, ◌==◌, cond, length, Some, None, slice_index_or, IfOk};
ghost use Rattle.offer_model.specs.Problems.{product_count, product_at};
ghost use Rattle.limit_rules.specs.Kinds.{kind_of};
ghost use Rattle.limit_rules.specs.declared.kind.Kind.TheVariants.{Caps};
ghost use Rattle.rank_step.specs.Caps.{category_place, is_place, AreCapPlaces, ArePlacesBelow};

use offer_model::{Limit, NoMemory, Problem};
use std::alloc::Global;
use std::marker::Model;

/// The places of the caps among the limits: of the total cap, and for each product of its category's cap.
#[derive(Drop)]
pub struct CapPlaces {
    total: Option<usize>,
    category: Vec<Option<usize>>,
}

impl Model for CapPlaces {
    ghost use Rattle.rank_step.specs.Caps.{PlacesData};

    ghost Value = { PlacesData };

    ghost view = { λ at. record { total = at.total; category = at.category.items } };
}

/// Puts the place `k` at the products of the category.
fn note_category(p: &Problem, category: u32, k: usize, places: &mut [Option<usize>])
    requires { length places.old ≡ product_count p.now }
    ensures each { length places.new ≡ product_count p.now }
    ensures places { (i : ℕ) → i < product_count p.now
        → slice_index_or places.new i None
        ≡ cond ((product_at p.now i).category == category) (Some k) (slice_index_or places.old i None) }
{
    for i in 0..p.products().len() {
        if p.products().get(i).category == category {
            places[i] = Some(k);
        }
    }
}

/// Notes the place of one more cap.
fn note(p: &Problem, k: usize, at: &mut CapPlaces)
    requires kind { kind_of p.now.limits ≡ Caps }
    requires place { k < length p.now.limits }
    requires below { ArePlacesBelow p.now k at.old }
    ensures { ArePlacesBelow p.now (k + 1) at.new }
{
    match *p.limits().get(k) {
        Limit::Total(_) => at.total = Some(k),
        Limit::Category(category, _) => note_category(p, category, k, &mut at.category),
        _ => {}
    }
}

impl CapPlaces {
    /// The places of all caps.
    pub fn of(alloc: Global, p: &Problem) -> Result<CapPlaces, NoMemory>
        requires { kind_of p.now.limits ≡ Caps }
        ensures { IfOk result (AreCapPlaces p.now) }
    {
        let mut at = CapPlaces {
            total: None,
            category: vec![in alloc; None; p.products().len()]?,
        };
        for k in 0..p.limits().len() {
            note(p, k, &mut at);
        }
        Ok(at)
    }

    /// The place of the total cap.
    pub fn total(&self) -> Option<usize>
        ensures { result ≡ self.now.total }
    {
        self.total
    }

    /// Whether the total cap stands at this place.
    pub fn is_total(&self, k: usize) -> bool
        ensures { result ≡ is_place self.now.total k }
    {
        match self.total {
            Some(place) => k == place,
            None => false,
        }
    }

    /// The place of the cap of product `i`'s category.
    pub fn category(&self, i: usize) -> Option<usize>
        requires { i < length self.now.category }
        ensures { result ≡ category_place self.now i }
    {
        self.category[i]
    }
}
