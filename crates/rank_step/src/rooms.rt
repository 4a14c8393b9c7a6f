//! The room under each cap, and its cutoff.
ghost use Rattle.std.specs.Prelude.{◌≡◌, ℕ, ◌+◌, ◌<◌, ◌≤◌, ◌==◌, cond, length, true, false, IfOk, Some, None};
ghost use Rattle.offer_model.specs.Validity.{is_cap};
ghost use Rattle.rank_step.specs.Caps.{limit_at, cap_of, category_place, is_place, IsBelow};
ghost use Rattle.rank_step.specs.Rooms.{AreRooms, room_at, cutoff_at, cutoff_of, HasRoom, HasCapsOf, AreApart, IsFull, IsFullCap, IsTaken, HasRefused};

use crate::places::CapPlaces;
use offer_model::{Limit, NoMemory, Problem};
use std::alloc::Global;
use std::marker::Model;

/// By limit, in file order: the room that is left, and the cutoff, which is the weight of the first product that found no
/// room, and 0 as long as there was none.
#[derive(Drop)]
pub struct Rooms {
    left: Vec<u64>,
    cutoffs: Vec<u128>,
}

impl Model for Rooms {
    ghost use Rattle.rank_step.specs.Rooms.{RoomsData};

    ghost Value = { RoomsData };

    ghost view = { λ r. record { left = r.left.items; cutoffs = r.cutoffs.items } };
}

fn cap_of(limit: Limit) -> u64
    ensures { result ≡ cap_of limit }
{
    match limit {
        Limit::Total(cap) | Limit::Category(_, cap) => cap,
        _ => 0,
    }
}

impl Rooms {
    /// No rooms yet, and space for those of the problem.
    pub fn reserve(alloc: Global, p: &Problem) -> Result<Rooms, NoMemory>
        ensures { IfOk result (AreRooms p.now) }
    {
        let limits = p.limits().len();
        Ok(Rooms {
            left: vec![in alloc; 0; limits]?,
            cutoffs: vec![in alloc; 0; limits]?,
        })
    }

    /// The whole room of each cap, and no cutoffs.
    pub fn reset(&mut self, p: &Problem)
        requires { AreRooms p.now self.old }
        ensures rooms { AreRooms p.now self.new }
        ensures left { (k : ℕ) → k < length p.now.limits → room_at self.new k ≡ cap_of (limit_at p.now k) }
        ensures cutoffs { (k : ℕ) → k < length p.now.limits → cutoff_at self.new k ≡ 0 }
    {
        for k in 0..p.limits().len() {
            self.left[k] = cap_of(*p.limits().get(k));
            self.cutoffs[k] = 0;
        }
    }

    fn is_full(&self, place: Option<usize>) -> bool
        requires { IsBelow (length self.now.left) place }
        ensures full { result ≡ true → IsFull self.now place }
        ensures room { result ≡ false → HasRoom self.now place }
    {
        match place {
            Some(k) => self.left[k] == 0,
            None => false,
        }
    }

    /// The place of a cap of product `i` that has no room.
    pub fn full_cap(&self, at: &CapPlaces, i: usize) -> Option<usize>
        requires { HasCapsOf self.now at.now i }
        ensures { IsFullCap self.now at.now i result }
    {
        if self.is_full(at.category(i)) {
            at.category(i)
        } else if self.is_full(at.total()) {
            at.total()
        } else {
            None
        }
    }

    fn take_one(&mut self, place: Option<usize>)
        requires place { IsBelow (length self.old.left) place }
        requires room { HasRoom self.old place }
        ensures each { length self.new.left ≡ length self.old.left }
        ensures left { (j : ℕ) → j < length self.old.left
            → room_at self.old j ≡ room_at self.new j + cond (is_place place j) 1 0 }
        ensures cutoffs { self.new.cutoffs ≡ self.old.cutoffs }
    {
        if let Some(k) = place {
            self.left[k] -= 1;
        }
    }

    /// Takes room for product `i` under each of its caps.
    pub fn take(&mut self, at: &CapPlaces, i: usize)
        requires caps { HasCapsOf self.old at.now i }
        requires room { IsFullCap self.old at.now i None }
        requires apart { AreApart self.old at.now i }
        ensures { IsTaken self.old at.now i self.new }
    {
        self.take_one(at.total());
        self.take_one(at.category(i));
    }

    /// Notes the weight of a product that found no room, if it is the first.
    pub fn refuse(&mut self, k: usize, weight: u128)
        requires { k < length self.old.cutoffs }
        ensures { HasRefused self.old k weight self.new }
    {
        if self.cutoffs[k] == 0 {
            self.cutoffs[k] = weight;
        }
    }

    /// The number of limits.
    pub fn len(&self) -> usize
        ensures { result ≡ length self.now.cutoffs }
    {
        self.cutoffs.len()
    }

    /// The cutoff of the cap, and 0 where there is none.
    pub fn cutoff(&self, place: Option<usize>) -> u128
        requires { IsBelow (length self.now.cutoffs) place }
        ensures { result ≡ cutoff_of self.now place }
    {
        match place {
            Some(k) => self.cutoffs[k],
            None => 0,
        }
    }
}
