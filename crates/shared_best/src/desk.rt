//! The desk of a search: which tasks are claimed, and the greatest number told.
ghost use Rattle.std.specs.Prelude.{◌≡◌, ℕ, ◌+◌, ◌^◌, ◌<◌, ◌≤◌, false, IfOk, sum_by};
ghost use Rattle.offer_model.specs.Assortments.{sum_below};
ghost use Rattle.shared_best.specs.Views.{first_view, is_done, AllBelow, with_claim, with_seen, with_told, after_split, split_off, joined};
ghost use Rattle.shared_best.specs.Places.{BelongsTo};

use crate::place::Place;
use crate::rule::{Cut, DeskRule, Look, Take, Tell};
use crate::view::View;
use atomic_table::Table;
use offer_model::NoMemory;
use std::alloc::Global;
use std::marker::Model;

/// Two numbers that the workers of a search share, each in a word of its own: how many numbers were claimed, and the greatest
/// number told. The tasks are the numbers below the number of tasks. Contracts see which desk it is.
#[derive(Drop)]
pub struct Desk {
    table: Table<(), View, u64, DeskRule, Global>,
}

impl Model for Desk {
    ghost use Rattle.std.specs.Prelude.{◌≡◌};
    ghost use Rattle.shared_best.specs.Places.{DeskData};

    ghost Value = { DeskData };

    ghost view = { λ d. record { table = d.table.shared.table_id; tasks = d.table.shared.key } };

    ghost invariant = { λ d. (d.table.shared.table_id.words ≡ 2) × (d.table.shared.table_id.slots ≡ 0) };
}

impl Desk {
    /// A desk with so many tasks, and its first place, which has the whole share.
    pub fn open(alloc: Global, tasks: u64) -> Result<(Desk, Place), NoMemory>
        requires few { tasks ≤ 256 }
        ensures { IfOk result (λ r. (r.0.tasks ≡ tasks) × BelongsTo r.1 r.0 × (r.1.view ≡ first_view tasks)) }
    {
        let (table, seat) = Table::of_words(alloc, &[0, 0], &tasks)?;
        let place = Place {
            seat,
            tasks,
            done: false,
        };
        Ok((Desk { table }, place))
    }

    /// Claims the next number. It is no task's where it isn't below the number of tasks, and the place is done then.
    pub fn take(&self, place: &mut Place) -> u64
        requires desk { BelongsTo place.old self.now }
        requires working { is_done place.old.view ≡ false }
        ensures desk { BelongsTo place.new self.now }
        ensures claim { place.new.view ≡ with_claim place.old.view result }
        ensures above { AllBelow result place.old.view.claims }
    {
        let number = self.table.shared.fetch_add::<Take>(&mut place.seat, 0, 1);
        place.done = number >= place.tasks;
        number
    }

    /// The greatest number told so far, or 0.
    pub fn look(&self, place: &mut Place) -> u64
        requires desk { BelongsTo place.old self.now }
        ensures desk { BelongsTo place.new self.now }
        ensures seen { place.new.view ≡ with_seen place.old.view result }
        ensures since { (place.old.view.seen ≤ result) × (place.old.view.told ≤ result) }
    {
        self.table.shared.load::<Look>(&mut place.seat, 1)
    }

    /// Tells a number, and answers the greatest told before.
    pub fn tell(&self, place: &mut Place, value: u64) -> u64
        requires desk { BelongsTo place.old self.now }
        requires room { value < 2 ^ 63 }
        ensures desk { BelongsTo place.new self.now }
        ensures told { place.new.view ≡ with_told place.old.view value }
        ensures since { (place.old.view.seen ≤ result) × (place.old.view.told ≤ result) }
    {
        self.table
            .shared
            .fetch_max::<Tell>(&mut place.seat, 1, value)
    }

    /// A place for another worker, with one unit of the place's share.
    pub fn split(&self, place: &mut Place) -> Place
        requires desk { BelongsTo place.old self.now }
        requires working { is_done place.old.view ≡ false }
        requires shared { 2 ≤ place.old.view.share }
        ensures desk { BelongsTo place.new self.now × BelongsTo result self.now }
        ensures left { place.new.view ≡ after_split place.old.view }
        ensures right { result.view ≡ split_off place.old.view }
    {
        let seat = self.table.shared.split_seat::<Cut>(&mut place.seat);
        Place {
            seat,
            tasks: place.tasks,
            done: false,
        }
    }

    /// Puts what the other place knows, and its share, to this one's.
    pub fn join(&self, place: &mut Place, other: Place)
        requires desk { BelongsTo place.old self.now × BelongsTo other self.now }
        ensures desk { BelongsTo place.new self.now }
        ensures both { place.new.view ≡ joined place.old.view other.view }
    {
        let Place {
            seat,
            tasks: _,
            done,
        } = other;
        self.table.shared.join_seat::<Cut>(&mut place.seat, seat);
        place.done |= done;
    }

    /// How many numbers were claimed, and the greatest number told, or 0. All other places were joined.
    pub fn close(self, place: Place) -> (u64, u64)
        requires desk { BelongsTo place self }
        requires whole { place.view.share ≡ 2 ^ 32 }
        ensures claims { (h : ℕ → ℕ) → sum_by h place.view.claims ≡ sum_below result.0 h }
        ensures told { result.1 ≡ place.view.told }
        ensures seen { place.view.seen ≤ result.1 }
    {
        let Desk { table } = self;
        let Place {
            seat,
            tasks: _,
            done: _,
        } = place;
        let closed = table.close_with(seat);
        let answer = (closed.word(0), closed.word(1));
        closed.free();
        answer
    }
}
