//! A worker's place at a desk.
use crate::view::View;
use atomic_table::Seat;
use std::marker::Model;

/// A worker's place at a desk. Contracts see which desk it is of, and what it knows.
#[derive(Drop)]
pub struct Place {
    pub(crate) seat: Seat<(), View>,
    pub(crate) tasks: u64,
    pub(crate) done: bool,
}

impl Model for Place {
    ghost use Rattle.std.specs.Prelude.{◌≡◌, ◌<◌, []};
    ghost use Rattle.shared_best.specs.Places.{PlaceData};
    ghost use Rattle.shared_best.specs.Views.{is_done};

    ghost Value = { PlaceData };

    ghost view = { λ p. record { table = p.seat.table_id; view = p.seat.me.0 } };

    ghost invariant = { λ p. (p.seat.me.1 ≡ []) × (0 < p.seat.me.0.share) × (p.tasks ≡ p.seat.me.0.tasks) × (p.done ≡ is_done p.seat.me.0) };
}

impl Place {
    ghost use Rattle.std.specs.Prelude.{◌≡◌};
    ghost use Rattle.shared_best.specs.Views.{is_done};

    /// Whether it has claimed a number that is no task's. It takes no step of the desk.
    pub fn done(&self) -> bool
        ensures { result ≡ is_done self.now.view }
    {
        self.done
    }
}
