//! What the workers of a search share: which tasks are claimed, and the greatest number that one of them told.
#![tactic(auto)]

mod desk;
mod laws;
mod place;
mod rule;
mod view;

pub use desk::Desk;
pub use laws::desk_states_are_sound;
pub use place::Place;
pub use view::View;
