//! The spaces of products, and the room that what is In leaves.
ghost use Rattle.std.specs.Prelude.{◌≡◌, ◌≢◌, ℕ, ◌<◌, ◌≤◌, length, IfOk};
ghost use Rattle.offer_model.specs.declared.node.Mark.TheVariants.{Open};
ghost use Rattle.offer_model.specs.Nodes.{mark_at};
ghost use Rattle.shelf_table.specs.Rooms.{AreSpaces, IsRoomLeft};

use offer_model::{Mark, NoMemory, Node, Problem};
use std::alloc::Global;

/// The space that each product takes.
pub fn spaces_of(alloc: Global, p: &Problem) -> Result<Vec<usize>, NoMemory>
    ensures { IfOk result (λ v. AreSpaces p.now v.items) }
{
    let count = p.products().len();
    let mut spaces = vec![in alloc; 0; count]?;
    for i in 0..count {
        spaces[i] = p.products().get(i).space as usize;
    }
    Ok(spaces)
}

/// The room that what is In leaves on the shelf; `None` where it doesn't fit.
pub fn room_left(spaces: &[usize], shelf: usize, node: &Node) -> Option<usize>
    requires { length node.now ≡ length spaces.now }
    ensures { IsRoomLeft spaces.now shelf node.now result }
{
    let mut room = shelf;
    for i in 0..spaces.len() {
        if node.mark(i) != Mark::In {
            continue;
        }
        if spaces[i] > room {
            return None;
        }
        room -= spaces[i];
    }
    Some(room)
}

/// The first Open product, or the number of products.
pub fn first_open(node: &Node) -> usize
    ensures inside { result ≤ length node.now }
    ensures settled { (i : ℕ) → i < result → mark_at node.now i ≢ Open }
    ensures is_open { result < length node.now → mark_at node.now result ≡ Open }
{
    match node.first_open() {
        Some(i) => i,
        None => node.len(),
    }
}
