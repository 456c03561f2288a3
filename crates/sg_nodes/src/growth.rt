ghost use Rattle.std.specs.Prelude.{◌≡◌, ◌≢◌, ℕ, ◌+◌, ◌≤◌, OnOk, OnErr, max};
ghost use Rattle.links.specs.Chains.{Chains, cells_in, AreDisjoint};
ghost use Rattle.sg_nodes.specs.Numbers.{IsFull, SameLists};

use links::Links;
use std::alloc::AllocError;

/// Adds a cell and an empty list under each number from one up to another, that is, where all numbers
/// before have them. The only error is that memory ran out, and then nothing has changed.
pub(crate) fn extend(links: &mut Links, from: usize, to: usize) -> Result<(), AllocError>
    requires order { from ≤ to }
    requires full { IsFull links.old from }
    ensures full { OnOk result (IsFull links.new to) }
    ensures lists { SameLists links.old links.new }
    ensures err { OnErr result (links.new ≡ links.old) }
    ensures disjoint { AreDisjoint links.new }
{
    links.reserve(to - from, to - from)?;
    for number in from..to {
        let cell = links.add_cell();
        prove_eq!(cell, number);
        let list = links.add_list();
        prove_eq!(list, number);
    }
    Ok(())
}
