ghost use Rattle.std.specs.Prelude.{◌≡◌, ℕ, ◌==◌, if◌then◌else◌, []};
ghost use Rattle.links.specs.Chains.{cells_in, IsLoose, AreDisjoint};
ghost use Rattle.sg_nodes.specs.Forest.{without};
ghost use Rattle.sg_nodes.specs.Numbers.{KeepsNumbers};

use links::Links;

/// Takes a cell out of the list that has it, if one does.
pub(crate) fn loosen(links: &mut Links, cell: usize)
    ensures lists { (list : ℕ) →
        cells_in links.new.lists list ≡ without cell (cells_in links.old.lists list) }
    ensures numbers { KeepsNumbers links.old links.new }
    ensures loose { IsLoose links.new cell }
    ensures disjoint { AreDisjoint links.new }
{
    if links.is_linked(cell) {
        links.unlink(cell);
    }
}

/// Takes all cells out of a list.
pub(crate) fn clear(links: &mut Links, list: usize)
    ensures lists { (other : ℕ) → cells_in links.new.lists other
        ≡ (if other == list then [] else cells_in links.old.lists other) }
    ensures numbers { KeepsNumbers links.old links.new }
    ensures disjoint { AreDisjoint links.new }
{
    while let Some(cell) = links.first(list) {
        links.unlink(cell);
    }
}
