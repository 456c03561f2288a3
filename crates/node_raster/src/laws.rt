//! What holds of nodes that stand for a scene. The functions do nothing; the contract of each is a law.

ghost use Rattle.std.specs.Prelude.{◌≡◌, ℕ, ◌≤◌};
ghost use Rattle.scene.specs.Picture.{Items, Picture};
ghost use Rattle.painting.specs.Painting.{paint, IsOnLevels};
ghost use Rattle.sg_nodes.specs.Forest.{Forest, IsForest};
ghost use Rattle.sg_standing.specs.Trees.{IsTree};
ghost use Rattle.sg_standing.specs.Standing.{Stand};
ghost use Rattle.node_raster.specs.Nodes.{paint_of_nodes, IsShallow, records};

/// Nodes that stand for a scene are painted as its items are, on however many levels.
pub fn nodes_paint_their_scene()
    ensures { (f : Forest) (p : Picture) → Stand f p → (levels : ℕ) → 258 ≤ levels
        → paint_of_nodes levels f ≡ paint (records p.items) p.root }
{}

/// None of the nodes that stand for a scene has more than 257 nodes above it.
pub fn standing_nodes_are_shallow()
    ensures { (f : Forest) (p : Picture) → IsForest f → Stand f p → IsShallow f }
{}

/// The items of a tree stand on at most 257 levels.
pub fn scene_is_on_levels()
    ensures { (items : Items) (root : ℕ) → IsTree items root → IsOnLevels 257 (records items) root }
{}
