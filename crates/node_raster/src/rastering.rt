ghost use Rattle.std.specs.Prelude.{◌≡◌, ℕ, ◌≤◌};
ghost use Rattle.rect_raster.specs.Drawing.{drawing};
ghost use Rattle.scene.specs.Picture.{Picture};
ghost use Rattle.painting.specs.Shapes.{shapes};
ghost use Rattle.painting.specs.Painting.{picture};
ghost use Rattle.sg_nodes.specs.Stored.{forest_of};
ghost use Rattle.sg_standing.specs.Standing.{Stand};
ghost use Rattle.node_raster.specs.Nodes.{paint_of_nodes, IsShallow, records};

use crate::walk::draw_node;
use painting::Reach;
use rect_raster::{Canvas, clear};
use sg_nodes::Nodes;

/// How many levels of nodes there are at most: the root, and 257 below it.
const MOST_LEVELS: u32 = 258;

/// Draws the nodes from the root on over white, whatever the canvas showed: the rectangles of groups that are
/// shown, in order, each where it stands in the window, and cut to each group above it that clips. `w` and `h`
/// are the canvas's size in pixels. It takes no memory.
pub fn raster(nodes: &Nodes, w: u32, h: u32, canvas: &mut Canvas)
    requires width { canvas.old.width ≡ w }
    requires height { canvas.old.height ≡ h }
    requires shallow { IsShallow (forest_of nodes.now) }

    // On any number of levels from 258 on.
    ensures drawn { (levels : ℕ) → 258 ≤ levels
        → canvas.new ≡ drawing w h (shapes (paint_of_nodes levels (forest_of nodes.now))) }

    // Where they stand for a scene, the picture of its items.
    ensures frame { (p : Picture) → Stand (forest_of nodes.now) p
        → canvas.new ≡ picture (records p.items) p.root w h }
{
    clear(canvas);
    if let Some(root) = nodes.root() {
        draw_node(canvas, nodes, Reach::on_levels(MOST_LEVELS), root);
    }
}
