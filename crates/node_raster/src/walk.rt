ghost use Rattle.std.specs.Prelude.{◌≡◌, ◌+◌, ◌<◌, [], ◌∷◌, flat_map};
ghost use Rattle.painting.specs.Painting.{painted_part};
ghost use Rattle.sg_nodes.specs.Forest.{IsForest};
ghost use Rattle.sg_nodes.specs.Stored.{forest_of};
ghost use Rattle.node_raster.specs.Nodes.{part_of, inside_group, paint_node_within};
ghost use Rattle.node_raster.specs.Drawn.{ShowsMore};

use item_geometry::RectPart;
use links::NodeKey;
use painting::Reach;
use rect_raster::{Canvas, fill};
use sg_nodes::{GroupNode, NodeBody, Nodes, RectNode};

/// Paints a rectangle over what the canvas shows.
fn draw_rect(canvas: &mut Canvas, reach: Reach, rect: RectNode)
    ensures { ShowsMore (painted_part reach.viewport (part_of rect) ∷ []) canvas.old canvas.new }
{
    let RectNode { x, y, w, h, argb } = rect;
    let painted = reach.part(RectPart { x, y, w, h, argb });
    fill(canvas, painted.area(), painted.argb);
}

/// The viewport of a group that stands here.
fn inside_group(reach: Reach, group: GroupNode) -> Reach
    requires { 0 < reach.levels }
    ensures viewport { result.viewport ≡ inside_group reach.viewport group }
    ensures levels { result.levels + 1 ≡ reach.levels }
{
    reach.within(group.x, group.y, group.w, group.h, group.clip)
}

/// Paints a node and what is in it over what the canvas shows.
#[cycle(walk)]
pub(crate) fn draw_node(canvas: &mut Canvas, nodes: &Nodes, reach: Reach, key: NodeKey)
    ensures { ShowsMore (paint_node_within reach.levels (forest_of nodes.now) reach.viewport key.slot) canvas.old canvas.new }
{
    if reach.levels == 0 {
        return;
    }
    let Some(node) = nodes.get(key) else {
        return;
    };
    match node.body {
        NodeBody::Rect(rect) => draw_rect(canvas, reach, rect),
        NodeBody::Group(group) => {
            if group.shown {
                draw_children(canvas, nodes, inside_group(reach, group), key);
            }
        }
    }
}

/// Paints a node's children and what is in them, in order.
#[cycle(walk)]
fn draw_children(canvas: &mut Canvas, nodes: &Nodes, reach: Reach, key: NodeKey)
    requires { IsForest (forest_of nodes.now) }
    ensures { ShowsMore
        (flat_map (paint_node_within reach.levels (forest_of nodes.now) reach.viewport)
        ((forest_of nodes.now).children key.slot))
        canvas.old canvas.new }
{
    let mut next = nodes.first_child(key);
    while let Some(child) = next {
        draw_node(canvas, nodes, reach, child);
        next = nodes.next_sibling(child);
    }
}
