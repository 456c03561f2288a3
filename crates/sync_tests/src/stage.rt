ghost use Rattle.std.specs.Prelude.{◌≡◌, ◌≤◌, ◌<◌, ◌+◌, true, false, ◌++◌, ◌∷◌, [], List, ℕ, Some, IsSome, IfSome, IfOk, length};
ghost use Rattle.std.specs.FinMap as map;
ghost use Rattle.scene.specs.Picture.{Item};
ghost use Rattle.sync_tests.specs.Staged.{IsReordered, IsLastLeaf};

use item_geometry::Rects;
use node_raster::{raster, standing_nodes_are_shallow};
use rect_raster::{Canvas, ClipRect, fill};
use scene::{Children, Paint, Scene};
use sg_nodes::Nodes;
use sg_standing::{changes_agree, new_nodes_agree};
use sg_sync::{Synced, sync};
use std::alloc::{AllocError, Global};
use std::marker::Model;

/// The serial of the content item.
pub const ROOT: u64 = 1;

/// How deep items stand at most below the content item.
const MOST_DEEP: usize = 256;

/// A scene that grows and changes, with nodes that agree with it.
#[derive(Drop)]
pub struct Stage {
    nodes: Nodes,
    scene: Scene,
    /// No item stands deeper below the content item.
    deepest: usize,
}

impl Model for Stage {
    ghost use Rattle.std.specs.Prelude.{ℕ};
    ghost use Rattle.sg_nodes.specs.Stored.{forest_of};
    ghost use Rattle.sync_tests.specs.Staged.{IsStaged};

    ghost Value = { ℕ };

    ghost view = { λ s. s.deepest };

    ghost invariant = { λ s. IsStaged (forest_of s.nodes) s.scene s.deepest };
}

/// How an item looks, beside its children.
#[derive(Clone, Copy)]
pub struct Look {
    pub x: i32,
    pub y: i32,
    pub w: i32,
    pub h: i32,
    pub clip: bool,
    pub shown: bool,
    pub rects: Rects,
    /// How many children come under the rectangles, or all where there are fewer.
    pub under: usize,
    /// Whether the children change to the other order.
    pub reversed: bool,
}

fn paint(look: Look, children: Children) -> Paint
    ensures children { result.children ≡ children }
    ensures under { result.under ≤ length result.children }
{
    let under = look.under.min(children.len());
    Paint {
        x: look.x,
        y: look.y,
        w: look.w,
        h: look.h,
        clip: look.clip,
        shown: look.shown,
        rects: look.rects,
        children,
        under,
    }
}

/// How deep items stand at most once one is below the content item, or below another one.
fn deeper(deepest: usize, at_root: bool) -> usize
    requires { deepest < 256 }
    ensures more { deepest ≤ result }
    ensures root { at_root ≡ true → 1 ≤ result }
    ensures other { at_root ≡ false → deepest + 1 ≤ result }
{
    if at_root { deepest.max(1) } else { deepest + 1 }
}

/// The children, in the other order where that is wanted.
fn in_order(alloc: Global, children: &[u64], reversed: bool) -> Result<Vec<u64>, AllocError>
    ensures { IfOk result (λ v. IsReordered children.now v.items) }
{
    let mut copy = Vec::from_slice(alloc, children)?;
    if reversed {
        copy.reverse();
        return Ok(copy);
    }
    Ok(copy)
}

/// What an item is painted as with one child more, behind the others.
fn with_child(alloc: Global, paint: &Paint, child: u64) -> Result<Paint, AllocError>
    ensures children { IfOk result (λ wide. wide.children ≡ paint.now.children ++ child ∷ []) }
    ensures under { IfOk result (λ wide. wide.under ≡ paint.now.under) }
{
    let mut children = Vec::from_slice(alloc, paint.children.as_slice())?;
    children.push(child)?;
    Ok(Paint {
        children: Children::from_vec(children),
        x: paint.x,
        y: paint.y,
        w: paint.w,
        h: paint.h,
        clip: paint.clip,
        shown: paint.shown,
        rects: paint.rects,
        under: paint.under,
    })
}

/// A canvas that shows one colour.
fn coloured(alloc: Global, w: u32, h: u32, argb: u32) -> Result<Canvas, AllocError>
    ensures width { IfOk result (λ canvas. canvas.width ≡ w) }
    ensures height { IfOk result (λ canvas. canvas.height ≡ h) }
{
    let mut canvas = Canvas::new(alloc, w, h)?;
    let all = ClipRect {
        left: 0,
        top: 0,
        right: i64::from(w),
        bottom: i64::from(h),
    };
    fill(&mut canvas, all, argb);
    Ok(canvas)
}

/// The last child of a parent, where it has no children itself.
fn last_leaf(scene: &Scene, parent: u64) -> Option<u64>
    ensures { IfSome result (IsLastLeaf scene.now.items parent) }
{
    let paint = scene.record(parent)?;
    let child = *paint.children.as_slice().last()?;
    let leaf = scene.record(child)?;
    if leaf.children.is_empty() {
        Some(child)
    } else {
        None
    }
}

/// What an item is painted as without its last child.
fn without_last(alloc: Global, scene: &Scene, parent: u64) -> Result<Paint, AllocError>
    requires { IsSome (map.get scene.now.items parent) }
    ensures children { IfOk result (λ less. (item : Item) (others : List ℕ) (last : ℕ)
        → map.get scene.now.items parent ≡ Some item → item.paint.children ≡ others ++ last ∷ [] → less.children ≡ others) }
    ensures under { IfOk result (λ less. less.under ≤ length less.children) }
{
    let Some(paint) = scene.record(parent) else {
        unreachable!()
    };
    let mut children = Vec::from_slice(alloc, paint.children.as_slice())?;
    let _last = children.pop();
    let under = paint.under.min(children.len());
    Ok(Paint {
        children: Children::from_vec(children),
        x: paint.x,
        y: paint.y,
        w: paint.w,
        h: paint.h,
        clip: paint.clip,
        shown: paint.shown,
        rects: paint.rects,
        under,
    })
}

impl Stage {
    /// The content item alone, without nodes.
    pub fn new(alloc: Global, look: Look) -> Result<Stage, AllocError> {
        let mut scene = Scene::new(alloc, ROOT, 640, 480)?;
        scene.put(ROOT, paint(look, Children::new(alloc)))?;
        scene.mark(ROOT);
        new_nodes_agree();
        Ok(Stage {
            nodes: Nodes::new(alloc),
            scene,
            deepest: 0,
        })
    }

    pub fn nodes(&self) -> &Nodes {
        &self.nodes
    }

    pub fn scene(&self) -> &Scene {
        &self.scene
    }

    /// Brings the nodes in step.
    pub fn synced(self, alloc: Global) -> Result<(Stage, Synced), AllocError> {
        let Stage {
            mut nodes,
            mut scene,
            deepest,
        } = self;
        let synced = sync(alloc, &mut nodes, &mut scene)?;
        Ok((
            Stage {
                nodes,
                scene,
                deepest,
            },
            synced,
        ))
    }

    /// Brings the nodes in step, and draws them on a canvas of a size that showed one colour.
    pub fn drawn(
        self,
        alloc: Global,
        w: u32,
        h: u32,
        before: u32,
    ) -> Result<(Stage, Canvas), AllocError> {
        let Stage {
            mut nodes,
            mut scene,
            deepest,
        } = self;
        let _synced = sync(alloc, &mut nodes, &mut scene)?;
        let mut canvas = coloured(alloc, w, h, before)?;
        standing_nodes_are_shallow();
        raster(&nodes, w, h, &mut canvas);
        Ok((
            Stage {
                nodes,
                scene,
                deepest,
            },
            canvas,
        ))
    }

    /// Has an item look otherwise, and its children stand in the other order where that is wanted.
    pub fn repainted(self, alloc: Global, serial: u64, look: Look) -> Result<Stage, AllocError> {
        let Stage {
            nodes,
            mut scene,
            deepest,
        } = self;
        let Some(old) = scene.record(serial) else {
            return Ok(Stage {
                nodes,
                scene,
                deepest,
            });
        };
        let children = in_order(alloc, old.children.as_slice(), look.reversed)?;
        scene.put(serial, paint(look, Children::from_vec(children)))?;
        scene.mark(serial);
        changes_agree();
        Ok(Stage {
            nodes,
            scene,
            deepest,
        })
    }

    /// Puts a new item behind the other children of a parent. Nothing changes where there is such an item
    /// already, or it would stand too deep.
    pub fn grown(
        self,
        alloc: Global,
        parent: u64,
        child: u64,
        look: Look,
    ) -> Result<Stage, AllocError> {
        if self.scene.keys(child).is_some() || self.deepest >= MOST_DEEP {
            return Ok(self);
        }
        let Stage {
            nodes,
            mut scene,
            deepest,
        } = self;
        let Some(old) = scene.record(parent) else {
            return Ok(Stage {
                nodes,
                scene,
                deepest,
            });
        };
        let wider = with_child(alloc, old, child)?;
        scene.put(child, paint(look, Children::new(alloc)))?;
        scene.put(parent, wider)?;
        scene.mark(child);
        scene.mark(parent);
        changes_agree();
        let at_root = parent == scene.root();
        let deepest = deeper(deepest, at_root);
        Ok(Stage {
            nodes,
            scene,
            deepest,
        })
    }

    /// Takes the last child of a parent away, where it has no children itself.
    pub fn pruned(self, alloc: Global, parent: u64) -> Result<Stage, AllocError> {
        let Stage {
            nodes,
            mut scene,
            deepest,
        } = self;
        let Some(child) = last_leaf(&scene, parent) else {
            return Ok(Stage {
                nodes,
                scene,
                deepest,
            });
        };
        let narrower = without_last(alloc, &scene, parent)?;
        scene.remove(child);
        scene.put(parent, narrower)?;
        scene.mark(parent);
        changes_agree();
        Ok(Stage {
            nodes,
            scene,
            deepest,
        })
    }
}
