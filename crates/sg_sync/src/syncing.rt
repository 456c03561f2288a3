ghost use Rattle.std.specs.Prelude.{◌≡◌, ℕ, ◌+◌, ◌*◌, ◌<◌, ◌≤◌, ◌^◌, [], Some, IsSome, IfSome, IfOk, OnOk, OnErr, length};
ghost use Rattle.std.specs.FinMap as map;
ghost use Rattle.scene.specs.Picture.{Item, IsDirty};
ghost use Rattle.sg_nodes.specs.Forest.{IsForest};
ghost use Rattle.sg_nodes.specs.Stored.{forest_of};
ghost use Rattle.sg_standing.specs.Standing.{Agree, Stand, KeyAt};
ghost use Rattle.sg_sync.specs.Own.{IsIn};
ghost use Rattle.sg_sync.specs.Linking.{Distinct};
ghost use Rattle.sg_sync.specs.Dressing.{SamePaints};
ghost use Rattle.sg_sync.specs.Counting.{made_for, freed_for, total, AllKeep};

use crate::dirty::dirty_items;
use crate::link::{group_key, link_all, park_all};
use crate::renew::{free_all, renew_all};
use crate::synced::Synced;
use scene::Scene;
use sg_nodes::Nodes;
use std::alloc::{AllocError, Global};

/// How many nodes an item has at most: its group and the five rectangles of one with a border.
const MOST_KEYS: usize = 6;

/// How many nodes are made at most for dirty items, or None where more might be made and freed than can
/// be counted.
fn most_made(dirty: usize, released: usize) -> Option<usize>
    ensures { IfSome result (λ most. (most ≡ 6 * dirty) × (6 * dirty + released < 2 ^ 64)) }
{
    let most = dirty.checked_mul(MOST_KEYS)?;
    most.checked_add(released)?;
    Some(most)
}

/// Brings the nodes in step with the scene, where there is room for all that is made.
fn update(nodes: &mut Nodes, scene: &mut Scene, serials: &[u64]) -> Synced
    requires agree { Agree (forest_of nodes.old) scene.old }
    requires dirty { scene.old.dirty ≡ serials.now }
    requires distinct { Distinct serials.now }
    requires items { (serial : ℕ) → IsIn serials.now serial → IsSome (map.get scene.old.items serial) }
    requires room { 6 * length serials.now ≤ nodes.old.spare }
    requires counts { 6 * length serials.now + length scene.old.released < 2 ^ 64 }
    requires forest { IsForest (forest_of nodes.old) }
    ensures stand { Stand (forest_of nodes.new) scene.new }
    ensures paints { SamePaints scene.old.items scene.new.items }
    ensures others { (serial : ℕ) → ¬ IsIn serials.now serial
        → map.get scene.new.items serial ≡ map.get scene.old.items serial }
    ensures keep { AllKeep scene.old.items scene.new.items }
    ensures scene { scene.new ≡ record scene.old { items = scene.new.items; dirty = []; released = [] } }
    ensures counted { result ≡ record {
      visits = length serials.now + length scene.old.released;
      made = total made_for scene.old.items serials.now;
      released = length scene.old.released + total freed_for scene.old.items serials.now;
    } }
    ensures forest { IsForest (forest_of nodes.new) }
{
    free_all(nodes, scene.released());
    let freed = scene.released().len() as u64;
    let mut done = Synced {
        visits: serials.len() as u64 + freed,
        made: 0,
        released: freed,
    };
    scene.clear_released();
    renew_all(nodes, scene, serials, &mut done);
    let root = group_key(scene, scene.root());
    nodes.set_root(root);
    park_all(nodes, scene, serials, root);
    link_all(nodes, scene, serials);
    done
}

/// Brings nodes in step with a scene with which they agree, by its dirty items and the keys that it
/// released (Qt Quick Scene Graph, Threaded Render Loop: the step in which changed items are synchronised). Then they stand for it, nothing is dirty, and no key waits to be freed. What the items are
/// painted as and the scene's size stay, and so do the keys and nodes of items that weren't dirty.
///
/// A dirty item keeps its group, and its rectangles where it has as many as before; otherwise these are
/// freed and others made. It takes as much time as dirty items, their children and released keys.
///
/// # Errors
///
/// Memory ran out, and then the scene is unchanged, and so are the nodes but for the room for more.
pub fn sync(alloc: Global, nodes: &mut Nodes, scene: &mut Scene) -> Result<Synced, AllocError>
    requires { Agree (forest_of nodes.old) scene.old }
    ensures stand { OnOk result (Stand (forest_of nodes.new) scene.new) }
    ensures paints { OnOk result (SamePaints scene.old.items scene.new.items) }
    ensures rest { OnOk result (scene.new ≡ record scene.old {
      items = scene.new.items;
      dirty = [];
      released = [];
    }) }

    // The paint and the keys of an item that wasn't dirty, and its nodes.
    ensures kept { OnOk result ((serial : ℕ) → ¬ IsDirty scene.old serial
        → map.get scene.new.items serial ≡ map.get scene.old.items serial) }
    ensures kept_nodes { OnOk result ((serial place slot : ℕ) (item : Item)
        → map.get scene.old.items serial ≡ Some item → ¬ IsDirty scene.old serial → KeyAt item place slot
        → (forest_of nodes.new).node slot ≡ (forest_of nodes.old).node slot) }
    ensures keep { OnOk result (AllKeep scene.old.items scene.new.items) }
    ensures counted { IfOk result (λ done. done ≡ record {
      visits = length scene.old.dirty + length scene.old.released;
      made = total made_for scene.old.items scene.old.dirty;
      released = length scene.old.released + total freed_for scene.old.items scene.old.dirty;
    }) }
    ensures err { OnErr result (forest_of nodes.new ≡ record (forest_of nodes.old) {
      spare = nodes.new.spare;
    }) }
    ensures err_scene { OnErr result (scene.new ≡ scene.old) }
    ensures forest { OnOk result (IsForest (forest_of nodes.new)) }
{
    let serials = dirty_items(alloc, scene)?;
    let Some(room) = most_made(serials.len(), scene.released().len()) else {
        return Err(AllocError);
    };
    nodes.reserve(room)?;
    Ok(update(nodes, scene, &serials))
}
