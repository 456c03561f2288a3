use crate::stage::{Look, ROOT, Stage};
use item_geometry::{RectPart, Rects};
use links::NodeKey;
use sg_nodes::{NodeBody, Nodes};
use sg_sync::Synced;
use std::alloc::{AllocError, Global};
use std::test::Fail;

fn part(x: i32) -> RectPart {
    RectPart {
        x,
        y: 0,
        w: 1,
        h: 1,
        argb: 0xff00_0000,
    }
}

fn border() -> Rects {
    Rects::Five([part(20), part(21), part(22), part(23), part(24)])
}

fn bare(x: i32) -> Look {
    Look {
        x,
        y: 0,
        w: 10,
        h: 10,
        clip: false,
        shown: true,
        rects: Rects::Zero,
        under: 0,
        reversed: false,
    }
}

fn with_rects(x: i32, rects: Rects) -> Look {
    Look { rects, ..bare(x) }
}

fn counts(visits: u64, made: u64, released: u64) -> Synced {
    Synced {
        visits,
        made,
        released,
    }
}

/// Where a node stands, and of a group whether it is shown.
fn is_at(nodes: &Nodes, key: NodeKey, x: i32, shown: bool) -> bool {
    match nodes.get(key) {
        Some(node) => match node.body {
            NodeBody::Group(group) => group.x == x && group.shown == shown,
            NodeBody::Rect(rect) => rect.x == x && shown,
        },
        None => false,
    }
}

/// Whether an item's children, with its rectangles, stand at these places, and all are shown.
fn children_at(stage: &Stage, serial: u64, places: &[i32]) -> bool {
    let Some(keys) = stage.scene().keys(serial) else {
        return false;
    };
    let Some(group) = keys.group else {
        return false;
    };
    let mut next = stage.nodes().first_child(group);
    for x in places {
        let Some(key) = next else {
            return false;
        };
        if !is_at(stage.nodes(), key, *x, true) {
            return false;
        }
        next = stage.nodes().next_sibling(key);
    }
    next.is_none()
}

/// Whether an item's group stands there, and is shown or not.
fn group_at(stage: &Stage, serial: u64, x: i32, shown: bool) -> bool {
    match stage.scene().keys(serial) {
        Some(keys) => match keys.group {
            Some(group) => is_at(stage.nodes(), group, x, shown),
            None => false,
        },
        None => false,
    }
}

/// Three items below the content item, the second with one more, in step.
fn family(alloc: Global) -> Result<(Stage, Synced), AllocError> {
    let stage = Stage::new(alloc, bare(1))?
        .grown(alloc, ROOT, 2, bare(2))?
        .grown(alloc, ROOT, 3, with_rects(3, Rects::One(part(10))))?
        .grown(alloc, ROOT, 4, bare(4))?
        .grown(alloc, 3, 5, bare(5))?;
    stage.synced(alloc)
}

#[test]
fn first_sync_makes_all(rt: HostRuntime) -> Result<(), Fail> {
    let (stage, synced) = family(rt.alloc())?;
    let rooted = match stage.scene().keys(ROOT) {
        Some(keys) => keys.group == stage.nodes().root() && keys.group.is_some(),
        None => false,
    };
    let placed = children_at(&stage, ROOT, &[2, 3, 4])
        && children_at(&stage, 3, &[10, 5])
        && group_at(&stage, ROOT, 1, true);
    assert!(rt; synced == counts(5, 6, 0) && rooted && placed);
    Ok(())
}

#[test]
fn still_scene_takes_no_visit(rt: HostRuntime) -> Result<(), Fail> {
    let (stage, _) = family(rt.alloc())?;
    let (stage, synced) = stage.synced(rt.alloc())?;
    assert!(rt; synced == counts(0, 0, 0) && children_at(&stage, ROOT, &[2, 3, 4]));
    Ok(())
}

#[test]
fn moved_and_hidden_items(rt: HostRuntime) -> Result<(), Fail> {
    let (stage, _) = family(rt.alloc())?;
    let hidden = Look {
        shown: false,
        ..bare(44)
    };
    let stage = stage
        .repainted(rt.alloc(), 4, hidden)?
        .repainted(rt.alloc(), 2, bare(22))?;
    let (stage, synced) = stage.synced(rt.alloc())?;
    let placed = group_at(&stage, 4, 44, false) && group_at(&stage, 2, 22, true);
    assert!(rt; synced == counts(2, 0, 0) && placed);
    Ok(())
}

#[test]
fn reordered_items(rt: HostRuntime) -> Result<(), Fail> {
    let (stage, _) = family(rt.alloc())?;
    let other_way = Look {
        reversed: true,
        ..bare(1)
    };
    let (stage, synced) = stage
        .repainted(rt.alloc(), ROOT, other_way)?
        .synced(rt.alloc())?;
    assert!(rt; synced == counts(1, 0, 0) && children_at(&stage, ROOT, &[4, 3, 2]));
    Ok(())
}

#[test]
fn children_come_under_the_rectangles(rt: HostRuntime) -> Result<(), Fail> {
    let (stage, _) = family(rt.alloc())?;
    let under = Look {
        under: 1,
        ..with_rects(3, Rects::One(part(10)))
    };
    let (stage, synced) = stage.repainted(rt.alloc(), 3, under)?.synced(rt.alloc())?;
    assert!(rt; synced == counts(1, 0, 0) && children_at(&stage, 3, &[5, 10]));
    Ok(())
}

#[test]
fn bordered_item_makes_others(rt: HostRuntime) -> Result<(), Fail> {
    let (stage, _) = family(rt.alloc())?;
    let (stage, first) = stage
        .repainted(rt.alloc(), 3, with_rects(3, border()))?
        .synced(rt.alloc())?;
    let bordered = children_at(&stage, 3, &[20, 21, 22, 23, 24, 5]);
    let (stage, second) = stage
        .repainted(rt.alloc(), 3, with_rects(33, border()))?
        .synced(rt.alloc())?;
    let kept = children_at(&stage, 3, &[20, 21, 22, 23, 24, 5]) && group_at(&stage, 3, 33, true);
    assert!(rt; first == counts(1, 5, 1) && bordered && second == counts(1, 0, 0) && kept);
    Ok(())
}

#[test]
fn added_item(rt: HostRuntime) -> Result<(), Fail> {
    let (stage, _) = family(rt.alloc())?;
    let (stage, synced) = stage.grown(rt.alloc(), 5, 6, bare(6))?.synced(rt.alloc())?;
    assert!(rt; synced == counts(2, 1, 0) && children_at(&stage, 5, &[6]));
    Ok(())
}

/// Items below one another, as deep as they may stand.
fn chain(alloc: Global) -> Result<(Stage, Synced), AllocError> {
    let mut stage = Stage::new(alloc, bare(1))?;
    for serial in 2..258 {
        stage = stage.grown(alloc, serial - 1, serial, bare(7))?;
    }
    stage.synced(alloc)
}

#[test]
fn deep_items(rt: HostRuntime) -> Result<(), Fail> {
    let (stage, synced) = chain(rt.alloc())?;
    let (stage, again) = stage
        .repainted(rt.alloc(), 257, bare(9))?
        .synced(rt.alloc())?;
    let placed = children_at(&stage, 255, &[7]) && children_at(&stage, 256, &[9]);
    assert!(rt; synced == counts(257, 257, 0) && again == counts(1, 0, 0) && placed);
    Ok(())
}

#[test]
fn removed_items_free_their_nodes(rt: HostRuntime) -> Result<(), Fail> {
    let (stage, _) = family(rt.alloc())?;
    let stage = stage.pruned(rt.alloc(), 3)?.pruned(rt.alloc(), ROOT)?;
    let (stage, first) = stage.synced(rt.alloc())?;
    let (stage, second) = stage.pruned(rt.alloc(), ROOT)?.synced(rt.alloc())?;
    let gone = stage.scene().keys(3).is_none() && children_at(&stage, ROOT, &[2]);
    assert!(rt; first == counts(4, 0, 2) && second == counts(3, 0, 2) && gone);
    Ok(())
}
