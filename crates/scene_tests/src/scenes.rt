ghost use Rattle.std.specs.Prelude.{◌≡◌};

use item_geometry::Rects;
use links::NodeKey;
use scene::{Children, ItemKeys, Paint, RectKeys, Scene};
use std::alloc::{AllocError, Global};
use std::test::Fail;

fn is_sent<T: Send>(_value: &T) {}

fn paint(x: i32, children: Children) -> Paint
    ensures { result.under ≡ 0 }
{
    Paint {
        x,
        y: 0,
        w: 10,
        h: 20,
        clip: false,
        shown: true,
        rects: Rects::Zero,
        children,
        under: 0,
    }
}

/// Four items, the first with the others as its children.
fn family(alloc: Global) -> Result<Scene, AllocError> {
    let mut serials = Vec::new(alloc);
    for serial in 2..5 {
        serials.push(serial)?;
    }
    let mut scene = Scene::new(alloc, 1, 640, 480)?;
    scene.put(1, paint(0, Children::from_vec(serials)))?;
    for serial in 2..5 {
        scene.put(serial, paint(7, Children::new(alloc)))?;
    }
    Ok(scene)
}

fn mark(scene: &mut Scene, serial: u64) {
    if scene.keys(serial).is_some() {
        scene.mark(serial);
    }
}

fn set_keys(scene: &mut Scene, serial: u64, keys: ItemKeys) {
    if scene.keys(serial).is_some() {
        scene.set_keys(serial, keys);
    }
}

fn remove(scene: &mut Scene, serial: u64) {
    if scene.keys(serial).is_some() {
        scene.remove(serial);
    }
}

/// The first two dirty items.
fn first_two(scene: &Scene) -> [Option<u64>; 2] {
    match scene.first_dirty() {
        Some(serial) => [Some(serial), scene.next_dirty(serial)],
        None => [None, None],
    }
}

fn keys(from: usize) -> ItemKeys {
    let key = |slot: usize| NodeKey { slot };
    ItemKeys {
        group: Some(key(from)),
        rects: RectKeys::Five([key(1), key(2), key(3), key(4), key(5)]),
    }
}

fn is_painted_at(scene: &Scene, serial: u64, x: i32, children: usize) -> bool {
    match scene.record(serial) {
        Some(paint) => paint.x == x && paint.children.len() == children && paint.under == 0,
        None => false,
    }
}

#[test]
fn items_are_as_they_were_put(rt: HostRuntime) -> Result<(), Fail> {
    let mut scene = family(rt.alloc())?;
    is_sent(&scene);
    scene.put(3, paint(8, Children::new(rt.alloc())))?;
    scene.resize(320, 240);
    let items = is_painted_at(&scene, 1, 0, 3)
        && is_painted_at(&scene, 2, 7, 0)
        && is_painted_at(&scene, 3, 8, 0)
        && scene.record(5).is_none()
        && scene.keys(3) == Some(ItemKeys::NONE);
    assert!(rt;
        items && scene.root() == 1 && scene.size() == (320, 240) && scene.first_dirty().is_none()
    );
    Ok(())
}

#[test]
fn dirty_items_are_in_order(rt: HostRuntime) -> Result<(), Fail> {
    let mut scene = family(rt.alloc())?;
    for serial in [3, 2, 3, 4, 2] {
        mark(&mut scene, serial);
    }
    let before = first_two(&scene);
    set_keys(&mut scene, 3, keys(9));
    remove(&mut scene, 4);
    assert!(rt; before == [Some(3), Some(2)] && first_two(&scene) == [Some(2), None]);
    Ok(())
}

#[test]
fn removed_items_release_their_keys(rt: HostRuntime) -> Result<(), Fail> {
    let mut scene = family(rt.alloc())?;
    set_keys(&mut scene, 3, keys(9));
    set_keys(
        &mut scene,
        2,
        ItemKeys {
            rects: RectKeys::Zero,
            ..keys(7)
        },
    );
    scene.put(3, paint(1, Children::new(rt.alloc())))?;
    remove(&mut scene, 3);
    remove(&mut scene, 2);
    remove(&mut scene, 4);
    let released = scene
        .released()
        .iter()
        .map(|key| key.slot)
        .eq([9, 1, 2, 3, 4, 5, 7]);
    scene.clear_released();
    assert!(rt; released && scene.released().is_empty() && scene.keys(3).is_none());
    Ok(())
}

#[test]
fn children_are_given_back(rt: HostRuntime) -> Result<(), Fail> {
    let children = Children::from_vec([5, 6].to_vec(rt.alloc())?);
    let full = !children.is_empty() && children.as_slice() == [5, 6].as_slice();
    assert!(rt; full && children.into_vec().len() == 2);
    Ok(())
}
