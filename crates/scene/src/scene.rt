ghost use Rattle.std.specs.Prelude.{◌≡◌, ℕ, ◌+◌, ◌≤◌, ◌++◌, [], Some, None, IsSome, IfOk, IfSome, OnOk, OnErr, length, slice_get};
ghost use Rattle.std.specs.Option.{option_copied, option_map};
ghost use Rattle.std.specs.FinMap as map;
ghost use Rattle.links.specs.Slots.{IsApart};
ghost use Rattle.scene.specs.Dirty.{marked, without};
ghost use Rattle.scene.specs.Picture.{IsDirty, with_paint, with_keys, node_keys, no_keys};

use crate::items::{Entry, Items};
use crate::keys::{ItemKeys, release};
use crate::marks::Marks;
use crate::paint::Paint;
use links::NodeKey;
use std::alloc::{AllocError, Global};
use std::marker::Model;

/// How many nodes an item has at most: its group and the five rectangles of one with a border.
const MOST_KEYS: usize = 6;

/// Items by serial: what each is painted as, the keys of its nodes, and whether it is dirty, that is, has
/// changed since its nodes were brought up to date. Beside them stand the keys of nodes whose items are
/// gone. Contracts see it as these, with the dirty items in the order in which they were marked.
///
/// Only `new` and `put` take memory. Each other call on an item takes one look-up, and otherwise the same
/// time however many items there are.
#[derive(Drop)]
pub struct Scene {
    items: Items,
    marks: Marks,
    released: Vec<NodeKey>,
    root: u64,
    width: u32,
    height: u32,
}

impl Model for Scene {
    ghost use Rattle.std.specs.Prelude.{vec_len, vec_capacity};
    ghost use Rattle.scene.specs.Picture.{Picture, picture_code};
    ghost use Rattle.scene.specs.Holding.{IsHeld};

    ghost Value = { Picture };

    ghost coded = { picture_code };

    ghost view = { λ s. record {
      items = s.items.items;
      dirty = s.marks.dirty;
      released = s.released.items;
      root = s.root;
      width = s.width;
      height = s.height;
    } };

    ghost invariant = { λ s. IsHeld s.items s.marks (vec_len s.released) (vec_capacity s.released) };
}

impl Scene {
    /// A scene of a size in pixels, without items. `root` is the serial of its content item, which no
    /// call changes.
    ///
    /// # Errors
    ///
    /// Memory ran out.
    pub fn new(alloc: Global, root: u64, w: u32, h: u32) -> Result<Scene, AllocError>
        ensures { IfOk result (λ scene. scene ≡ record {
          items = map.empty;
          dirty = [];
          released = [];
          root = root;
          width = w;
          height = h;
        }) }
    {
        let marks = Marks::new(alloc)?;
        Ok(Scene {
            items: Items::new(alloc),
            marks,
            released: Vec::new(alloc),
            root,
            width: w,
            height: h,
        })
    }

    /// Adds an item that isn't there, without nodes. The only error is that memory ran out, and then
    /// nothing has changed.
    fn add(&mut self, serial: u64, paint: Paint) -> Result<(), AllocError>
        requires new_item { map.get self.old.items serial ≡ None }
        requires under { paint.under ≤ length paint.children }
        ensures ok { OnOk result (self.new ≡ record self.old {
          items = map.insert self.old.items serial (record { paint = paint; keys = no_keys });
        }) }
        ensures err { OnErr result (self.new ≡ self.old) }
    {
        let Some(room) = (self.items.len() + 1).checked_mul(MOST_KEYS) else {
            return Err(AllocError);
        };
        self.released.reserve(room)?;
        let cell = self.marks.add(serial)?;
        let entry = Entry {
            paint,
            keys: ItemKeys::NONE,
            cell,
        };
        match self.items.insert(serial, entry) {
            Ok(()) => Ok(()),
            Err(AllocError) => {
                self.marks.free(cell);
                Err(AllocError)
            }
        }
    }

    /// Has an item painted so. One that isn't there is added, without nodes; one that is keeps its keys.
    /// Which items are dirty stays as it was.
    ///
    /// # Errors
    ///
    /// Memory ran out, and then nothing has changed.
    pub fn put(&mut self, serial: u64, paint: Paint) -> Result<(), AllocError>
        requires { paint.under ≤ length paint.children }
        ensures ok { OnOk result (self.new ≡ record self.old {
          items = with_paint serial paint self.old.items;
        }) }
        ensures err { OnErr result (self.new ≡ self.old) }
    {
        if self.items.cell(serial).is_none() {
            return self.add(serial, paint);
        }
        self.items.set_paint(serial, paint);
        Ok(())
    }

    /// Takes an item away. The keys of its nodes come behind the released ones.
    pub fn remove(&mut self, serial: u64)
        requires { IsSome (map.get self.old.items serial) }
        ensures { self.new ≡ record self.old {
          items = map.remove self.old.items serial;
          dirty = without serial self.old.dirty;
          released = self.old.released ++ node_keys self.old.items serial;
        } }
    {
        let entry = self.items.remove(serial);
        self.marks.free(entry.cell);
        release(&mut self.released, entry.keys);
    }

    /// Marks an item as dirty, behind those that are, unless it is dirty already.
    pub fn mark(&mut self, serial: u64)
        requires { IsSome (map.get self.old.items serial) }
        ensures { self.new ≡ record self.old { dirty = marked serial self.old.dirty } }
    {
        let Some(cell) = self.items.cell(serial) else {
            unreachable!()
        };
        self.marks.mark(cell);
    }

    /// Gives the scene another size, in pixels.
    pub fn resize(&mut self, w: u32, h: u32)
        ensures { self.new ≡ record self.old { width = w; height = h } }
    {
        self.width = w;
        self.height = h;
    }

    /// The width and the height, in pixels.
    pub fn size(&self) -> (u32, u32)
        ensures { result ≡ (self.now.width, self.now.height) }
    {
        (self.width, self.height)
    }

    /// The serial of the content item.
    pub fn root(&self) -> u64
        ensures { result ≡ self.now.root }
    {
        self.root
    }

    /// What an item is painted as, or None where there is none of that serial.
    pub fn record(&self, serial: u64) -> Option<&Paint>
        ensures paint { option_copied result
            ≡ option_map (λ item. item.paint) (map.get self.now.items serial) }
        ensures under { IfSome result (λ paint. paint.now.under ≤ length paint.now.children) }
    {
        self.items.paint(serial)
    }

    /// The keys of an item's nodes, or None where there is no item of that serial.
    pub fn keys(&self, serial: u64) -> Option<ItemKeys>
        ensures { result ≡ option_map (λ item. item.keys) (map.get self.now.items serial) }
    {
        self.items.keys(serial)
    }

    /// The first dirty item, or None where none is dirty.
    pub fn first_dirty(&self) -> Option<u64>
        ensures first { result ≡ slice_get self.now.dirty 0 }
        ensures dirty { IfSome result (IsDirty self.now) }
        ensures item { IfSome result (λ serial. IsSome (map.get self.now.items serial)) }
        ensures apart { IsApart self.now.dirty }
    {
        self.marks.first()
    }

    /// The dirty item after one that is dirty, or None where it is the last.
    pub fn next_dirty(&self, serial: u64) -> Option<u64>
        requires { IsDirty self.now serial }

        // Wherever the given one stands.
        ensures next { (place : ℕ) → slice_get self.now.dirty place ≡ Some serial
            → result ≡ slice_get self.now.dirty (place + 1) }
        ensures dirty { IfSome result (IsDirty self.now) }
        ensures item { IfSome result (λ serial. IsSome (map.get self.now.items serial)) }
        ensures apart { IsApart self.now.dirty }
    {
        let Some(cell) = self.items.cell(serial) else {
            unreachable!()
        };
        self.marks.next(cell)
    }

    /// The keys of nodes whose items are gone.
    pub fn released(&self) -> &[NodeKey]
        ensures { result.now ≡ self.now.released }
    {
        &self.released
    }

    /// Gives an item the keys of its nodes. It is then dirty no longer.
    pub fn set_keys(&mut self, serial: u64, keys: ItemKeys)
        requires { IsSome (map.get self.old.items serial) }
        ensures { self.new ≡ record self.old {
          items = with_keys serial keys self.old.items;
          dirty = without serial self.old.dirty;
        } }
    {
        let cell = self.items.set_keys(serial, keys);
        self.marks.unmark(cell);
    }

    /// Leaves no released key, once their nodes are freed.
    pub fn clear_released(&mut self)
        ensures { self.new ≡ record self.old { released = [] } }
    {
        self.released.clear();
    }
}
