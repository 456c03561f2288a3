ghost use Rattle.std.specs.Prelude.{◌≡◌, ◌+◌, ◌<◌, ◌^◌, ◌↔◌, None, Some, IsSome, OnOk, OnErr, IfSome};
ghost use Rattle.std.specs.Option.{option_copied, option_map};
ghost use Rattle.std.specs.FinMap as map;
ghost use Rattle.scene.specs.Picture.{item_of};

use crate::keys::ItemKeys;
use crate::paint::Paint;
use std::alloc::{AllocError, Global};
use std::collections::BTreeMap;
use std::marker::Model;

/// What is stored of an item.
#[derive(Drop)]
pub(crate) struct Entry {
    pub(crate) paint: Paint,
    pub(crate) keys: ItemKeys,
    /// The number of its cell, for which its marks are asked.
    pub(crate) cell: usize,
}

/// Items by serial. Contracts see the items and their cells apart, and how many they are.
#[derive(Drop)]
pub(crate) struct Items {
    entries: BTreeMap<u64, Entry>,
}

impl Model for Items {
    ghost use Rattle.std.specs.BTreeMap.{btree_map_len};
    ghost use Rattle.scene.specs.Picture.{StoredItems, stored_code};

    ghost Value = { StoredItems };

    ghost coded = { stored_code };

    ghost use Rattle.scene.specs.Entries.{items_of, cells_of};

    ghost view = { λ i. record {
      items = items_of i.entries.entries;
      cells = cells_of i.entries.entries;
      count = btree_map_len i.entries;
    } };
}

impl Items {
    /// No items.
    pub(crate) fn new(alloc: Global) -> Items
        ensures { result ≡ record { items = map.empty; cells = map.empty; count = 0 } }
    {
        Items {
            entries: BTreeMap::new(alloc),
        }
    }

    /// How many items there are.
    pub(crate) fn len(&self) -> usize
        ensures count { result ≡ self.now.count }
        ensures small { result < 2 ^ 63 }
    {
        self.entries.len()
    }

    /// What the item is painted as, or None where there is none of that serial.
    pub(crate) fn paint(&self, serial: u64) -> Option<&Paint>
        ensures { option_copied result ≡ option_map (λ item. item.paint) (map.get self.now.items serial) }
    {
        let entry = self.entries.get(&serial)?;
        Some(&entry.paint)
    }

    /// The keys of the item, or None where there is none of that serial.
    pub(crate) fn keys(&self, serial: u64) -> Option<ItemKeys>
        ensures { result ≡ option_map (λ item. item.keys) (map.get self.now.items serial) }
    {
        let entry = self.entries.get(&serial)?;
        Some(entry.keys)
    }

    /// The cell of the item, or None where there is none of that serial.
    pub(crate) fn cell(&self, serial: u64) -> Option<usize>
        ensures cell { result ≡ map.get self.now.cells serial }
        ensures item { IsSome result ↔ IsSome (map.get self.now.items serial) }
    {
        let entry = self.entries.get(&serial)?;
        Some(entry.cell)
    }

    /// Adds an item. The only error is that memory ran out, and then nothing has changed.
    pub(crate) fn insert(&mut self, serial: u64, entry: Entry) -> Result<(), AllocError>
        requires { map.get self.old.items serial ≡ None }
        ensures items { OnOk result (self.new.items ≡ map.insert self.old.items serial (item_of entry)) }
        ensures cells { OnOk result (self.new.cells ≡ map.insert self.old.cells serial entry.cell) }
        ensures count { OnOk result (self.new.count ≡ self.old.count + 1) }
        ensures err { OnErr result (self.new ≡ self.old) }
    {
        self.entries.insert(serial, entry)?;
        Ok(())
    }

    /// Has the item painted as something else.
    pub(crate) fn set_paint(&mut self, serial: u64, paint: Paint)
        requires { IsSome (map.get self.old.items serial) }
        ensures items { IfSome (map.get self.old.items serial) (λ item.
            self.new.items ≡ map.insert self.old.items serial (record item { paint = paint })) }
        ensures cells { self.new.cells ≡ self.old.cells }
        ensures count { self.new.count ≡ self.old.count }
    {
        let Some(entry) = self.entries.get_mut(&serial) else {
            unreachable!()
        };
        entry.paint = paint;
    }

    /// Gives the item other keys, and answers its cell.
    pub(crate) fn set_keys(&mut self, serial: u64, keys: ItemKeys) -> usize
        requires { IsSome (map.get self.old.items serial) }
        ensures items { IfSome (map.get self.old.items serial) (λ item.
            self.new.items ≡ map.insert self.old.items serial (record item { keys = keys })) }
        ensures cells { self.new.cells ≡ self.old.cells }
        ensures cell { Some result ≡ map.get self.old.cells serial }
        ensures count { self.new.count ≡ self.old.count }
    {
        let Some(entry) = self.entries.get_mut(&serial) else {
            unreachable!()
        };
        entry.keys = keys;
        entry.cell
    }

    /// Takes the item away, and answers what was stored of it.
    pub(crate) fn remove(&mut self, serial: u64) -> Entry
        requires { IsSome (map.get self.old.items serial) }
        ensures item { Some (item_of result) ≡ map.get self.old.items serial }
        ensures cell { Some result.cell ≡ map.get self.old.cells serial }
        ensures items { self.new.items ≡ map.remove self.old.items serial }
        ensures cells { self.new.cells ≡ map.remove self.old.cells serial }
        ensures count { self.new.count + 1 ≡ self.old.count }
    {
        let Some(entry) = self.entries.remove(&serial) else {
            unreachable!()
        };
        entry
    }
}
