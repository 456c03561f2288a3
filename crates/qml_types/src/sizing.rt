ghost use Rattle.std.specs.Prelude.{◌≡◌, ℕ, ◌+◌, ◌-◌, ◌^◌, ◌≤◌, [], min, map, length, slice_index, IfOk};
ghost use Rattle.std.specs.List.{sum_by};
ghost use Rattle.qml_types.specs.Sized.{IsSized};
ghost use Rattle.qml_types.specs.Sizes.{contexts_made, objects_made, levels_made, contexts_on, objects_on, level_on, level_of, greatest, sizes_of, sizes_on};

use crate::component::{Base, ComponentType, ObjectDecl, Sizes};
use std::alloc::{AllocError, Global};

impl ComponentType {
    /// How many objects one making of the component makes, or 2^64 - 1 where they are more. An object of a
    /// document's type counts with all that stands in the document; what an inline `Component` declares
    /// doesn't count. It takes constant time.
    pub fn object_count(&self) -> u64
        ensures { IsSized self.now → result ≡ min (objects_made self.now) (2 ^ 64 - 1) }
    {
        self.sizes.objects
    }

    /// How many contexts one making of the component makes, or 2^64 - 1 where they are more: one for the
    /// component, and those of each document on whose type an object stands. It takes constant time.
    pub fn context_count(&self) -> u64
        ensures { IsSized self.now → result ≡ min (contexts_made self.now) (2 ^ 64 - 1) }
    {
        self.sizes.contexts
    }

    /// On how many levels the objects of one making stand, or 2^32 - 1 where they are more: 1 where the
    /// root owns no object, and one more for each object that owns the one before. It takes constant time.
    pub fn depth(&self) -> u32
        ensures { IsSized self.now → result ≡ min (levels_made self.now) (2 ^ 32 - 1) }
    {
        self.sizes.levels
    }
}

// The sizes of what is made of this first.
#[tactic(auto, using(crate::proofs::Counting::on_bases))]
fn sizes_on(base: &Base) -> Sizes
    ensures { result ≡ sizes_on base.now }
{
    match base {
        Base::BuiltIn(_) => Sizes {
            objects: 1,
            contexts: 0,
            levels: 1,
        },
        Base::Document(document) => document.get().sizes,
    }
}

// How many objects are made of these.
fn objects_on(objects: &[ObjectDecl]) -> u64
    ensures { result ≡ min (sum_by objects_on objects.now) (2 ^ 64 - 1) }
{
    let mut count: u64 = 0;
    for object in objects {
        count = count.saturating_add(sizes_on(&object.base).objects);
    }
    count
}

// How many contexts the documents have on whose types these objects stand.
fn contexts_on(objects: &[ObjectDecl]) -> u64
    ensures { result ≡ min (sum_by contexts_on objects.now) (2 ^ 64 - 1) }
{
    let mut count: u64 = 0;
    for object in objects {
        count = count.saturating_add(sizes_on(&object.base).contexts);
    }
    count
}

// At which level an object stands, where those before it stand at these.
fn level_of(before: &[u64], owner: Option<u32>) -> u64
    requires { (k : ℕ) → slice_index before.now k ≤ length before.now }
    ensures level { result ≡ level_of before.now owner }
    ensures low { 1 ≤ result }
    ensures high { result ≤ length before.now + 1 }
{
    let Some(owner) = owner else { return 1 };
    match before.get(owner as usize) {
        Some(level) => *level + 1,
        None => 1,
    }
}

// The greatest level of these objects and of those that their types have below them.
fn levels_on(alloc: Global, objects: &[ObjectDecl]) -> Result<u32, AllocError>
    ensures { IfOk result (λ levels. levels ≡ min (greatest [] (map level_on objects.now)) (2 ^ 32 - 1)) }
{
    let mut levels: Vec<u64> = Vec::new(alloc);
    let mut greatest: u64 = 0;
    for object in objects {
        let level = level_of(levels.as_slice(), object.owner);
        let below = u64::from(sizes_on(&object.base).levels);
        greatest = greatest.max(level + below - 1);
        levels.push(level)?;
    }
    Ok(u32::try_from(greatest).unwrap_or(u32::MAX))
}

/// The sizes of a component that has these objects.
#[tactic(auto, unfolding(crate::specs::Sizes::sizes_of))]
pub fn sizes_of(alloc: Global, objects: &[ObjectDecl]) -> Result<Sizes, AllocError>
    ensures { IfOk result (λ sizes. sizes ≡ sizes_of objects.now) }
{
    let levels = levels_on(alloc, objects)?;
    Ok(Sizes {
        objects: objects_on(objects),
        contexts: contexts_on(objects).saturating_add(1),
        levels,
    })
}
