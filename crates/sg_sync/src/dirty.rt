ghost use Rattle.std.specs.Prelude.{◌≡◌, ℕ, IfOk, IsSome};
ghost use Rattle.std.specs.FinMap as map;
ghost use Rattle.sg_sync.specs.Own.{IsIn};
ghost use Rattle.sg_sync.specs.Linking.{Distinct};

use scene::Scene;
use std::alloc::{AllocError, Global};

/// The dirty items of a scene, in the order in which they were marked. The only error is that memory ran
/// out.
pub(crate) fn dirty_items(alloc: Global, scene: &Scene) -> Result<Vec<u64>, AllocError>
    ensures dirty { IfOk result (λ serials. serials.items ≡ scene.now.dirty) }
    ensures distinct { IfOk result (λ serials. Distinct scene.now.dirty) }
    ensures items { IfOk result (λ serials. (serial : ℕ) → IsIn scene.now.dirty serial
        → IsSome (map.get scene.now.items serial)) }
{
    let mut serials = Vec::new(alloc);
    let mut next = scene.first_dirty();
    while let Some(serial) = next {
        serials.push(serial)?;
        next = scene.next_dirty(serial);
    }
    Ok(serials)
}
