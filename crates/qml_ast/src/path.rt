ghost use Rattle.std.specs.Prelude.{◌≡◌, ◌↔◌, IsTrue, IfOk};

use crate::name::Name;
use std::alloc::{AllocError, Global};

/// One name, or two with a dot between them.
#[derive(Drop)]
pub struct Path {
    pub first: Name,
    pub second: Option<Name>,
}

impl Path {
    /// An equal path.
    pub fn copy(&self, alloc: Global) -> Result<Path, AllocError>
        ensures { IfOk result (λ copied. copied ≡ self.now) }
    {
        let first = self.first.copy(alloc)?;
        match &self.second {
            Some(second) => {
                let second = Some(second.copy(alloc)?);
                Ok(Path { first, second })
            }
            None => Ok(Path {
                first,
                second: None,
            }),
        }
    }

    /// Whether both are the same path.
    pub fn is(&self, other: &Path) -> bool
        ensures { IsTrue result ↔ (self.now ≡ other.now) }
    {
        let is_same_second = match (&self.second, &other.second) {
            (Some(second), Some(other)) => second.is(other),
            (None, None) => true,
            _ => false,
        };
        is_same_second && self.first.is(&other.first)
    }
}
