use crate::objects::Objects;
use expr_eval::{Callees, Found, Frame, GroupName, Method, Reader};
use qml_ast::{Name, Place, Value};

/// A store whose places all have their values, as expressions read it. What is no place is read as null.
#[derive(Clone, Copy)]
pub struct Settled<'a> {
    pub objects: &'a Objects,
}

impl Reader for Settled<'_> {
    ghost use Rattle.expr_eval.specs.Needs.{every};
    ghost use Rattle.object_tree.specs.Settled.{meanings};

    ghost means = { λ settled. meanings settled.objects.now };

    ghost clean = { λ settled. every };

    fn look(&self, frame: Frame, name: &Name) -> Found {
        self.objects.look(frame, name)
    }

    fn member(&self, of: u64, group: Option<GroupName>, name: &Name) -> Found {
        self.objects.member(of, group, name)
    }

    fn read(&self, place: Place) -> Option<&Value> {
        Some(self.objects.value_or_null(place))
    }

    fn method(&self, of: u64, method: u32) -> Option<Method<'_>> {
        self.objects.callable(of, method)
    }
}

impl Callees for Settled<'_> {
    ghost use Rattle.object_tree.specs.Settled.{arities};

    ghost arities = { λ settled. arities settled.objects.now };

    fn method_arity(&self, of: u64, method: u32) -> Option<usize> {
        self.objects.method_arity(of, method)
    }

    fn signal_arity(&self, of: u64, signal: u32) -> Option<usize> {
        self.objects.signal_arity(of, signal)
    }
}
