use crate::found::{Found, Frame, GroupName};
use qml_ast::{Expr, Name, Place, Value};

/// A method whose body is one `return` with an expression.
#[derive(Clone, Copy)]
pub struct Method<'a> {
    /// Where the names in the body are looked up.
    pub frame: Frame,
    /// The names of its parameters.
    pub params: &'a [Name],
    /// What it returns.
    pub body: &'a Expr,
}

/// What an evaluation asks of a store: what names stand for, and the values of places.
///
/// Contracts see a reader by its `means`, which are the store's answers once every place has its value, and
/// by `clean`, a test of which places have theirs already.
pub trait Reader {
    ghost use Rattle.std.specs.Prelude.{◌≡◌, Bool, option_map};
    ghost use Rattle.std.specs.Option.{option_copied};
    ghost use Rattle.qml_ast.specs.declared.place.Place.{Place};
    ghost use Rattle.expr_eval.specs.Meanings.{Meanings, seen, method_of};

    ghost means: { Self → Meanings };

    ghost clean: { Self → Place → Bool };

    /// What a name stands for in an expression of that frame, after the expression's own locals: an id of
    /// the component, a property, signal or method of the object or of the component's root, the same of
    /// the components around, and then a global (Qt 5 QML Reference, Scope and Naming Resolution).
    fn look(&self, frame: Frame, name: &Name) -> Found
        ensures { result ≡ (means self.now).look frame name.now };

    /// What a member of an object, or of a group of it, stands for. There is none where the object is no
    /// more or has nothing of that name.
    fn member(&self, of: u64, group: Option<GroupName>, name: &Name) -> Found
        ensures { result ≡ (means self.now).member of group name.now };

    /// The value of a place, where it has one already. A reference to an object that is no more is lent as
    /// null, and a line of such an object as `undefined`.
    fn read(&self, place: Place) -> Option<&Value>
        ensures { option_copied result ≡ seen (clean self.now) (means self.now) place };

    /// The method of that number of an object, where its body is one `return` with an expression.
    fn method(&self, of: u64, method: u32) -> Option<Method<'_>>
        ensures { option_map method_of result ≡ (means self.now).method of method };
}

/// A store that knows, too, how many arguments methods and signals take where a call of one stands as a
/// whole statement.
pub trait Callees: Reader {
    ghost use Rattle.std.specs.Prelude.{◌≡◌};
    ghost use Rattle.expr_eval.specs.Meanings.{Arities};

    ghost arities: { Self → Arities };

    /// How many arguments the method of that number of an object takes, whatever its body is. There is
    /// none where the object is no more or has no such method.
    fn method_arity(&self, of: u64, method: u32) -> Option<usize>
        ensures { result ≡ (arities self.now).method of method };

    /// How many arguments the signal of that number of an object takes. There is none where the object is
    /// no more or has no such signal.
    fn signal_arity(&self, of: u64, signal: u32) -> Option<usize>
        ensures { result ≡ (arities self.now).signal of signal };
}
