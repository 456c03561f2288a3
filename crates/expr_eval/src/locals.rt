ghost use Rattle.std.specs.Prelude.{◌≡◌, ◌<◌, [], length, slice_index_or, slice_set, OnOk, OnErr, IfOk, IfSome};
ghost use Rattle.std.specs.Option.{option_copied};
ghost use Rattle.expr_eval.specs.Names.{local_named, index_named, declared, assigned, assignable, assignable_to, is_fixed, bound};
ghost use Rattle.expr_eval.specs.declared.locals.Local.TheVariants.{Plain};
ghost use Rattle.expr_eval.specs.declared.locals.NamedLocal.{NamedLocal};

use qml_ast::{EvalFault, Name, Value};
use std::alloc::{AllocError, Global};
use std::marker::Model;

/// What a local holds.
#[derive(Drop)]
pub enum Local {
    /// A variable or a parameter.
    Plain(Value),
    /// Where the mouse is, as a handler of a mouse area's signal is told: x, then y, in pixels from the
    /// area's own left and top. Nothing can be assigned to it.
    Mouse(i32, i32),
}

/// A local with its name.
#[derive(Drop)]
pub struct NamedLocal {
    pub name: Name,
    pub held: Local,
    /// Whether it was declared by `const`.
    pub fixed: bool,
}

impl Local {
    // The same.
    fn copy(&self, alloc: Global) -> Result<Local, AllocError>
        ensures { IfOk result (λ copied. copied ≡ self.now) }
    {
        match self {
            Local::Plain(value) => Ok(Local::Plain(value.copy(alloc)?)),
            Local::Mouse(x, y) => Ok(Local::Mouse(*x, *y)),
        }
    }
}

impl NamedLocal {
    // The same.
    fn copy(&self, alloc: Global) -> Result<NamedLocal, AllocError>
        ensures { IfOk result (λ copied. copied ≡ self.now) }
    {
        let name = self.name.copy(alloc)?;
        let held = self.held.copy(alloc)?;
        Ok(NamedLocal {
            name,
            held,
            fixed: self.fixed,
        })
    }

    // Whether nothing can be assigned to it.
    fn is_fixed(&self) -> bool
        ensures { result ≡ is_fixed self.now.held self.now.fixed }
    {
        match self.held {
            Local::Plain(_) => self.fixed,
            Local::Mouse(..) => true,
        }
    }
}

/// The variables and parameters of a handler or a method. Contracts see the list, in the order in which
/// the names were first declared.
#[derive(Drop)]
pub struct Locals {
    entries: Vec<NamedLocal>,
}

impl Model for Locals {
    ghost use Rattle.std.specs.Prelude.{List};
    ghost use Rattle.expr_eval.specs.declared.locals.NamedLocal.{NamedLocal};

    ghost Value = { List NamedLocal };

    ghost view = { λ locals. locals.entries.items };
}

impl Locals {
    /// No local yet. It takes no memory.
    pub fn new(alloc: Global) -> Locals
        ensures { result ≡ [] }
    {
        Locals {
            entries: Vec::new(alloc),
        }
    }

    /// The parameters of a method with the arguments of a call.
    #[tactic(auto, using(crate::proofs::Named::bound_past_params, crate::proofs::Named::bound_past_values))]
    pub fn of_call(
        alloc: Global,
        params: &[Name],
        arguments: &[Value],
    ) -> Result<Locals, AllocError>
        ensures { IfOk result (λ locals. locals ≡ bound params.now arguments.now) }
    {
        let mut entries = Vec::new(alloc);
        for (i, param) in params.iter().enumerate() {
            match sqlite_items::at(arguments, i) {
                Some(argument) => {
                    let name = param.copy(alloc)?;
                    let held = Local::Plain(argument.copy(alloc)?);
                    entries.push(NamedLocal {
                        name,
                        held,
                        fixed: false,
                    })?;
                }
                None => return Ok(Locals { entries }),
            }
        }
        Ok(Locals { entries })
    }

    /// The same locals.
    ///
    /// # Errors
    ///
    /// `AllocError` if memory runs out.
    pub fn copy(&self, alloc: Global) -> Result<Locals, AllocError>
        ensures { IfOk result (λ copied. copied ≡ self.now) }
    {
        let mut entries = Vec::new(alloc);
        for entry in self.entries.as_slice() {
            entries.push(entry.copy(alloc)?)?;
        }
        Ok(Locals { entries })
    }

    /// Declares a local, in place of an earlier one of that name. `fixed` says that nothing can be
    /// assigned to it.
    ///
    /// # Errors
    ///
    /// `AllocError` if memory runs out. The locals are as before then.
    pub fn declare(
        &mut self,
        alloc: Global,
        name: &Name,
        held: Local,
        fixed: bool,
    ) -> Result<(), AllocError>
        ensures ok { OnOk result (self.new ≡ declared name.now held fixed self.old) }
        ensures err { OnErr result (self.new ≡ self.old) }
    {
        let at = self.position(name);
        let name = name.copy(alloc)?;
        let entry = NamedLocal { name, held, fixed };
        match at {
            Some(at) => self.put_at(at, entry),
            None => self.entries.push(entry)?,
        }
        Ok(())
    }

    // Puts an entry in place of the one at an index.
    fn put_at(&mut self, at: usize, entry: NamedLocal)
        requires { at < length self.old }
        ensures { self.new ≡ slice_set self.old at entry }
    {
        self.entries[at] = entry;
    }

    /// What the local of that name holds. There is none where no local has the name.
    pub fn find(&self, name: &Name) -> Option<&Local>
        ensures { option_copied result ≡ local_named name.now self.now }
    {
        match self.position(name) {
            Some(at) => Some(&self.entries[at].held),
            None => None,
        }
    }

    /// Assigns a value to the local of that name. It takes no memory.
    ///
    /// # Errors
    ///
    /// - `UnknownName` where no local has the name.
    /// - `ReadOnly` where the local is fixed, or is the mouse.
    ///
    /// The locals are as before then.
    pub fn assign(&mut self, name: &Name, value: Value) -> Result<(), EvalFault>
        ensures answer { result ≡ assignable name.now self.old }
        ensures ok { OnOk result (self.new ≡ assigned name.now value self.old) }
        ensures err { OnErr result (self.new ≡ self.old) }
    {
        match self.position(name) {
            Some(at) => self.assign_at(at, value),
            None => Err(EvalFault::UnknownName),
        }
    }

    // Assigns a value to the local at an index, where it is not fixed.
    fn assign_at(&mut self, at: usize, value: Value) -> Result<(), EvalFault>
        requires { at < length self.old }
        ensures answer { (d : NamedLocal) → result ≡ assignable_to (Some (slice_index_or self.old at d)) }
        ensures ok { (d : NamedLocal) → OnOk result (self.new ≡ slice_set self.old at (record (slice_index_or self.old at d) { held = Plain value })) }
        ensures err { OnErr result (self.new ≡ self.old) }
    {
        if self.entries[at].is_fixed() {
            return Err(EvalFault::ReadOnly);
        }
        self.entries[at].held = Local::Plain(value);
        Ok(())
    }

    // The index of the local of that name.
    fn position(&self, name: &Name) -> Option<usize>
        ensures value { result ≡ index_named name.now self.now }
        ensures within { IfSome result (λ at. at < length self.now) }
    {
        for (at, entry) in self.entries.iter().enumerate() {
            if entry.name.is(name) {
                return Some(at);
            }
        }
        None
    }
}
