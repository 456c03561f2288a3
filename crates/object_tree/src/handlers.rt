ghost use Rattle.std.specs.Prelude.{◌≡◌, length, option_copied, option_map, slice_get};
ghost use Rattle.type_table.specs.Names.{signals};
ghost use Rattle.expr_eval.specs.Meanings.{method_of};
ghost use Rattle.object_tree.specs.Layers.{decl_of};
ghost use Rattle.object_tree.specs.Handlers.{frame_in, handler_seen, handlers_in, handler_of, handlers_of, handler_at, signals_in, declared_signals, signal_decl_of, signal_name_at, signal_params_at, signal_arity_at, method_seen, methods_in, method_in, declared_methods, method_numbered, method_at, method_arity_at, returned, callable_at};

use crate::instance::{Instance, Layer};
use crate::objects::Objects;
use expr_eval::{Frame, Method};
use qml_ast::{Expr, Name, Path, Span, Stmt};
use qml_types::{ComponentType, HandlerDecl, MethodDecl, SignalDecl};
use shared_value::Shared;
use sqlite_items::{Boxed, Items};
use type_table::{BuiltIn, Kind, method_count, signal_args, signal_count};

/// A handler of an object.
#[derive(Clone, Copy)]
pub struct Handler<'a> {
    /// Its path, as `onClicked` or `Component.onCompleted`.
    pub path: &'a Path,
    /// The statement that runs.
    pub body: &'a Shared<Boxed<Stmt>>,
    /// Where the names in it are looked up.
    pub frame: Frame,
    /// The component that declares it.
    pub component: &'a Shared<ComponentType>,
    /// Where its path stands in the component's file.
    pub span: Span,
}

/// A method that a document declares of an object.
#[derive(Clone, Copy)]
pub struct Body<'a> {
    /// The names of its parameters.
    pub params: &'a [Name],
    /// Its statements.
    pub body: &'a Shared<Items<Stmt>>,
    /// Where the names in them are looked up.
    pub frame: Frame,
}

impl Layer {
    // Where the names in what it declares of an object are looked up.
    fn frame(&self, scope: u64) -> Frame
        ensures { result ≡ frame_in scope self.now }
    {
        Frame {
            context: self.context,
            scope,
        }
    }

    /// The handlers that it declares.
    pub(crate) fn handlers(&self) -> &[HandlerDecl]
        ensures { result.now ≡ handlers_in (decl_of self.now) }
    {
        match self.decl() {
            Some(decl) => decl.handlers.as_slice(),
            None => &[],
        }
    }

    // The signals that it declares.
    fn signals(&self) -> &[SignalDecl]
        ensures { result.now ≡ signals_in (decl_of self.now) }
    {
        match self.decl() {
            Some(decl) => decl.signals.as_slice(),
            None => &[],
        }
    }

    // The methods that it declares.
    fn methods(&self) -> &[MethodDecl]
        ensures { result.now ≡ methods_in (decl_of self.now) }
    {
        match self.decl() {
            Some(decl) => decl.methods.as_slice(),
            None => &[],
        }
    }

    /// A handler that it declares of an object.
    pub(crate) fn handler<'a>(&'a self, serial: u64, decl: &'a HandlerDecl) -> Handler<'a>
        ensures { handler_seen result ≡ handler_of serial self.now decl.now }
    {
        Handler {
            path: &decl.path,
            body: &decl.body,
            frame: self.frame(serial),
            component: &self.component,
            span: decl.span,
        }
    }

    // A method that it declares of an object.
    fn method<'a>(&self, serial: u64, decl: &'a MethodDecl) -> Body<'a>
        ensures { method_seen result ≡ method_in serial self.now decl.now }
    {
        Body {
            params: decl.params.as_slice(),
            body: &decl.body,
            frame: self.frame(serial),
        }
    }
}

impl Instance {
    // The handler with that number of handlers before it.
    fn handler(&self, serial: u64, index: usize) -> Option<Handler<'_>>
        ensures { option_map handler_seen result ≡ slice_get (handlers_of serial self.now) index }
    {
        let mut left = index;
        for layer in self.layers.as_slice() {
            let handlers = layer.handlers();
            if left < handlers.len() {
                return Some(layer.handler(serial, &handlers[left]));
            }
            left -= handlers.len();
        }
        None
    }

    // The declared signal with that number of declared ones before it.
    fn declared_signal(&self, index: usize) -> Option<&SignalDecl>
        ensures { option_copied result ≡ slice_get (declared_signals self.now.layers) index }
    {
        let mut left = index;
        for layer in self.layers.as_slice() {
            let signals = layer.signals();
            if left < signals.len() {
                return Some(&signals[left]);
            }
            left -= signals.len();
        }
        None
    }

    // The declared method with that number of declared ones before it.
    fn declared_method(&self, serial: u64, index: usize) -> Option<Body<'_>>
        ensures { option_map method_seen result ≡ slice_get (declared_methods serial self.now.layers) index }
    {
        let mut left = index;
        for layer in self.layers.as_slice() {
            let methods = layer.methods();
            if left < methods.len() {
                return Some(layer.method(serial, &methods[left]));
            }
            left -= methods.len();
        }
        None
    }

    // A signal that a document declares.
    fn signal_decl(&self, number: u32) -> Option<&SignalDecl>
        ensures { option_copied result ≡ signal_decl_of number self.now }
    {
        let count = u32::from(signal_count(self.built_in));
        if number < count {
            return None;
        }
        self.declared_signal((number - count) as usize)
    }

    // A method that a document declares.
    fn method(&self, serial: u64, number: u32) -> Option<Body<'_>>
        ensures { option_map method_seen result ≡ method_numbered serial number self.now }
    {
        let count = u32::from(method_count(self.built_in));
        if number < count {
            return None;
        }
        self.declared_method(serial, (number - count) as usize)
    }
}

// The name of a built-in type's signal.
fn built_in_signal(built_in: BuiltIn, number: u32) -> Option<&'static str>
    ensures { option_copied result ≡ slice_get (signals built_in) number }
{
    match (built_in, number) {
        (BuiltIn::MouseArea, 0) => Some("pressed"),
        (BuiltIn::MouseArea, 1) => Some("released"),
        (BuiltIn::MouseArea, 2) => Some("clicked"),
        (BuiltIn::Timer, 0) => Some("triggered"),
        (BuiltIn::Loader, 0) => Some("loaded"),
        _ => None,
    }
}

// What these statements return, if they are one `return` with an expression.
fn returned(body: &[Stmt]) -> Option<&Expr>
    ensures { option_copied result ≡ returned body.now }
{
    match body {
        [Stmt::Return(Some(value))] => Some(value),
        _ => None,
    }
}

impl Objects {
    /// The handler of an object that has that number of its handlers before it. The innermost document's come
    /// first, and those of one document in its order. None where the object is not live, and where it has no more
    /// handlers.
    pub fn handler(&self, serial: u64, index: u32) -> Option<Handler<'_>>
        ensures { option_map handler_seen result ≡ handler_at serial index self.now }
    {
        self.objects.get(serial)?.handler(serial, index as usize)
    }

    /// The method of that number of an object. None where the object is not live, where it has no such method,
    /// and where the method is one of its built-in type, which have the first numbers.
    pub fn method(&self, of: u64, number: u32) -> Option<Body<'_>>
        ensures { option_map method_seen result ≡ method_at of number self.now }
    {
        self.objects.get(of)?.method(of, number)
    }

    /// The same method as expressions call it. None too where its body is anything but one `return` with an
    /// expression.
    pub fn callable(&self, of: u64, number: u32) -> Option<Method<'_>>
        ensures { option_map method_of result ≡ callable_at of number self.now }
    {
        let method = self.method(of, number)?;
        Some(Method {
            frame: method.frame,
            params: method.params,
            body: returned(method.body.get().as_slice())?,
        })
    }

    /// How many arguments the method of that number takes. Those of built-in types take none. None where the
    /// object is not live or has no such method.
    pub fn method_arity(&self, of: u64, number: u32) -> Option<usize>
        ensures { result ≡ method_arity_at of number self.now }
    {
        let instance = self.objects.get(of)?;
        if number < u32::from(method_count(instance.built_in)) {
            return Some(0);
        }
        Some(instance.method(of, number)?.params.len())
    }

    /// The name of the signal of that number, as documents spell it. Those of the built-in type have the first
    /// numbers. None where the object is not live or has no such signal.
    pub fn signal_name(&self, of: u64, number: u32) -> Option<&str>
        ensures { option_copied result ≡ signal_name_at of number self.now }
    {
        let instance = self.objects.get(of)?;
        if number < u32::from(signal_count(instance.built_in)) {
            return built_in_signal(instance.built_in, number);
        }
        Some(instance.signal_decl(number)?.name.as_str())
    }

    /// The parameters of the signal of that number, with what each of them holds. None where the object is not
    /// live, where it has no such signal, and where the signal is one of its built-in type.
    pub fn params(&self, of: u64, signal: u32) -> Option<&[(Name, Kind)]>
        ensures { option_copied result ≡ signal_params_at of signal self.now }
    {
        Some(self.objects.get(of)?.signal_decl(signal)?.params.as_slice())
    }

    /// How many arguments the signal of that number has. None where the object is not live or has no such signal.
    pub fn signal_arity(&self, of: u64, number: u32) -> Option<usize>
        ensures { result ≡ signal_arity_at of number self.now }
    {
        let instance = self.objects.get(of)?;
        if number < u32::from(signal_count(instance.built_in)) {
            return Some(signal_args(instance.built_in, number as u16) as usize);
        }
        Some(instance.signal_decl(number)?.params.len())
    }
}
