use qml_ast::{Expr, Name, Path, Span, Stmt};
use shared_value::Shared;
use sqlite_items::{Boxed, Items};
use type_table::{BuiltIn, Initial, Kind};

/// What an object is made of first, before its own declaration adds to it.
#[cycle(component)]
#[derive(Drop)]
pub enum Base {
    /// A type of the engine.
    BuiltIn(BuiltIn),
    /// What a document declares.
    Document(Shared<ComponentType>),
}

/// Where an object stands in the object round it.
#[derive(Drop)]
pub enum Role {
    /// It has no object round it.
    Root,
    /// It is a child.
    Child,
    /// It is the value of the property of that path.
    Value(Path),
}

/// A declared property.
#[derive(Drop)]
pub struct SlotDecl {
    /// The property's name.
    pub name: Name,
    /// What it holds.
    pub kind: Kind,
    /// What it holds at first.
    pub initial: Initial,
    /// Whether it was declared `readonly`.
    pub read_only: bool,
    /// Where its name stands.
    pub span: Span,
}

/// A declared signal.
#[derive(Drop)]
pub struct SignalDecl {
    /// The signal's name.
    pub name: Name,
    /// The names of its parameters, with what each of them holds.
    pub params: Items<(Name, Kind)>,
    /// Where its name stands.
    pub span: Span,
}

/// A declared function.
#[derive(Drop)]
pub struct MethodDecl {
    /// The function's name.
    pub name: Name,
    /// The names of its parameters.
    pub params: Items<Name>,
    /// Its statements.
    pub body: Shared<Items<Stmt>>,
    /// Where its name stands.
    pub span: Span,
}

/// An expression to which a slot is bound when the object is made.
#[derive(Drop)]
pub struct InitDecl {
    /// The slot's path.
    pub path: Path,
    /// The expression.
    pub expr: Shared<Expr>,
    /// Where the path stands, which for a declared property is its name.
    pub span: Span,
}

/// What runs when a signal comes.
#[derive(Drop)]
pub struct HandlerDecl {
    /// The handler's path, as `onClicked` or `Component.onCompleted`.
    pub path: Path,
    /// The statement that runs.
    pub body: Shared<Boxed<Stmt>>,
    /// Where the path stands.
    pub span: Span,
}

/// An object that a component declares. What it declares stands in the order of the source.
#[cycle(component)]
#[derive(Drop)]
pub struct ObjectDecl {
    /// What it is made of first.
    pub base: Base,
    /// The object round it, by its number in the component; none for the root alone.
    pub owner: Option<u32>,
    /// Where it stands in that object.
    pub role: Role,
    /// Its name for the component's expressions.
    pub id: Option<Name>,
    /// Its declared properties.
    pub slots: Items<SlotDecl>,
    /// Its declared signals.
    pub signals: Items<SignalDecl>,
    /// Its functions.
    pub methods: Items<MethodDecl>,
    /// What its slots are bound to.
    pub inits: Items<InitDecl>,
    /// Its handlers.
    pub handlers: Items<HandlerDecl>,
    /// What a `Component` declares; none for each other object.
    pub inner: Option<Shared<ComponentType>>,
    /// Where its type's name stands.
    pub span: Span,
}

/// How much one making of a component makes. Each number is capped at the greatest of its type.
#[derive(Clone, Copy)]
pub struct Sizes {
    /// The objects.
    pub objects: u64,
    /// The contexts: one for the component, and those of the documents on whose types its objects stand.
    pub contexts: u64,
    /// The levels on which the objects stand: 1 where the root owns no object, and one more for each object
    /// that owns the one before.
    pub levels: u32,
}

/// What a document declares, or an inline `Component` in it: the objects that are made together, with one
/// another's ids in sight.
#[cycle(component)]
#[derive(Drop)]
pub struct ComponentType {
    /// The document's file, for the places of notes.
    pub file: Name,
    /// The objects, each before those in it, and those in the order of the source. What an inline
    /// `Component` declares is not among them.
    pub objects: Items<ObjectDecl>,
    /// How much one making of it makes.
    pub sizes: Sizes,
}
