use expr_eval::{Frame, Locals};
use qml_ast::{Span, Stmt};
use qml_types::ComponentType;
use shared_value::Shared;
use sqlite_items::{Boxed, Items};

/// What runs where a handler or a method is called.
#[derive(Drop)]
pub enum Body {
    /// A handler's statement.
    Handler(Shared<Boxed<Stmt>>),
    /// A method's statements.
    Method(Shared<Items<Stmt>>),
}

/// Where something runs.
#[derive(Drop)]
pub struct Site {
    /// Where names are looked up.
    pub frame: Frame,
    /// The component in whose document the place of its notes stands.
    pub component: Shared<ComponentType>,
    /// Where notes stand: at the path of the handler that runs, or that called the method.
    pub span: Span,
}

/// A handler or a method that is to run.
#[derive(Drop)]
pub struct Job {
    pub site: Site,
    pub body: Body,
    /// The parameters with their arguments.
    pub locals: Locals,
}
