use crate::decl::Decl;
use crate::name::Name;
use crate::span::Span;
use sqlite_items::Items;

/// `import module major.minor`
#[derive(Drop)]
pub struct Import {
    pub module: Name,
    pub major: u32,
    pub minor: u32,
    /// Where the module stands.
    pub span: Span,
}

/// A document.
#[derive(Drop)]
pub struct Document {
    pub imports: Items<Import>,
    pub root: Decl,
}
