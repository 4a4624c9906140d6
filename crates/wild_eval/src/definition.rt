//! What symbols are.

ghost use Rattle.std.specs.Prelude.{◌≡◌};
ghost use Rattle.wild_eval.specs.Scope.{shown_definition};
ghost use Rattle.wild_value_spec.specs.Scope.{home};

use wild_base::Name;
use wild_expression_tree::Expression;
use wild_value_spec::Point;

/// What a symbol is.
#[derive(Clone, Copy)]
pub enum Definition<'a> {
    /// So many bytes after the start of a row of a section.
    OfRow {
        row: usize,
        offset: u64,
        section: usize,
    },
    /// An expression at a point.
    OfScript {
        value: &'a Expression,
        point: Point,
    },
}

/// A symbol and its definition.
#[derive(Clone, Copy)]
pub struct SymbolEntry<'a> {
    pub name: &'a Name,
    pub definition: Definition<'a>,
}

impl Definition<'_> {
    /// The section that it stands in.
    pub(crate) fn home(&self) -> Option<usize>
        ensures { result ≡ home (shown_definition self.now) }
    {
        match self {
            Definition::OfRow { section, .. } => Some(*section),
            Definition::OfScript { point, .. } => point.section,
        }
    }
}
