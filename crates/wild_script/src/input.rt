//! What a script says of an input, and who is told.

/// What an argument names.
#[derive(Clone, Copy, Debug, PartialEq, Eq)]
pub enum InputKind {
    File,
    /// An argument that begins with `-l`. Its name is what follows.
    Lib,
}

/// How an input is wanted.
#[derive(Clone, Copy, Debug, PartialEq, Eq)]
pub struct Modifiers {
    /// Only where it is needed.
    pub as_needed: bool,
}

/// Why a walk over inputs ended early.
#[derive(Clone, Copy, Debug, PartialEq, Eq)]
pub enum InputFault {
    /// The visitor wanted no more.
    Stopped,
    /// The argument with this number, counted from 0 up to 2 ^ 64 - 1, is not UTF-8.
    NotUtf8 { index: usize },
}

/// What is shown the inputs of a script.
pub trait InputVisitor {
    ghost use Rattle.std.specs.Prelude.{Bool, ℕ, List};
    ghost use Rattle.wild_script.specs.declared.input.InputKind.{InputKind};
    ghost use Rattle.wild_script.specs.declared.input.Modifiers.{Modifiers};

    /// What a visit makes of a visitor, by what it is shown and what it answers.
    ghost step: { Self → InputKind → List ℕ → Modifiers → Bool → Self → Type 0 };

    /// Whether it wants to be shown more.
    fn visit(&mut self, kind: InputKind, name: &str, modifiers: Modifiers) -> bool
        ensures { step self.old kind name.now modifiers result self.new };
}
