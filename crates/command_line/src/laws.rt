//! A law: a function that does nothing when it runs, and whose contract is a fact about the definitions.

ghost use Rattle.std.specs.Prelude.{◌≡◌, ℕ, List, [], ◌∷◌, codes};
ghost use Rattle.clap.specs.Words.{fault_of};
ghost use Rattle.clap.specs.declared.error.kind.ErrorKind.TheVariants.{DisplayVersion};
ghost use Rattle.command_line.specs.Words.{desk_app};

/// The law: the one fault of `--version` and of `-V`, behind any name of the program, is that the version is asked for. So they
/// are refused with `clap`'s text of it, or for want of memory.
pub fn version_law()
    ensures long { (name : List ℕ) → fault_of desk_app (name ∷ codes "--version" ∷ []) ≡ DisplayVersion ∷ [] }
    ensures short { (name : List ℕ) → fault_of desk_app (name ∷ codes "-V" ∷ []) ≡ DisplayVersion ∷ [] }
{}
