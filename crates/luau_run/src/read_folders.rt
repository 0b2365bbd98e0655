//! What holds of read folders.

ghost use Rattle.std.specs.Prelude.{◌≡◌, ℕ, slice_get, Some};
ghost use Rattle.luau_run.specs.ReadModule.{ReadModule};
ghost use Rattle.luau_run.specs.Program.{Program};
ghost use Rattle.luau_run.specs.ReadFolder.{IsReadFolder, Requires};

/// In a read folder a home tells the module, no home is 0, and no module requires itself.
pub fn homes_tell_modules()
    ensures home { (program : Program) (i j : ℕ) (one other : ReadModule) → IsReadFolder program
        → slice_get program.modules i ≡ Some one → slice_get program.modules j ≡ Some other
        → one.home ≡ other.home → i ≡ j }
    ensures not_zero { (program : Program) (i : ℕ) (one : ReadModule) → IsReadFolder program
        → slice_get program.modules i ≡ Some one → one.home ≡ 0 → ⊥ }
    ensures not_itself { (program : Program) (at : ℕ) → IsReadFolder program → Requires program at at → ⊥ }
{}
