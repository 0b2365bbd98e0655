//! Declarations of the table, each looked up by its path.

ghost use Rattle.std.specs.Prelude.{◌≡◌, [], ◌∷◌, true, false, Some, None, codes};
ghost use Rattle.builtin_table.specs.Standard.{declaration};
ghost use Rattle.builtin_table.specs.declared.table.Kinds.TheVariants.{Unknown, Number, Text, Boolean, Table, Function, OptionalNumber, OptionalText, OptionalBoolean, OptionalFunction, TableOrOther};

/// Checked and quiet builtins.
#[tactic(auto, unfolding(crate::specs::Standard::standard, crate::specs::Standard::declaration))]
pub fn checked_and_quiet()
    ensures abs { declaration (codes "math.abs") ≡ Some (record { params = Number ∷ []; rest = None; results = Number ∷ []; more = None; checked = true; quiet = true }) }
    ensures max { declaration (codes "math.max") ≡ Some (record { params = Number ∷ []; rest = Some Number; results = Number ∷ []; more = None; checked = true; quiet = true }) }
    ensures byte { declaration (codes "string.byte") ≡ Some (record { params = Text ∷ OptionalNumber ∷ OptionalNumber ∷ []; rest = None; results = []; more = Some Number; checked = true; quiet = true }) }
    ensures char_of_utf8 { declaration (codes "utf8.char") ≡ declaration (codes "string.char") }
    ensures find { declaration (codes "string.find") ≡ Some (record { params = Text ∷ Text ∷ OptionalNumber ∷ OptionalBoolean ∷ []; rest = None; results = OptionalNumber ∷ OptionalNumber ∷ []; more = Some Unknown; checked = true; quiet = true }) }
    ensures clock { declaration (codes "os.clock") ≡ Some (record { params = []; rest = None; results = Number ∷ []; more = None; checked = true; quiet = true }) }
    ensures pairs { declaration (codes "pairs") ≡ Some (record { params = TableOrOther ∷ []; rest = None; results = Function ∷ Unknown ∷ Unknown ∷ []; more = None; checked = true; quiet = true }) }
{}

/// Builtins with one mark, or none.
#[tactic(auto, unfolding(crate::specs::Standard::standard, crate::specs::Standard::declaration))]
pub fn one_mark_or_none()
    ensures gsub { declaration (codes "string.gsub") ≡ Some (record { params = Text ∷ Text ∷ Unknown ∷ OptionalNumber ∷ []; rest = None; results = Text ∷ Number ∷ []; more = None; checked = true; quiet = false }) }
    ensures sort { declaration (codes "table.sort") ≡ Some (record { params = Table ∷ OptionalFunction ∷ []; rest = None; results = []; more = None; checked = true; quiet = false }) }
    ensures typ { declaration (codes "type") ≡ Some (record { params = Unknown ∷ []; rest = None; results = Text ∷ []; more = None; checked = false; quiet = true }) }
    ensures error { declaration (codes "error") ≡ Some (record { params = []; rest = Some Unknown; results = []; more = None; checked = false; quiet = false }) }
    ensures catch { declaration (codes "pcall") ≡ Some (record { params = []; rest = Some Unknown; results = Boolean ∷ []; more = Some Unknown; checked = false; quiet = false }) }
{}

/// Names that are not declared.
#[tactic(auto, unfolding(crate::specs::Standard::standard, crate::specs::Standard::declaration))]
pub fn not_declared()
    ensures field { declaration (codes "math.none") ≡ None }
    ensures library { declaration (codes "math") ≡ None }
    ensures loader { declaration (codes "require") ≡ None }
    ensures front { declaration (codes "math.ab") ≡ None }
    ensures nothing { declaration [] ≡ None }
{}
