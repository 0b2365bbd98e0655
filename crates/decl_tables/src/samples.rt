//! Declarations that are written out, their faults and their tables. Each law is the contract of a function that does nothing.
ghost use Rattle.std.specs.Prelude.{◌≡◌, [], ◌∷◌, None, Some, true, false, codes};
ghost use Rattle.luau_tree.specs.Tree.{Optional, Named, no_types, more_types, Union};
ghost use Rattle.type_normal.specs.Kinds.{unknown, nil_type, number_type, string_type, table_type, function_type, other_type};
ghost use Rattle.type_normal.specs.Operations.{union};
ghost use Rattle.decl_grammar.specs.declared.mark.Mark.TheVariants.{Checked, Quiet};
ghost use Rattle.decl_tables.specs.declared.error.DeclError.TheVariants.{RepeatedName, BadForm};
ghost use Rattle.decl_tables.specs.Forms.{fault_of};
ghost use Rattle.decl_tables.specs.Samples.{bare, marked, name, no_types_of, their_signature, with_types, written};
ghost use Rattle.decl_tables.specs.Tables.{table_of, written_type};

/// A path that was declared before is repeated, at its second place; paths are compared whole.
pub fn repeated_names()
    ensures none { fault_of [] ≡ None }
    ensures others { fault_of (bare 1 (codes "f") ∷ bare 2 (codes "g") ∷ bare 3 (codes "a.f") ∷ []) ≡ None }
    ensures again { fault_of (bare 1 (codes "f") ∷ bare 2 (codes "f") ∷ []) ≡ Some (RepeatedName 2) }
    ensures later { fault_of (bare 1 (codes "f") ∷ bare 2 (codes "g") ∷ bare 3 (codes "f") ∷ bare 4 (codes "g") ∷ []) ≡ Some (RepeatedName 3) }
    ensures with_a_dot { fault_of (bare 1 (codes "a.f") ∷ bare 2 (codes "a.f") ∷ []) ≡ Some (RepeatedName 2) }
{}

/// A mark before a path twice, `require` and what begins with `require.`, and the library of another path are bad forms.
pub fn bad_forms()
    ensures marks { fault_of (marked (Checked ∷ Quiet ∷ []) 1 (codes "f") ∷ []) ≡ None }
    ensures checked_twice { fault_of (marked (Checked ∷ Quiet ∷ Checked ∷ []) 1 (codes "f") ∷ []) ≡ Some (BadForm 1) }
    ensures quiet_twice { fault_of (marked (Quiet ∷ Quiet ∷ []) 1 (codes "f") ∷ []) ≡ Some (BadForm 1) }
    ensures require { fault_of (bare 17 (codes "require") ∷ []) ≡ Some (BadForm 17) }
    ensures in_require { fault_of (bare 1 (codes "require.f") ∷ []) ≡ Some (BadForm 1) }
    ensures longer_name { fault_of (bare 1 (codes "required") ∷ bare 2 (codes "a.require") ∷ []) ≡ None }
    ensures library { fault_of (bare 1 (codes "a.f") ∷ bare 2 (codes "a") ∷ []) ≡ Some (BadForm 2) }
    ensures library_before { fault_of (bare 1 (codes "a") ∷ bare 2 (codes "a.f") ∷ []) ≡ Some (BadForm 1) }
    ensures beginning { fault_of (bare 1 (codes "a") ∷ bare 2 (codes "ab.f") ∷ []) ≡ None }
{}

/// The first path with a fault counts; at one path its form counts first.
pub fn first_faults()
    ensures repeated_first { fault_of (bare 1 (codes "f") ∷ bare 2 (codes "f") ∷ bare 3 (codes "require") ∷ []) ≡ Some (RepeatedName 2) }
    ensures bad_first { fault_of (bare 1 (codes "require") ∷ bare 2 (codes "f") ∷ bare 3 (codes "f") ∷ []) ≡ Some (BadForm 1) }
    ensures both { fault_of (bare 1 (codes "f") ∷ marked (Quiet ∷ Quiet ∷ []) 2 (codes "f") ∷ []) ≡ Some (BadForm 2) }
{}

/// Besides the names that mean a type everywhere, three mean one in a declaration file.
pub fn written_types()
    ensures table { written_type (name (codes "table")) ≡ table_type }
    ensures func { written_type (name (codes "func")) ≡ function_type }
    ensures other { written_type (name (codes "other")) ≡ other_type }
    ensures any { written_type (name (codes "any")) ≡ unknown }
    ensures number { written_type (name (codes "number")) ≡ number_type }
    ensures unnamed { written_type (name (codes "T")) ≡ unknown }
    ensures optional { written_type (written (Optional (name (codes "string")))) ≡ union string_type nil_type }
    ensures either { written_type (written (Union (more_types (name (codes "table")) (more_types (name (codes "other")) no_types)))) ≡ union table_type other_type }
{}

/// A table has each path with its signature, in the order of the paths' bytes.
pub fn tables()
    ensures none { table_of [] ≡ [] }
    ensures types { table_of (with_types 1 ∷ []) ≡ (codes "f", their_signature) ∷ [] }
    ensures marks { table_of (marked (Quiet ∷ Checked ∷ []) 1 (codes "f") ∷ []) ≡ (codes "f", no_types_of true true) ∷ [] }
    ensures order { table_of (bare 1 (codes "g") ∷ with_types 2 ∷ marked (Quiet ∷ []) 3 (codes "a.g") ∷ [])
        ≡ (codes "a.g", no_types_of false true) ∷ (codes "f", their_signature) ∷ (codes "g", no_types_of false false) ∷ [] }
{}
