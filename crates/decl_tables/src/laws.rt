//! What holds of every list of declarations. Each law is the contract of a function that does nothing.
ghost use Rattle.std.specs.Prelude.{◌≡◌, List, Contains, None, Some, map, false};
ghost use Rattle.std.specs.List.{list_any};
ghost use Rattle.luau_tree.specs.Sorted.{IsAscending};
ghost use Rattle.builtin_table.specs.Paths.{is_kept_back, lies_in};
ghost use Rattle.type_decl.specs.Signatures.{declaration};
ghost use Rattle.decl_grammar.specs.Declarations.{Declaration};
ghost use Rattle.decl_tables.specs.Forms.{fault_of, paths_of};
ghost use Rattle.decl_tables.specs.Tables.{signature_of, table_of};

/// The paths of a table stand in the order of their bytes, each once.
pub fn tables_are_in_order()
    ensures { (ds : List Declaration) → IsAscending (map (λ entry. entry.0) (table_of ds)) }
{}

/// Where declarations have no fault, each path has the signature of its declaration, none is `require` or begins with
/// `require.`, and none is the library of another.
pub fn tables_have_what_is_declared()
    ensures declared { (ds : List Declaration) → fault_of ds ≡ None → (d : Declaration) → Contains ds d → declaration d.path (table_of ds) ≡ Some (signature_of d) }
    ensures kept_back { (ds : List Declaration) → fault_of ds ≡ None → list_any is_kept_back (paths_of ds) ≡ false }
    ensures libraries { (ds : List Declaration) → fault_of ds ≡ None → list_any (λ library. list_any (λ path. lies_in path library) (paths_of ds)) (paths_of ds) ≡ false }
{}
