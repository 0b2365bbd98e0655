//! What holds of every module. The laws are the contracts of functions that do nothing.
ghost use Rattle.std.specs.Prelude.{ℕ, List, Option};
ghost use Rattle.std.specs.List.{AllByRecursion};
ghost use Rattle.luau_tree.specs.Tree.{Block};
ghost use Rattle.type_arena.specs.Term.{Term};
ghost use Rattle.type_decl.specs.Signatures.{Signature, standard_table};
ghost use Rattle.annotations.specs.Annotated.{annotation};
ghost use Rattle.module_reading.specs.ReadRules.{rules_by};
ghost use Rattle.luau_tree.specs.declared.names.ExprId.{ExprId};
ghost use Rattle.luau_scope.specs.declared.reading.LocalInfo.{LocalInfo};
ghost use Rattle.luau_scope.specs.declared.reading.RequireSite.{RequireSite};
ghost use Rattle.luau_scope.specs.declared.reading.Use.{Use};
ghost use Rattle.report_rules.specs.After.{summary};
ghost use Rattle.report_rules.specs.Rules.{Rules};
ghost use Rattle.report_rules.specs.Seen.{seen_module, type_at};
ghost use Rattle.normal_rules.specs.Normal.{AreNormalSignatures, HaveNormalTypes, IsNormal, IsSeenNormal};

/// Where the types that the rules of a module have are in normal form, so are the types of its expressions and of what it gives.
pub fn types_by_rules_are_normal()
    ensures seen { (rules : Rules) → HaveNormalTypes rules → AllByRecursion IsSeenNormal (seen_module rules) }
    ensures typed { (rules : Rules) (id : ℕ) → HaveNormalTypes rules → IsNormal (type_at (seen_module rules) id) }
    ensures summary { (rules : Rules) → HaveNormalTypes rules → IsNormal (summary rules) }
{}

/// The types that are written for parameters are in normal form, and so are those that the rules of a module have, where those of the
/// declared builtins and of what static requires give are.
pub fn rules_of_modules_have_normal_types()
    ensures written { (block : Block) (function index : ℕ) → IsNormal (annotation block function index) }
    ensures all { (uses : List (ExprId × Use)) (locals : List LocalInfo) (sites : List RequireSite) (home : ℕ) (block : Block)
        (leads : List ℕ → Option ℕ) (table : List (List ℕ × Signature)) (import : ℕ → Term)
        → AreNormalSignatures table → ((id : ℕ) → IsNormal (import id))
        → HaveNormalTypes (rules_by uses locals sites home block leads table import) }
{}

/// The types of the standard table are in normal form.
pub fn the_standard_table_is_normal()
    ensures { AreNormalSignatures standard_table }
{}
