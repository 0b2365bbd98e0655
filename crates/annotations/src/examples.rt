//! Written types, and what they mean.

ghost use Rattle.std.specs.Prelude.{◌≡◌, [], ◌∷◌, true, false, Some, codes};
ghost use Rattle.luau_tree.specs.declared.names.Access.TheVariants.{Both, Read, Write};
ghost use Rattle.luau_tree.specs.Tree.{NilType, BoolType, StrType, Named, Typeof, Array, Func, Union, Meet, Optional, Pack, Variadic, GenericPack, the_expr, TrueExpr, no_types, no_gens, Do, Repeat, LocalFunction, the_prop, Indexer};
ghost use Rattle.type_arena.specs.Term.{never, no_fields, more_fields};
ghost use Rattle.type_normal.specs.Operations.{union};
ghost use Rattle.type_normal.specs.Kinds.{unknown, nil_type, true_type, false_type, boolean_type, number_type, string_type, text_type, function_type, other_type, table_type, field_is, row_type};
ghost use Rattle.annotations.specs.Examples.{nowhere, written, name, types, prop, table, x_of, alone, seeing, texts, nested, function, alias, stats, param};

/// Names that mean a type by themselves, and names that don't.
pub fn own_names()
    ensures boolean { seeing [] (codes "boolean") ≡ boolean_type }
    ensures number { seeing [] (codes "number") ≡ number_type }
    ensures string { seeing [] (codes "string") ≡ string_type }
    ensures never { seeing [] (codes "never") ≡ never }
    ensures any { seeing [] (codes "any") ≡ unknown }
    ensures whole { seeing [] (codes "unknown") ≡ unknown }
    ensures thread { seeing [] (codes "thread") ≡ other_type }
    ensures buffer { seeing [] (codes "buffer") ≡ other_type }
    ensures vector { seeing [] (codes "vector") ≡ other_type }
    ensures other { seeing [] (codes "T") ≡ unknown }
    ensures table { seeing [] (codes "table") ≡ unknown }
{}

/// Names of aliases: the last counts, and each sees those before it alone.
pub fn aliases()
    ensures alias { seeing ((codes "T", name (codes "string")) ∷ []) (codes "T") ≡ string_type }
    ensures in_place_of_own { seeing ((codes "number", name (codes "string")) ∷ []) (codes "number") ≡ string_type }
    ensures not_of_unknown { seeing ((codes "unknown", name (codes "string")) ∷ []) (codes "unknown") ≡ unknown }
    ensures any { seeing ((codes "any", name (codes "string")) ∷ []) (codes "any") ≡ string_type }
    ensures last { seeing ((codes "T", name (codes "string")) ∷ (codes "T", name (codes "number")) ∷ []) (codes "T") ≡ number_type }
    ensures earlier { seeing ((codes "T", name (codes "string")) ∷ (codes "U", written (Optional (name (codes "T")))) ∷ []) (codes "U") ≡ union string_type nil_type }
    ensures later { seeing ((codes "U", name (codes "T")) ∷ (codes "T", name (codes "string")) ∷ []) (codes "U") ≡ unknown }
    ensures own { seeing ((codes "T", table (prop Both (codes "next") (name (codes "T")) ∷ [])) ∷ []) (codes "T") ≡ table_type }
    ensures of_one_before { seeing ((codes "T", name (codes "string")) ∷ (codes "T", written (Optional (name (codes "T")))) ∷ []) (codes "T") ≡ union string_type nil_type }
    ensures with_prefix { alone (Named (Some (codes "T")) (codes "U") no_types) ≡ unknown }
{}

/// Types of one value, functions, and forms that mean unknown.
pub fn forms()
    ensures nil { alone NilType ≡ nil_type }
    ensures truth { alone (BoolType true) ≡ true_type }
    ensures falsity { alone (BoolType false) ≡ false_type }
    ensures text { alone (StrType (codes "a")) ≡ text_type (codes "a") }
    ensures function { alone (Func no_gens no_types (name (codes "number"))) ≡ function_type }
    ensures of_expression { alone (Typeof (the_expr 0 nowhere TrueExpr)) ≡ unknown }
    ensures with_arguments { alone (Named None (codes "number") (types (name (codes "string") ∷ []))) ≡ unknown }
    ensures pack { alone (Pack no_types) ≡ unknown }
    ensures variadic { alone (Variadic (name (codes "number"))) ≡ unknown }
    ensures generic_pack { alone (GenericPack (codes "T")) ≡ unknown }
{}

/// Tables and their properties.
pub fn tables()
    ensures array { alone (Array (name (codes "number"))) ≡ table_type }
    ensures bare { param (function 0 [] (table []) ∷ []) ≡ table_type }
    ensures one { param (function 0 [] (x_of (name (codes "string"))) ∷ []) ≡ field_is (codes "x") string_type }
    ensures read { param (function 0 [] (table (prop Read (codes "x") (name (codes "string")) ∷ [])) ∷ []) ≡ field_is (codes "x") string_type }
    ensures write { param (function 0 [] (table (prop Write (codes "x") (name (codes "string")) ∷ [])) ∷ []) ≡ table_type }
    ensures last { param (function 0 [] (table (prop Both (codes "x") (name (codes "string")) ∷ prop Both (codes "x") (name (codes "number")) ∷ [])) ∷ []) ≡ field_is (codes "x") number_type }
    ensures last_readable { param (function 0 [] (table (prop Both (codes "x") (name (codes "string")) ∷ prop Write (codes "x") (name (codes "number")) ∷ [])) ∷ []) ≡ field_is (codes "x") string_type }
    ensures indexer { param (function 0 [] (table (the_prop Both (Indexer (name (codes "string"))) (name (codes "number")) ∷ prop Both (codes "x") (name (codes "string")) ∷ [])) ∷ []) ≡ field_is (codes "x") string_type }
    ensures sorted { param (function 0 [] (table (prop Both (codes "y") (name (codes "string")) ∷ prop Both (codes "x") (name (codes "number")) ∷ [])) ∷ []) ≡ row_type false (more_fields (codes "x") number_type (more_fields (codes "y") string_type no_fields)) }
    ensures any { param (function 0 [] (x_of (name (codes "any"))) ∷ []) ≡ table_type }
    ensures nothing { param (function 0 [] (x_of (name (codes "never"))) ∷ []) ≡ never }
    ensures deep { param (function 0 [] (nested 8) ∷ []) ≡ field_is (codes "x") (param (function 0 [] (nested 7) ∷ [])) }
    ensures too_deep { param (function 0 [] (nested 9) ∷ []) ≡ table_type }
{}

/// Unions and meets, each cut where it is made.
pub fn unions_and_meets()
    ensures optional { alone (Optional (name (codes "string"))) ≡ union string_type nil_type }
    ensures either { alone (Union (types (name (codes "string") ∷ name (codes "number") ∷ written NilType ∷ []))) ≡ union string_type (union number_type nil_type) }
    ensures both { alone (Meet (types (name (codes "string") ∷ written (StrType (codes "a")) ∷ []))) ≡ text_type (codes "a") }
    ensures rows { alone (Meet (types (x_of (name (codes "string")) ∷ table (prop Both (codes "y") (name (codes "number")) ∷ []) ∷ []))) ≡ row_type false (more_fields (codes "x") string_type (more_fields (codes "y") number_type no_fields)) }
    ensures none { alone (Meet (types (name (codes "string") ∷ name (codes "number") ∷ []))) ≡ never }
    ensures too_many { alone (Union (types (texts 17))) ≡ table_type }
    ensures cut_on_the_way { alone (Meet (types (written (Union (types (texts 17))) ∷ x_of (name (codes "number")) ∷ []))) ≡ field_is (codes "x") number_type }
    ensures cut_in_property { alone (Meet (types (x_of (written (Union (types (texts 17)))) ∷ []))) ≡ field_is (codes "x") table_type }
{}

/// Parameters of functions in modules.
pub fn parameters()
    ensures before { param (alias (codes "T") [] (name (codes "string")) ∷ function 0 [] (name (codes "T")) ∷ []) ≡ string_type }
    ensures behind { param (function 0 [] (name (codes "T")) ∷ alias (codes "T") [] (name (codes "string")) ∷ []) ≡ unknown }
    ensures with_parameters { param (alias (codes "T") (codes "U" ∷ []) (name (codes "string")) ∷ function 0 [] (name (codes "T")) ∷ []) ≡ unknown }
    ensures own_generic { param (function 0 (codes "number" ∷ []) (name (codes "number")) ∷ []) ≡ unknown }
    ensures own_block { param (Do (stats (alias (codes "T") [] (name (codes "string")) ∷ [])) ∷ function 0 [] (name (codes "T")) ∷ []) ≡ unknown }
    ensures inner_block { param (alias (codes "T") [] (name (codes "string")) ∷ Do (stats (alias (codes "T") [] (name (codes "number")) ∷ function 0 [] (name (codes "T")) ∷ [])) ∷ []) ≡ number_type }
    ensures after_inner_block { param (alias (codes "T") [] (name (codes "string")) ∷ Do (stats (alias (codes "T") [] (name (codes "number")) ∷ [])) ∷ function 0 [] (name (codes "T")) ∷ []) ≡ string_type }
    ensures another { param (function 1 [] (name (codes "string")) ∷ []) ≡ unknown }
{}
