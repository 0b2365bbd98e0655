//! Laws of the definitions: what would be false if a definition were wrong.
ghost use Rattle.std.specs.Prelude.{◌≡◌, ◌∷◌, [], List, None, Some, map, option_map};
ghost use Rattle.std.specs.List.{range_with_len};
ghost use Rattle.luau_tree.specs.Lists.{arm_list, bind_list, choice_list, expr_list, gen_list, item_list, prop_list, stat_list, type_list};
ghost use Rattle.luau_tree.specs.Nodes.{binds_in, bind_name, bodies_in, body_number, expr_at, expr_number, exprs_in};
ghost use Rattle.luau_tree.specs.Sample.{sample};
ghost use Rattle.luau_tree.specs.View.{view_arm, view_arms, view_bind, view_binds, view_choice, view_choices, view_expr, view_exprs, view_gen, view_gens, view_item, view_items, view_prop, view_props, view_stat, view_stats, view_type, view_types};

use crate::tree::{Arm, Bind, Choice, Expr, Gen, Item, Prop, Stat, TypeSyntax};

/// The plain tree of some parts has the plain tree of each of them, in their order and no others, however many there
/// are.
pub fn plain_lists_have_each_part()
    ensures stats { (xs : List Stat) → stat_list (view_stats xs) ≡ map view_stat xs }
    ensures exprs { (xs : List Expr) → expr_list (view_exprs xs) ≡ map view_expr xs }
    ensures items { (xs : List Item) → item_list (view_items xs) ≡ map view_item xs }
    ensures binds { (xs : List Bind) → bind_list (view_binds xs) ≡ map view_bind xs }
    ensures gens { (xs : List Gen) → gen_list (view_gens xs) ≡ map view_gen xs }
    ensures types { (xs : List TypeSyntax) → type_list (view_types xs) ≡ map view_type xs }
    ensures props { (xs : List Prop) → prop_list (view_props xs) ≡ map view_prop xs }
    ensures arms { (xs : List Arm) → arm_list (view_arms xs) ≡ map view_arm xs }
    ensures choices { (xs : List Choice) → choice_list (view_choices xs) ≡ map view_choice xs }
{}

/// The nodes of a tree stand in the order of the text: those of a tree of all forms are numbered from 0, one by one.
pub fn nodes_stand_in_the_order_of_the_text()
    ensures exprs { map expr_number (exprs_in sample) ≡ range_with_len 0 76 }
    ensures bodies { map body_number (bodies_in sample) ≡ range_with_len 0 4 }
    ensures binds { map bind_name (binds_in sample) ≡ map (λ n. n ∷ []) (range_with_len 0 8) }
{}

/// An expression is found by its number.
pub fn an_expression_is_found_by_its_number()
    ensures last { option_map expr_number (expr_at sample 75) ≡ Some 75 }
    ensures none { expr_at sample 76 ≡ None }
{}
