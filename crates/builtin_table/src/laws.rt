//! What holds of the table. Each law is the contract of a function that does nothing.

ghost use Rattle.std.specs.Prelude.{◌≡◌, false, length, map, Some};
ghost use Rattle.std.specs.List.{list_any};
ghost use Rattle.luau_tree.specs.Sorted.{IsAscending};
ghost use Rattle.builtin_table.specs.Paths.{is_kept_back, lies_in};
ghost use Rattle.builtin_table.specs.Standard.{row_of, lines, declared_by, standard_paths, declaration};

/// The paths are in the order of their bytes, each once; none is `require`, and none is a library of another.
#[tactic(auto, unfolding(crate::specs::Standard::standard, crate::specs::Standard::standard_paths))]
pub fn paths_stand_in_order()
    ensures ascending { IsAscending standard_paths }
    ensures count { length standard_paths ≡ 84 }
    ensures kept_back { list_any is_kept_back standard_paths ≡ false }
    ensures libraries { list_any (λ path. list_any (lies_in path) standard_paths) standard_paths ≡ false }
{}

/// Each path of a line has the declaration of its line.
#[tactic(auto, unfolding(crate::specs::Standard::standard, crate::specs::Standard::declaration))]
pub fn lines_give_their_declarations()
    ensures { map (λ line. map declaration (row_of line).paths) lines ≡ map (λ line. map (λ path. Some (declared_by line)) (row_of line).paths) lines }
{}
