//! Tokens that are written out, and what they declare. Each law is the contract of a function that does nothing.
ghost use Rattle.std.specs.Prelude.{List, [], ◌∷◌, ◌++◌, codes};
ghost use Rattle.luau_tree.specs.Tree.{no_gens, no_types, more_types, Func, Optional};
ghost use Rattle.luau_grammar.specs.Modules.{up_to};
ghost use Rattle.luau_grammar.specs.Samples.{name, word, sign, spaced, type_at};
ghost use Rattle.decl_grammar.specs.Declarations.{Declaration};
ghost use Rattle.decl_grammar.specs.Files.{IsFile};
ghost use Rattle.decl_grammar.specs.declared.mark.Mark.TheVariants.{Checked, Quiet};
ghost use Rattle.decl_grammar.specs.Samples.{AreDeclared, IsNoFile, DeclareF, DeclareNothing, head, no_more, list, with_rest, between, of_f};

/// Declarations stand one behind the other, each with marks in any order and number, and a path of one name or two.
pub fn declarations_in_a_row()
    ensures none { AreDeclared [] [] }
    ensures one { AreDeclared (head ++ no_more) (of_f (list []) (list []) ∷ []) }
    ensures two { AreDeclared (head ++ (no_more ++ (head ++ no_more)))
        (of_f (list []) (list []) ∷ record { marks = []; at = 46; path = codes "f"; params = list []; results = list [] } ∷ []) }
    ensures marks { AreDeclared
        (sign (codes "@") ∷ name (codes "quiet") ∷ sign (codes "@") ∷ name (codes "checked") ∷ sign (codes "@") ∷ name (codes "quiet") ∷ (head ++ no_more))
        (record { marks = Quiet ∷ Checked ∷ Quiet ∷ []; at = 43; path = codes "f"; params = list []; results = list [] } ∷ []) }
    ensures path { AreDeclared
        (name (codes "declare") ∷ word (codes "function") ∷ name (codes "math") ∷ sign (codes ".") ∷ name (codes "abs") ∷ sign (codes "(") ∷ no_more)
        (record { marks = []; at = 17; path = codes "math.abs"; params = list []; results = list [] } ∷ []) }
    ensures word_as_a_name { AreDeclared
        (name (codes "declare") ∷ word (codes "function") ∷ name (codes "declare") ∷ sign (codes "(") ∷ no_more)
        (record { marks = []; at = 17; path = codes "declare"; params = list []; results = list [] } ∷ []) }
{}

/// A list has types and, at its end, one behind dots.
pub fn lists_of_types()
    ensures one { DeclareF (name (codes "a") ∷ no_more) (list (type_at 21 (codes "a") ∷ [])) (list []) }
    ensures two { DeclareF (name (codes "a") ∷ sign (codes ",") ∷ name (codes "b") ∷ no_more) (list (type_at 21 (codes "a") ∷ type_at 25 (codes "b") ∷ [])) (list []) }
    ensures rest { DeclareF (sign (codes "...") ∷ name (codes "a") ∷ no_more) (with_rest [] (type_at 25 (codes "a"))) (list []) }
    ensures one_and_rest { DeclareF (name (codes "a") ∷ sign (codes ",") ∷ sign (codes "...") ∷ name (codes "b") ∷ no_more)
        (with_rest (type_at 21 (codes "a") ∷ []) (type_at 29 (codes "b"))) (list []) }
{}

/// Results are a type or a list in parentheses. One type in parentheses is that type, and goes on as one.
pub fn results()
    ensures one { DeclareF (sign (codes ")") ∷ sign (codes ":") ∷ name (codes "a") ∷ []) (list []) (list (type_at 25 (codes "a") ∷ [])) }
    ensures in_parens { DeclareF (sign (codes ")") ∷ sign (codes ":") ∷ sign (codes "(") ∷ name (codes "a") ∷ sign (codes ")") ∷ [])
        (list []) (list (type_at 27 (codes "a") ∷ [])) }
    ensures several { DeclareF
        (sign (codes ")") ∷ sign (codes ":") ∷ sign (codes "(") ∷ name (codes "a") ∷ sign (codes ",") ∷ sign (codes "...") ∷ name (codes "b") ∷ sign (codes ")") ∷ [])
        (list []) (with_rest (type_at 27 (codes "a") ∷ []) (type_at 35 (codes "b"))) }
    ensures function { DeclareF
        (sign (codes ")") ∷ sign (codes ":") ∷ sign (codes "(") ∷ name (codes "a") ∷ sign (codes ")") ∷ sign (codes "->") ∷ name (codes "b") ∷ [])
        (list []) (list (between 25 35 (Func no_gens (more_types (type_at 27 (codes "a")) no_types) (type_at 34 (codes "b"))) ∷ [])) }
    ensures function_with_a_name { DeclareF
        (sign (codes ")") ∷ sign (codes ":") ∷ sign (codes "(") ∷ name (codes "x") ∷ sign (codes ":") ∷ name (codes "a") ∷ sign (codes ")") ∷ sign (codes "->") ∷ name (codes "b") ∷ [])
        (list []) (list (between 25 39 (Func no_gens (more_types (type_at 31 (codes "a")) no_types) (type_at 38 (codes "b"))) ∷ [])) }
    ensures optional { DeclareF (sign (codes ")") ∷ sign (codes ":") ∷ sign (codes "(") ∷ name (codes "a") ∷ sign (codes ")") ∷ sign (codes "?") ∷ [])
        (list []) (list (between 25 32 (Optional (type_at 27 (codes "a"))) ∷ [])) }
{}

/// Some tokens are no declaration file.
pub fn some_tokens_declare_nothing()
    ensures no_declare { IsNoFile (word (codes "function") ∷ name (codes "f") ∷ sign (codes "(") ∷ no_more) }
    ensures no_function { IsNoFile (name (codes "declare") ∷ name (codes "f") ∷ sign (codes "(") ∷ no_more) }
    ensures other_mark { IsNoFile (sign (codes "@") ∷ name (codes "native") ∷ (head ++ no_more)) }
    ensures mark_alone { IsNoFile (sign (codes "@") ∷ name (codes "quiet") ∷ []) }
    ensures three_names { IsNoFile
        (name (codes "declare") ∷ word (codes "function") ∷ name (codes "a") ∷ sign (codes ".") ∷ name (codes "b") ∷ sign (codes ".") ∷ name (codes "c") ∷ sign (codes "(") ∷ no_more) }
    ensures method { IsNoFile
        (name (codes "declare") ∷ word (codes "function") ∷ name (codes "a") ∷ sign (codes ":") ∷ name (codes "b") ∷ sign (codes "(") ∷ no_more) }
    ensures semicolon { DeclareNothing (no_more ++ sign (codes ";") ∷ []) }
    ensures no_results { DeclareNothing (sign (codes ")") ∷ []) }
    ensures named_parameter { DeclareNothing (name (codes "x") ∷ sign (codes ":") ∷ name (codes "a") ∷ no_more) }
    ensures comma_at_the_end { DeclareNothing (name (codes "a") ∷ sign (codes ",") ∷ no_more) }
    ensures type_behind_the_rest { DeclareNothing (sign (codes "...") ∷ name (codes "a") ∷ sign (codes ",") ∷ name (codes "b") ∷ no_more) }
    ensures generic_pack { DeclareNothing (name (codes "a") ∷ sign (codes "...") ∷ no_more) }
    ensures named_result { DeclareNothing
        (sign (codes ")") ∷ sign (codes ":") ∷ sign (codes "(") ∷ name (codes "x") ∷ sign (codes ":") ∷ name (codes "a") ∷ sign (codes ")") ∷ []) }
    ensures pack_of_results { DeclareNothing
        (sign (codes ")") ∷ sign (codes ":") ∷ sign (codes "(") ∷ name (codes "a") ∷ sign (codes "...") ∷ sign (codes ")") ∷ []) }
    ensures results_without_parens { DeclareNothing (sign (codes ")") ∷ sign (codes ":") ∷ name (codes "a") ∷ sign (codes ",") ∷ name (codes "b") ∷ []) }
    ensures optional_results { DeclareNothing
        (sign (codes ")") ∷ sign (codes ":") ∷ sign (codes "(") ∷ name (codes "a") ∷ sign (codes ",") ∷ name (codes "b") ∷ sign (codes ")") ∷ sign (codes "?") ∷ []) }
{}

/// What stands outside types stands at level 0; a type raises it by one. A parenthesis that begins results is outside of them.
pub fn levels_of_tokens()
    ensures outside { IsFile (up_to 0) (spaced 0 (head ++ no_more)) (of_f (list []) (list []) ∷ []) }
    ensures in_a_list { IsFile (up_to 1) (spaced 0 (head ++ name (codes "a") ∷ no_more)) (of_f (list (type_at 21 (codes "a") ∷ [])) (list []) ∷ []) }
    ensures not_lower { (ds : List Declaration) → IsFile (up_to 0) (spaced 0 (head ++ name (codes "a") ∷ no_more)) ds → ⊥ }
    ensures in_parens { IsFile (up_to 1)
        (spaced 0 (head ++ sign (codes ")") ∷ sign (codes ":") ∷ sign (codes "(") ∷ name (codes "a") ∷ sign (codes ")") ∷ []))
        (of_f (list []) (list (type_at 27 (codes "a") ∷ [])) ∷ []) }
    ensures behind_them { IsFile (up_to 1)
        (spaced 0 (head ++ sign (codes ")") ∷ sign (codes ":") ∷ sign (codes "(") ∷ name (codes "a") ∷ sign (codes ")") ∷ sign (codes "?") ∷ []))
        (of_f (list []) (list (between 25 32 (Optional (type_at 27 (codes "a"))) ∷ [])) ∷ []) }
    ensures not_below_them { (ds : List Declaration) → IsFile (up_to 0)
        (spaced 0 (head ++ sign (codes ")") ∷ sign (codes ":") ∷ sign (codes "(") ∷ name (codes "a") ∷ sign (codes ")") ∷ [])) ds → ⊥ }
{}
