//! What follows for every list of tokens. Each law is the contract of a function that does nothing.
ghost use Rattle.std.specs.Prelude.{ℕ, List};
ghost use Rattle.luau_lex.specs.Tokens.{Tok};
ghost use Rattle.luau_grammar.specs.Laws.{StandUpTo};
ghost use Rattle.luau_grammar.specs.Modules.{strict};
ghost use Rattle.luau_grammar.specs.Places.{Rules};
ghost use Rattle.decl_grammar.specs.Declarations.{Declaration};
ghost use Rattle.decl_grammar.specs.Files.{IsFile};
ghost use Rattle.decl_grammar.specs.Laws.{IsRead, IsOneFileAtMost};

/// What the program's parser reads are the declarations that the tokens are, and it reads each such list.
pub fn the_parser_reads_declaration_files()
    ensures only { (text : List ℕ) (ts : List Tok) (ds : List Declaration) → IsRead text ts ds → IsFile (strict text) ts ds }
    ensures all { (text : List ℕ) (ts : List Tok) (ds : List Declaration) → IsFile (strict text) ts ds → IsRead text ts ds }
{}

/// A list of tokens is one list of declarations at most, by any rules that bound the levels at which tokens stand.
pub fn tokens_are_one_file_at_most()
    ensures { (rules : Rules) (limit : ℕ) → StandUpTo rules limit → (ts : List Tok) → IsOneFileAtMost rules ts }
{}
