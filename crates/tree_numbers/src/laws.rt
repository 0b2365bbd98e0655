//! Laws of the definitions: what would be false if a definition were wrong.
ghost use Rattle.std.specs.Prelude.{◌≡◌, length, map};
ghost use Rattle.std.specs.List.{range_with_len};
ghost use Rattle.luau_tree.specs.Nodes.{bodies_in, body_number, expr_number, exprs_in};
ghost use Rattle.luau_tree.specs.Sample.{sample};
ghost use Rattle.luau_tree.specs.Tree.{Block};
ghost use Rattle.tree_numbers.specs.Erased.{erased_block};
ghost use Rattle.tree_numbers.specs.Numbered.{numbered};

/// The expressions of a numbered tree are numbered from 0, one by one in the order of the text, and there are as many as
/// there were; and so it is with the bodies.
pub fn numbers_stand_in_the_order_of_the_text()
    ensures exprs { (block : Block) → map expr_number (exprs_in (numbered block)) ≡ range_with_len 0 (length (exprs_in block)) }
    ensures bodies { (block : Block) → map body_number (bodies_in (numbered block)) ≡ range_with_len 0 (length (bodies_in block)) }
    ensures as_many_exprs { (block : Block) → length (exprs_in (numbered block)) ≡ length (exprs_in block) }
    ensures as_many_bodies { (block : Block) → length (bodies_in (numbered block)) ≡ length (bodies_in block) }
{}

/// Without its numbers a numbered tree is the tree that it was.
pub fn numbering_changes_numbers_alone()
    ensures { (block : Block) → erased_block (numbered block) ≡ erased_block block }
{}

/// The numbers that a tree had play no part, so that numbering twice is numbering once.
pub fn numbers_depend_on_no_numbers()
    ensures erased { (block : Block) → numbered (erased_block block) ≡ numbered block }
    ensures twice { (block : Block) → numbered (numbered block) ≡ numbered block }
{}

/// A tree of all forms, whose numbers are written down, gets these numbers.
pub fn the_sample_is_numbered()
    ensures { numbered (erased_block sample) ≡ sample }
{}
