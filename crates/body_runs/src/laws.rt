//! Laws of function bodies. Each is the contract of a function that does nothing.

ghost use Rattle.std.specs.Prelude.{List};
ghost use Rattle.std.specs.List.{Contains};
ghost use Rattle.luau_tree.specs.Tree.{Body, Block};
ghost use Rattle.luau_run.specs.SyntaxNode.{ABody, of_block};
ghost use Rattle.report_rules.specs.Rules.{Rules};
ghost use Rattle.report_rules.specs.Seen.{Seen};
ghost use Rattle.report_rules.specs.Context.{Context};
ghost use Rattle.report_rules.specs.Findings.{Finding, found_body, found_block};

/// What is found in a body that stands in a block, at whatever depth, is found in the block, whatever stands around it.
#[tactic(auto, using(crate::proofs::FoundBodies::found_whole))]
pub fn bodies_are_found_whole()
    ensures { (rules : Rules) (seen : List Seen) (block : Block) (behind breaks continues : Context) (code : Body) → Contains (of_block block) (ABody code)
        → (finding : Finding) → Contains (found_body rules seen code) finding → Contains (found_block rules seen block behind breaks continues) finding }
{}
