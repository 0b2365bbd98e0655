//! What was read of an interpolated string.
ghost use Rattle.std.specs.Prelude.{◌≡◌, ◌∷◌, [], IfOk, true};
ghost use Rattle.luau_tree.specs.Tree as tree;
ghost use Rattle.luau_tree.specs.View.{view_expr, exprs};
ghost use Rattle.expr_reader.specs.SeenInterpolated.{seen_interpolated};

use luau_tree::exprs::interp_expr;
use luau_tree::{Bytes, Expr, ExprId, List, Span};
use sqlite_items::Items;
use std::alloc::{AllocError, Global};

/// The texts and the parts of an interpolated string so far, and whether it goes on.
#[derive(Drop)]
pub struct Interpolated {
    pub texts: Vec<Bytes>,
    pub parts: Items<Expr>,
    pub open_ended: bool,
}

/// An interpolated string behind its first text.
pub fn begun(alloc: Global, text: Bytes) -> Result<Interpolated, AllocError>
    ensures { IfOk result (λ it. seen_interpolated it ≡ record { texts = text ∷ []; parts = []; open_ended = true }) }
{
    let mut texts = Vec::new(alloc);
    texts.push(text)?;
    Ok(Interpolated {
        texts,
        parts: Items::new(alloc),
        open_ended: true,
    })
}

/// The whole of an interpolated string.
#[tactic(auto, using(phrase_reader::proofs::Lists::exprs_seen))]
pub fn finished(span: Span, it: Interpolated) -> Expr
    ensures { view_expr result ≡ tree.the_expr 0 span (tree.Interp (seen_interpolated it).texts (exprs (seen_interpolated it).parts)) }
{
    let Interpolated { texts, parts, .. } = it;
    interp_expr(ExprId(0), span, List::of(texts), parts)
}
