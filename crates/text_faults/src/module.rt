//! The tree of a text, or its fault.
ghost use Rattle.std.specs.Prelude.{◌≡◌, ◌≢◌, ◌≤◌, length, Ok, Err, IfOk, IfErr};
ghost use Rattle.luau_tree.specs.View.{view_module};
ghost use Rattle.luau_grammar.specs.declared.error.ParseError.TheVariants.{NoMemory};
ghost use Rattle.luau_parse.specs.Parsed.{HasTree};
ghost use Rattle.luau_parse.specs.Texts.{tree_of};
ghost use Rattle.text_faults.specs.TextFaults.{IsFaultOf};

use crate::laws::the_error_of_a_text_is_its_fault;
use luau_grammar::ParseError;
use luau_parse::parse;
use luau_tree::{MAX_TEXT, Module};
use std::alloc::Global;

/// The tree of a text of at most 1,048,576 bytes, as `parse` of `luau_parse` gives it. The grammar stands in
/// `docs/LANGUAGE.md`.
///
/// Fails with the fault of the text and its offset: that of its tokens, or the least place at which they are no
/// module; or where memory runs out.
pub fn parse_text(alloc: Global, text: &[u8]) -> Result<Module, ParseError>
    requires { length text.now ≤ MAX_TEXT }
    // The text has tokens, and this is their tree with its numbers.
    ensures tree { IfOk result (λ m. HasTree text.now (view_module m)) }
    // The text has no tokens, for this fault, or this is the fault of its tokens: its kind and its offset.
    ensures fault { IfErr result (λ e. e ≢ NoMemory → IsFaultOf text.now e) }
    // The same answers as a function.
    ensures computed { IfOk result (λ m. tree_of text.now ≡ Ok (view_module m)) }
    ensures computed_fault { IfErr result (λ e. e ≢ NoMemory → tree_of text.now ≡ Err e) }
{
    the_error_of_a_text_is_its_fault();
    parse(alloc, text)
}
