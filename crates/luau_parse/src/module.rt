//! The whole text: its tree with the numbers of its expressions and bodies.
ghost use Rattle.std.specs.Prelude.{◌≡◌, ◌≢◌, ◌≤◌, ◌⊎◌, length, Ok, Err, IfOk, IfErr};
ghost use Rattle.luau_grammar.specs.declared.error.ParseError.TheVariants.{NoMemory};
ghost use Rattle.luau_tree.specs.View.{view_module};
ghost use Rattle.module_reader.specs.Parsed.{HasNoTree, IsLexFault};
ghost use Rattle.luau_parse.specs.Parsed.{HasTree};
ghost use Rattle.luau_parse.specs.Texts.{tree_of};
ghost use Rattle.tree_numbers.specs.Numbered.{numbered};

use luau_grammar::ParseError;
use luau_tree::{MAX_TEXT, Module};
use module_reader::bare;
use std::alloc::Global;
use tree_numbers::number;

/// A module whose expressions and bodies have their numbers. Where the numbers are not enough, which no text of at most
/// 1,048,576 bytes brings about, memory is said to run out.
fn with_numbers(alloc: Global, module: Module) -> Result<Module, ParseError>
    ensures made { IfOk result (λ m. view_module m ≡ numbered (view_module «module»)) }
    ensures fault { IfErr result (λ e. e ≡ NoMemory) }
{
    match number(alloc, module.block) {
        Ok(block) => Ok(Module { block }),
        Err(_) => Err(ParseError::NoMemory),
    }
}

/// The tree of a text of at most 1,048,576 bytes. Its expressions are numbered from 0 in the order of the text, and so are
/// its bodies. The grammar stands in `docs/LANGUAGE.md`.
///
/// Fails with the first fault of the text, which has no tokens or whose tokens are no module then, or where memory
/// runs out.
pub fn parse(alloc: Global, text: &[u8]) -> Result<Module, ParseError>
    requires { length text.now ≤ MAX_TEXT }
    // The text has tokens, and this is their tree with its numbers.
    ensures tree { IfOk result (λ m. HasTree text.now (view_module m)) }
    // The text has no tokens, and this is the fault of it; or its tokens have no tree.
    ensures fault { IfErr result (λ e. e ≢ NoMemory → IsLexFault text.now e ⊎ HasNoTree text.now) }
    // The same answers as a function, which says of tokens without a tree which fault is told.
    ensures computed { IfOk result (λ m. tree_of text.now ≡ Ok (view_module m)) }
    ensures computed_fault { IfErr result (λ e. e ≢ NoMemory → tree_of text.now ≡ Err e) }
{
    match bare(alloc, text) {
        Ok(module) => with_numbers(alloc, module),
        Err(fault) => Err(fault),
    }
}
