//! The types of operations.
ghost use Rattle.std.specs.Prelude.{◌≡◌, not, IsTrue, OnOk};
ghost use Rattle.subtype_check.specs.Below.{below};
ghost use Rattle.type_arena.specs.Meaning.{term_of};
ghost use Rattle.type_arena.specs.Store.{has as has_node};
ghost use Rattle.report_rules.specs.Forward.{unary_type, binary_type, not_other};
ghost use Rattle.type_fields.specs.Plain.{plain_term};
ghost use Rattle.rule_work.specs.Moves.{valued, made};
ghost use Rattle.rule_work.specs.Results.{result_term, unary_result_term};
ghost use Rattle.rule_state.specs.Work.{work_of};

use crate::state::RuleState;
use luau_tree::{BinOp, UnOp};
use std::alloc::AllocError;
use type_arena::{Node, Nodes, TypeRef};
use type_fields::Plain;

/// Whether no value of no other kind belongs to a type.
fn is_known<N: Nodes>(nodes: &N, a: TypeRef) -> bool
    requires { IsTrue (has_node (N.arenas nodes.now) a) }
    ensures { result ≡ below (term_of (N.arenas nodes.now) a) not_other }
{
    let node = nodes.node(a);
    !node.other
}

/// What arithmetic, `..` or a comparison gives, where its operands are known or not.
fn result_of(op: BinOp, known: bool) -> Plain
    ensures { plain_term result ≡ result_term op known }
{
    match op {
        BinOp::Equal
        | BinOp::NotEqual
        | BinOp::Less
        | BinOp::Greater
        | BinOp::LessEqual
        | BinOp::GreaterEqual => Plain::Boolean,
        BinOp::Concat => {
            if known {
                Plain::AnyString
            } else {
                Plain::Unknown
            }
        }
        _ => { if known { Plain::Number } else { Plain::Unknown } }
    }
}

impl<'a> RuleState<'a> {
    /// A unary operation on the type at hand.
    pub fn unary(&mut self, op: UnOp) -> Result<(), AllocError>
        ensures { OnOk result (work_of self.new ≡ valued (unary_type op (work_of self.old).value) (work_of self.old)) }
    {
        let known = is_known(self.types.arena(), self.value);
        let kind = unary_result(op, known);
        self.plain(kind)
    }

    /// A binary operation that evaluates both sides, on the last that was put aside and the type at hand.
    pub fn binary(&mut self, op: BinOp) -> Result<(), AllocError>
        ensures { OnOk result (work_of self.new ≡ made (binary_type op) (work_of self.old)) }
    {
        if let Some(left) = self.held.pop() {
            let arena = self.types.arena();
            let known = is_known(arena, left) & is_known(arena, self.value);
            let at = self.types.plain(self.alloc, result_of(op, known))?;
            self.value = at;
        }
        Ok(())
    }
}

/// What a unary operation gives, where its operand is known or not.
fn unary_result(op: UnOp, known: bool) -> Plain
    ensures { plain_term result ≡ unary_result_term op known }
{
    match op {
        UnOp::Not => Plain::Boolean,
        _ => { if known { Plain::Number } else { Plain::Unknown } }
    }
}
