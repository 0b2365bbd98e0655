//! Which statements have a `return`, a `break` or an `if`, outside function literals.
ghost use Rattle.std.specs.Prelude.{◌≡◌};
ghost use Rattle.luau_tree.specs.View.{view_arms, view_block, view_maybe_block, view_stat};
ghost use Rattle.report_rules.specs.Effects as syntax;

use luau_tree::{Arm, Block, Stat, StatKind};

/// Whether a `return` stands in a statement.
#[cycle(returns)]
#[tactic(auto, unfolding(luau_tree::specs::View::view_stat))]
pub fn stat_returns(s: &Stat) -> bool
    ensures { result ≡ syntax.returns (view_stat s.now) }
{
    match &s.kind {
        StatKind::Do(body) => block_returns(body),
        StatKind::While { body, .. } => block_returns(body),
        StatKind::Repeat { body, .. } => block_returns(body),
        StatKind::If { arms, last } => arms_return(arms.as_slice()) || last_returns(last),
        StatKind::NumFor { body, .. } => block_returns(body),
        StatKind::GenFor { body, .. } => block_returns(body),
        StatKind::Return(_) => true,
        _ => false,
    }
}

/// Whether a `return` stands in a block.
#[cycle(returns)]
#[tactic(auto, unfolding(luau_tree::specs::View::view_block))]
pub fn block_returns(block: &Block) -> bool
    ensures { result ≡ syntax.returns_block (view_block block.now) }
{
    for s in block.stats.as_slice() {
        if stat_returns(s) {
            return true;
        }
    }
    false
}

#[cycle(returns)]
#[tactic(auto, unfolding(luau_tree::specs::View::view_arm))]
fn arms_return(arms: &[Arm]) -> bool
    ensures { result ≡ syntax.returns_arms (view_arms arms.now) }
{
    for arm in arms {
        if block_returns(&arm.block) {
            return true;
        }
    }
    false
}

#[cycle(returns)]
fn last_returns(last: &Option<Block>) -> bool
    ensures { result ≡ syntax.returns_maybe (view_maybe_block last.now) }
{
    match last {
        None => false,
        Some(body) => block_returns(body),
    }
}

/// Whether a `break` or `continue` of a loop around a statement stands in it.
#[cycle(breaks)]
#[tactic(auto, unfolding(luau_tree::specs::View::view_stat))]
pub fn stat_breaks(s: &Stat) -> bool
    ensures { result ≡ syntax.breaks (view_stat s.now) }
{
    match &s.kind {
        StatKind::Do(body) => block_breaks(body),
        StatKind::If { arms, last } => arms_break(arms.as_slice()) || last_breaks(last),
        StatKind::Break => true,
        StatKind::Continue => true,
        _ => false,
    }
}

/// Whether a `break` or `continue` of a loop around a block stands in it.
#[cycle(breaks)]
#[tactic(auto, unfolding(luau_tree::specs::View::view_block))]
pub fn block_breaks(block: &Block) -> bool
    ensures { result ≡ syntax.breaks_block (view_block block.now) }
{
    for s in block.stats.as_slice() {
        if stat_breaks(s) {
            return true;
        }
    }
    false
}

#[cycle(breaks)]
#[tactic(auto, unfolding(luau_tree::specs::View::view_arm))]
fn arms_break(arms: &[Arm]) -> bool
    ensures { result ≡ syntax.breaks_arms (view_arms arms.now) }
{
    for arm in arms {
        if block_breaks(&arm.block) {
            return true;
        }
    }
    false
}

#[cycle(breaks)]
fn last_breaks(last: &Option<Block>) -> bool
    ensures { result ≡ syntax.breaks_maybe (view_maybe_block last.now) }
{
    match last {
        None => false,
        Some(body) => block_breaks(body),
    }
}

/// Whether an `if` stands in a statement, outside loops.
#[cycle(branches)]
#[tactic(auto, unfolding(luau_tree::specs::View::view_stat))]
pub fn stat_branches(s: &Stat) -> bool
    ensures { result ≡ syntax.branches (view_stat s.now) }
{
    match &s.kind {
        StatKind::Do(body) => block_branches(body),
        StatKind::If { .. } => true,
        _ => false,
    }
}

/// Whether an `if` stands in a block, outside loops.
#[cycle(branches)]
#[tactic(auto, unfolding(luau_tree::specs::View::view_block))]
pub fn block_branches(block: &Block) -> bool
    ensures { result ≡ syntax.branches_block (view_block block.now) }
{
    for s in block.stats.as_slice() {
        if stat_branches(s) {
            return true;
        }
    }
    false
}
