//! Each public call on names once; the texts are in the program's tests.
use luau_scope::{LocalInfo, Refusal, ScopeError, Scoped, Use, resolve};
use luau_tree::exprs::name_expr;
use luau_tree::parts::{bind_of, block_of};
use luau_tree::stats::{local_stat, return_stat};
use luau_tree::{Bytes, Expr, ExprId, List, LocalId, Module, PathSet, Span};
use sqlite_items::Items;
use std::alloc::Global;
use std::test::Fail;

const NOWHERE: Span = Span { start: 0, end: 0 };

fn bytes(alloc: Global, text: &str) -> Result<Bytes, Fail> {
    Ok(Bytes::of(Vec::from_slice(alloc, text.as_bytes())?))
}

fn name(alloc: Global, number: u32, text: &str) -> Result<Expr, Fail> {
    Ok(name_expr(ExprId(number), NOWHERE, bytes(alloc, text)?))
}

/// The module `local a = print return NAME`.
fn a_module(alloc: Global, returned: &str) -> Result<Module, Fail> {
    let mut binds = Items::new(alloc);
    binds.push(bind_of(bytes(alloc, "a")?, NOWHERE, None))?;
    let mut given = Items::new(alloc);
    given.push(name(alloc, 0, "print")?)?;
    let mut values = Items::new(alloc);
    values.push(name(alloc, 1, returned)?)?;
    let mut stats = Items::new(alloc);
    stats.push(local_stat(NOWHERE, binds, given))?;
    stats.push(return_stat(NOWHERE, values))?;
    let block = block_of(stats);
    Ok(Module { block })
}

#[test]
fn a_module_is_read_or_refused(rt: HostRuntime) -> Result<(), Fail> {
    let alloc = rt.alloc();
    let names = PathSet::of(vec![in alloc; bytes(alloc, "print")?]?);
    let scoped = resolve(alloc, a_module(alloc, "a")?, &names)
        .ok()
        .ok_or("refused")?;
    assert!(rt; scoped.required.as_slice().is_empty());
    let [local] = scoped.locals.as_slice() else {
        return Err("locals".into());
    };
    assert!(rt; local.name == bytes(alloc, "a")? && local.given == Some(ExprId(0)));
    assert!(rt; !local.assigned && !local.captured && !local.loose && local.function.is_none());
    let [(first, print), (second, a)] = scoped.uses.as_slice() else {
        return Err("uses".into());
    };
    assert!(rt; first.0 == 0 && *print == Use::Builtin(bytes(alloc, "print")?));
    assert!(rt; second.0 == 1 && *a == Use::Local(LocalId(0)));
    for (returned, why) in [
        ("setmetatable", Refusal::Metatable),
        ("require", Refusal::DynamicRequire),
    ] {
        match resolve(alloc, a_module(alloc, returned)?, &names) {
            Err(ScopeError::Refused { why: found, .. }) => assert!(rt; found == why, "{returned}"),
            _ => return Err("read".into()),
        }
    }
    Ok(())
}

/// A local of the module's own block that is given an expression.
fn local(alloc: Global, assigned: bool, given: Option<ExprId>) -> Result<LocalInfo, Fail> {
    Ok(LocalInfo {
        name: bytes(alloc, "a")?,
        declared: NOWHERE,
        function: None,
        given,
        assigned,
        captured: false,
        loose: false,
    })
}

#[test]
fn what_an_expression_stands_for_is_found(rt: HostRuntime) -> Result<(), Fail> {
    let alloc = rt.alloc();
    let scoped = Scoped {
        module: Module {
            block: block_of(Items::new(alloc)),
        },
        locals: List::of(vec![in alloc;
            local(alloc, false, Some(ExprId(2)))?,
            local(alloc, true, Some(ExprId(2)))?,
            local(alloc, false, Some(ExprId(1)))?,
            local(alloc, false, None)?,
        ]?),
        uses: List::of(vec![in alloc;
            (ExprId(1), Use::Local(LocalId(0))),
            (ExprId(2), Use::Builtin(bytes(alloc, "print")?)),
            (ExprId(5), Use::Local(LocalId(1))),
            (ExprId(6), Use::Library),
            (ExprId(7), Use::Local(LocalId(2))),
            (ExprId(9), Use::Global),
        ]?),
        required: List::of(Vec::new(alloc)),
    };
    let print = bytes(alloc, "print")?;
    for at in [0, 3, 4, 8, 10] {
        assert!(rt; scoped.use_of(ExprId(at)).is_none(), "{at}");
    }
    assert!(rt; scoped.use_of(ExprId(1)) == Some(&Use::Local(LocalId(0))));
    assert!(rt; scoped.use_of(ExprId(6)) == Some(&Use::Library));
    assert!(rt; scoped.use_of(ExprId(9)) == Some(&Use::Global));
    for at in [1, 2] {
        assert!(rt; scoped.fixed_builtin(ExprId(at)) == Some(&print), "{at}");
    }
    for at in [0, 5, 6, 7, 9] {
        assert!(rt; scoped.fixed_builtin(ExprId(at)).is_none(), "{at}");
    }
    Ok(())
}
