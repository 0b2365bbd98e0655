//! Which globals are builtins and libraries, and which are refused.
ghost use Rattle.std.specs.Prelude.{◌≡◌, ◌++◌, ◌∷◌, [], IfOk, option_map};
ghost use Rattle.luau_tree.specs.View.{view_expr};
ghost use Rattle.luau_scope.specs.Names as spec;
ghost use Rattle.luau_scope.specs.Finds.{global_use, kind_of};
ghost use Rattle.luau_scope.specs.Steps.{name_in};

use crate::reading::Use;
use crate::refusal::Refusal;
use luau_tree::{Bytes, Expr, ExprKind};
use std::alloc::{AllocError, Global};

/// The same bytes once more.
pub(crate) fn copy(alloc: Global, bytes: &Bytes) -> Result<Bytes, AllocError>
    ensures { IfOk result (λ again. again ≡ bytes.now) }
{
    Ok(Bytes::of(Vec::from_slice(alloc, bytes.as_slice())?))
}

/// The name that an expression is.
pub(crate) fn name_of(e: &Expr) -> Option<&Bytes>
    ensures { option_map (λ name. name.now) result ≡ name_in (kind_of (view_expr e.now)) }
{
    match &e.kind {
        ExprKind::Name(name) => Some(name),
        _ => None,
    }
}

/// A name, a dot and a name behind it.
pub(crate) fn dotted(alloc: Global, name: &Bytes, behind: &Bytes) -> Result<Bytes, AllocError>
    ensures { IfOk result (λ path. path ≡ spec.dotted name.now behind.now) }
{
    let mut path = Vec::from_slice(alloc, name.as_slice())?;
    path.push(b'.')?;
    path.extend_from_slice(behind.as_slice())?;
    Ok(Bytes::of(path))
}

/// Whether a path is among some.
pub(crate) fn has(names: &[Bytes], path: &Bytes) -> bool
    ensures { result ≡ spec.is_one_of names.now path.now }
{
    names.iter().any(|name| name == path)
}

/// Whether some path begins with the name and a dot.
pub(crate) fn is_library(alloc: Global, names: &[Bytes], name: &Bytes) -> Result<bool, AllocError>
    ensures { IfOk result (λ found. found ≡ spec.is_library names.now name.now) }
{
    let mut front = Vec::from_slice(alloc, name.as_slice())?;
    front.push(b'.')?;
    let front = front.as_slice();
    Ok(names.iter().any(|path| path.as_slice().starts_with(front)))
}

/// What a global stands for.
pub(crate) fn global_use(alloc: Global, names: &[Bytes], name: &Bytes) -> Result<Use, AllocError>
    ensures { IfOk result (λ meaning. meaning ≡ global_use names.now name.now) }
{
    if has(names, name) {
        Ok(Use::Builtin(copy(alloc, name)?))
    } else if is_library(alloc, names, name)? {
        Ok(Use::Library)
    } else {
        Ok(Use::Global)
    }
}

/// Why the use of a global is refused, but for that of `require`.
fn banned(name: &[u8]) -> Option<Refusal>
    ensures { result ≡ spec.banned name.now }
{
    if name == b"setmetatable".as_slice()
        || name == b"getmetatable".as_slice()
        || name == b"newproxy".as_slice()
    {
        return Some(Refusal::Metatable);
    }
    if name == b"coroutine".as_slice() {
        return Some(Refusal::Coroutine);
    }
    if name == b"getfenv".as_slice()
        || name == b"setfenv".as_slice()
        || name == b"loadstring".as_slice()
        || name == b"_G".as_slice()
    {
        return Some(Refusal::Environment);
    }
    None
}

/// Whether a global is the one that loads modules.
pub(crate) fn is_require(name: &Bytes) -> bool
    ensures { result ≡ spec.is_require name.now }
{
    name.as_slice() == b"require".as_slice()
}

/// Why the use of a global is refused, where it is no static require's callee.
pub(crate) fn banned_alone(name: &Bytes) -> Option<Refusal>
    ensures { result ≡ spec.banned_alone name.now }
{
    if is_require(name) {
        Some(Refusal::DynamicRequire)
    } else {
        banned(name.as_slice())
    }
}

/// Whether a string names a module as a static require does.
pub(crate) fn is_way(text: &Bytes) -> bool
    ensures { result ≡ spec.is_way text.now }
{
    let text = text.as_slice();
    text.starts_with(b"./".as_slice()) || text.starts_with(b"../".as_slice())
}
