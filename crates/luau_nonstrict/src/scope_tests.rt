//! Texts, with what the names in them stand for and what the profile refuses.
use luau_parse::parse;
use luau_scope::{LocalInfo, ScopeError, Scoped, Use, resolve};
use luau_tree::{Bytes, MAX_TEXT, Module, PathSet, pos_of};
use std::alloc::Global;
use std::test::Fail;

/// The tree of a text.
fn tree_of(alloc: Global, text: &[u8]) -> Result<Module, Fail> {
    if text.len() > MAX_TEXT {
        return Err("too long".into());
    }
    Ok(parse(alloc, text).ok().ok_or("no module")?)
}

/// The set of one path, or of none.
fn paths_of(alloc: Global, path: &str) -> Result<PathSet, Fail> {
    if path.is_empty() {
        return Ok(PathSet::of(Vec::new(alloc)));
    }
    let path = Bytes::of(Vec::from_slice(alloc, path.as_bytes())?);
    Ok(PathSet::of(vec![in alloc; path]?))
}

/// What is said of a text over the one declared path: its refusal with the place, or what its names stand for.
fn said_of(alloc: Global, path: &str, text: &str) -> Result<String, Fail> {
    let module = tree_of(alloc, text.as_bytes())?;
    let names = paths_of(alloc, path)?;
    match resolve(alloc, module, &names) {
        Ok(scoped) => written(alloc, &scoped),
        Err(ScopeError::Refused { why, at }) => {
            if text.len() > MAX_TEXT || at.start as usize > text.len() {
                return Err("outside the text".into());
            }
            let place = pos_of(text.as_bytes(), at.start);
            Ok(format!(in alloc; "{}:{} {why:?}", place.line, place.column)?)
        }
        Err(ScopeError::NoMemory) => Err("no memory".into()),
    }
}

/// Some bytes as text.
fn as_text(alloc: Global, bytes: &Bytes) -> Result<String, Fail> {
    let bytes = Vec::from_slice(alloc, bytes.as_slice())?;
    Ok(String::from_utf8(bytes).ok().ok_or("no text")?)
}

/// The locals, each with `a` where it is assigned, `c` captured, and `l` loose; then what each name stands for: the number
/// of a local, the path of a builtin, `lib`, or `?`; then the texts of the static requires.
fn written(alloc: Global, scoped: &Scoped) -> Result<String, Fail> {
    let mut all = String::new(alloc);
    for local in scoped.locals.as_slice() {
        all.push_str(local_written(alloc, local)?.as_str())?;
    }
    all.push_str("|")?;
    for (_, meaning) in scoped.uses.as_slice() {
        all.push_str(use_written(alloc, meaning)?.as_str())?;
    }
    all.push_str(" |")?;
    for site in scoped.required.as_slice() {
        all.push_str(" ")?;
        all.push_str(as_text(alloc, &site.text)?.as_str())?;
    }
    Ok(all)
}

fn local_written(alloc: Global, local: &LocalInfo) -> Result<String, Fail> {
    let name = as_text(alloc, &local.name)?;
    let assigned = if local.assigned { "a" } else { "" };
    let captured = if local.captured { "c" } else { "" };
    let loose = if local.loose { "l" } else { "" };
    Ok(format!(in alloc; "{name}:{assigned}{captured}{loose} ")?)
}

fn use_written(alloc: Global, meaning: &Use) -> Result<String, Fail> {
    match meaning {
        Use::Local(local) => Ok(format!(in alloc; " {}", local.0)?),
        Use::Builtin(path) => {
            let path = as_text(alloc, path)?;
            Ok(format!(in alloc; " {path}")?)
        }
        Use::Library => Ok(String::from_str(alloc, " lib")?),
        Use::Global => Ok(String::from_str(alloc, " ?")?),
    }
}

#[test]
fn names_stand_for_what_is_in_scope(rt: HostRuntime) -> Result<(), Fail> {
    let alloc = rt.alloc();
    for (path, text, said) in [
        ("", "", "| |"),
        (
            "",
            "local x = \"a\"\nlocal function set() x = 1 end\nmath.abs(x)",
            "x:acl set: | 0 ? 0 |",
        ),
        ("math.abs", "local x\nmath.abs(x)", "x: | math.abs lib 0 |"),
        ("", "local function f(x) x = 1 end", "f: x:a | 1 |"),
        ("", "local x = x local y = x", "x: y: | ? 0 |"),
        ("", "local x: typeof(x) = 1", "x: | ? |"),
        ("", "local x do local x x = 1 end x()", "x: x:a | 1 0 |"),
        ("", "repeat local x until x x()", "x: | 0 ? |"),
        (
            "",
            "local x local function f(a: typeof(x)) end",
            "x:c f: a: | 0 |",
        ),
        (
            "",
            "local function f(a, b: typeof(a)) return f end",
            "f:c a: b: | 1 0 |",
        ),
        ("", "for i = i, 2 do i() end i()", "i: | ? 0 ? |"),
        ("", "for k, v in k do f(v) end", "k: v: | ? ? 1 |"),
        ("", "function t:m(a) return self end", "self: a: | ? 0 |"),
        ("", "local x function x() end", "x:a | 0 |"),
        (
            "",
            "local x local function f() function x() end end",
            "x:acl f: | 0 |",
        ),
        (
            "",
            "local x local function f() return x end x()",
            "x:c f: | 0 0 |",
        ),
        ("", "local x x += 1", "x:a | 0 |"),
        ("", "local t local function f() t.x = 1 end", "t:c f: | 0 |"),
        (
            "",
            "local x x = function() local x x = 2 end",
            "x:a x:a | 0 1 |",
        ),
        ("print", "print(print.x)", "| print print |"),
        (
            "math.abs",
            "local abs = math.abs abs(1)",
            "abs: | math.abs lib 0 |",
        ),
        (
            "math.abs",
            "f(math[\"abs\"], (math).abs, math.pi)",
            "| ? lib lib lib |",
        ),
        ("math.abs", "mathx.abs(math)", "| ? lib |"),
        (
            "",
            "local a = require(\"./a\") require \"../b/c\" f(require[[./d]])",
            "a: | ? ? ? ? | ./a ../b/c ./d",
        ),
        ("", "local require = f require(\"./a\")", "require: | ? 0 |"),
        ("", "require(\"./\")", "| ? | ./"),
    ] {
        let found = said_of(alloc, path, text)?;
        assert!(rt; found.as_str() == said, "{text:?}: {found}");
    }
    Ok(())
}

#[test]
fn the_profile_refuses(rt: HostRuntime) -> Result<(), Fail> {
    let alloc = rt.alloc();
    for (path, text, said) in [
        ("", "setmetatable({}, {})", "1:1 Metatable"),
        ("", "return\ngetmetatable", "2:1 Metatable"),
        ("", "newproxy = 1", "1:1 Metatable"),
        ("", "local setmetatable = setmetatable", "1:22 Metatable"),
        ("", "coroutine.wrap(f)", "1:1 Coroutine"),
        ("", "type T = typeof(coroutine)", "1:17 Coroutine"),
        ("", "getfenv()", "1:1 Environment"),
        ("", "setfenv()", "1:1 Environment"),
        ("", "loadstring()", "1:1 Environment"),
        ("", "_G.x = 1", "1:1 Environment"),
        ("", "require(name)", "1:1 DynamicRequire"),
        ("", "require(\"x\")", "1:1 DynamicRequire"),
        ("", "require(\".\")", "1:1 DynamicRequire"),
        ("", "require(`./a`)", "1:1 DynamicRequire"),
        ("", "require((\"./a\"))", "1:1 DynamicRequire"),
        ("", "(require)(\"./a\")", "1:2 DynamicRequire"),
        ("", "require(\"./a\", 1)", "1:1 DynamicRequire"),
        ("", "require() ", "1:1 DynamicRequire"),
        ("", "f(require)", "1:3 DynamicRequire"),
        ("", "type function f() end", "1:1 TypeFunction"),
        (
            "",
            "do export type function f() end end",
            "1:4 TypeFunction",
        ),
        ("", "type T<A...> = A", "1:8 GenericPack"),
        ("", "local function f(...: T...) end", "1:23 GenericPack"),
        ("math.abs", "math.abs = 1", "1:1 AssignedBuiltin"),
        ("math.abs", "math.none = 1", "1:1 AssignedBuiltin"),
        ("math.abs", "math += 1", "1:1 AssignedBuiltin"),
        ("math.abs", "x, math.abs = 1, 2", "1:4 AssignedBuiltin"),
        (
            "math.abs",
            "function math:foo() end",
            "1:10 AssignedBuiltin",
        ),
        (
            "math.abs",
            "function math.abs() end",
            "1:10 AssignedBuiltin",
        ),
        ("print", "print.x = 1", "1:1 AssignedBuiltin"),
        ("", "local a\na, a = 1, 2", "2:4 RepeatedTarget"),
        (
            "",
            "local a local function f() a, t[a], a = 1, 2, 3 end",
            "1:37 RepeatedTarget",
        ),
        ("", "break", "1:1 BreakOutsideLoop"),
        (
            "",
            "while a do f(function() break end) end",
            "1:25 BreakOutsideLoop",
        ),
        (
            "",
            "repeat until f(function() continue end)",
            "1:27 ContinueOutsideLoop",
        ),
        ("", "continue", "1:1 ContinueOutsideLoop"),
        (
            "",
            "repeat if a then continue end local x until x",
            "1:18 ContinuePastLocal",
        ),
        (
            "",
            "repeat if a then continue end local x until f(function() return x end)",
            "1:18 ContinuePastLocal",
        ),
        (
            "",
            "repeat if a then continue end local x until y :: typeof(x)",
            "1:18 ContinuePastLocal",
        ),
        (
            "",
            "local function f() return ... end",
            "1:27 VarargOutside",
        ),
        (
            "",
            "local function f(x: typeof(...)) end",
            "1:28 VarargOutside",
        ),
        ("", "setmetatable(x) break", "1:1 Metatable"),
        (
            "",
            "if a then break end setmetatable(x)",
            "1:11 BreakOutsideLoop",
        ),
        (
            "",
            "repeat if a then continue end local x = _G until x",
            "1:18 ContinuePastLocal",
        ),
        ("math.abs", "math.abs = setmetatable", "1:1 AssignedBuiltin"),
        ("coroutine.wrap", "coroutine.wrap = 1", "1:1 Coroutine"),
        ("_G", "_G = 1", "1:1 Environment"),
        ("require", "require = 1", "1:1 DynamicRequire"),
    ] {
        let found = said_of(alloc, path, text)?;
        assert!(rt; found.as_str() == said, "{text:?}: {found}");
    }
    Ok(())
}

#[test]
fn near_texts_are_read(rt: HostRuntime) -> Result<(), Fail> {
    let alloc = rt.alloc();
    for (path, text, said) in [
        ("", "t.setmetatable = 1", "| ? |"),
        (
            "",
            "local function f(coroutine) return coroutine end",
            "f: coroutine: | 1 |",
        ),
        ("", "f(_VERSION)", "| ? ? |"),
        ("", "type f = number", "| |"),
        ("", "local function f(...: T) end", "f: | |"),
        ("", "math.abs = 1", "| ? |"),
        ("math.abs", "math.abs.x = 1", "| math.abs lib |"),
        (
            "math.abs",
            "function math.abs:x() end",
            "self: | math.abs lib |",
        ),
        ("math.abs", "math[1] = 2", "| lib |"),
        ("math.abs", "math[\"abs\"] = 2", "| lib |"),
        ("math.abs", "local math math.abs = 1", "math: | 0 |"),
        ("", "a, a = 1, 2", "| ? ? |"),
        ("", "local a, b a, b = b, a", "a:a b:a | 0 1 1 0 |"),
        (
            "",
            "local a do local b, a a, b = 1, 2 end",
            "a: b:a a:a | 2 1 |",
        ),
        ("", "while a do break end", "| ? |"),
        ("", "repeat continue until a", "| ? |"),
        (
            "",
            "repeat if a then continue end local x until y",
            "x: | ? ? |",
        ),
        (
            "",
            "repeat local x if a then continue end until x",
            "x: | ? 0 |",
        ),
        (
            "",
            "repeat while a do continue end local x until x",
            "x: | ? 0 |",
        ),
        ("", "return ...", "| |"),
        (
            "",
            "local function f(x: typeof(...), ...) return ... end",
            "f: x: | |",
        ),
    ] {
        let found = said_of(alloc, path, text)?;
        assert!(rt; found.as_str() == said, "{text:?}: {found}");
    }
    Ok(())
}

#[test]
fn a_function_has_at_most_200_locals_in_scope(rt: HostRuntime) -> Result<(), Fail> {
    let alloc = rt.alloc();
    let mut text = String::new(alloc);
    for _line in 0..200 {
        text.push_str("local a\n")?;
    }
    let closed = format!(in alloc; "do local b, c end {text}f(function() local a end)")?;
    assert!(rt;
        said_of(alloc, "", closed.as_str())?
            .as_str()
            .starts_with("b: c: a: ")
    );
    let one_more = format!(in alloc; "{text}do local b, c end break")?;
    assert!(rt; said_of(alloc, "", one_more.as_str())?.as_str() == "201:10 TooManyLocals");
    Ok(())
}
