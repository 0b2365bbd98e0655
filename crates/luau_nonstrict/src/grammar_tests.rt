//! Texts over the whole program, by the grammar: which are modules, and where others have their fault.
use nonstrict_cli::{Status, nonstrict};
use outside::{List, MemorySink, MemoryTree, Root, Text};
use std::alloc::Global;
use std::test::Fail;

/// Whether a run over a folder whose one file has this text writes this and ends as Refused.
fn refuses(alloc: Global, text: &str, writes: &str) -> Result<bool, Fail> {
    let path = Text::of(String::from_str(alloc, "a.luau")?);
    let bytes = List::of(Vec::from_slice(alloc, text.as_bytes())?);
    let files = vec![in alloc; (path, bytes)]?;
    let name = Text::of(String::from_str(alloc, "d")?);
    let root = Root::new(name, List::of(files)).ok_or("not in order")?;
    let mut tree = MemoryTree::new(vec![in alloc; root]?, vec![in alloc]?);
    let mut sink = MemorySink::new(alloc, 4096, 4096, vec![in alloc]?, vec![in alloc]?)?;
    let words = vec![in alloc; String::from_str(alloc, "d")?]?;
    let ended = nonstrict(alloc, &words, &mut tree, &mut sink);
    Ok(ended == Status::Refused && sink.written() == writes.as_bytes())
}

/// Whether a text is a module, which is not of the form that is built.
fn is_module(alloc: Global, text: &str) -> Result<bool, Fail> {
    refuses(alloc, text, "a.luau:1:1: refused: form not built\n")
}

/// A form of text in which a phrase stands in itself: what comes before, what opens it, what stands innermost, what closes it.
type Nested = (&'static str, &'static str, &'static str, &'static str);

/// A text of a form in which so many phrases stand in one another.
fn nested(alloc: Global, form: Nested, count: usize) -> Result<String, Fail> {
    let (before, open, inside, close) = form;
    let mut text = String::from_str(alloc, before)?;
    for _ in 0..count {
        text.push_str(open)?;
    }
    text.push_str(inside)?;
    for _ in 0..count {
        text.push_str(close)?;
    }
    Ok(text)
}

/// Whether so many phrases of a form may stand in one another, and with one more the token in this column stands too deep.
fn nests(alloc: Global, form: Nested, most: usize, column: usize) -> Result<bool, Fail> {
    let whole = nested(alloc, form, most)?;
    let deeper = nested(alloc, form, most.saturating_add(1))?;
    let line = format!(in alloc; "a.luau:1:{column}: refused: nesting\n")?;
    Ok(is_module(alloc, whole.as_str())? && refuses(alloc, deeper.as_str(), line.as_str())?)
}

#[test]
fn statements_are_read(rt: HostRuntime) -> Result<(), Fail> {
    let alloc = rt.alloc();
    for text in [
        "do end",
        "while a do b() continue end",
        "repeat local x = 1 until x",
        "if a then elseif b then else end",
        "for i = 1, 2 do break end",
        "for i: number = 1, 2, 3 do end",
        "for k, v in pairs(t) do end",
        "@native @checked function f() end",
        "function a.b.c:d(x, ...) return ... end",
        "@native local function f<T>(x: T, ...: T): (T, ...T) end",
        "local a: number, b = 1, 2",
        "local x",
        "export type T<A, B = number> = {A}",
        "return",
        "return 1, 2;",
        "a.b[c] = 1",
        "a, b.c = 1, 2",
        "a.b ..= 's' a //= 2",
        "f(1)(2).x:y{}'s';",
        "f(\n)",
        "local type = 1 type = 2 continue = 3 export = 4",
        "continue() type() export()",
        "return\n1",
        "local x = 1;f();return",
    ] {
        assert!(rt; is_module(alloc, text)?, "{text:?}");
    }
    Ok(())
}

#[test]
fn modules_that_the_profile_refuses(rt: HostRuntime) -> Result<(), Fail> {
    let alloc = rt.alloc();
    for (text, place, why) in [
        (
            "@native local function f<T, U...>(x: T, ...: U...): (T, U...) end",
            "1:29",
            "generic pack",
        ),
        (
            "export type T<A, B... = ...number> = {A}",
            "1:18",
            "generic pack",
        ),
        (
            "local x: a.b<(c, d), e..., ...f, (g), () -> ()> local y: a<>",
            "1:22",
            "generic pack",
        ),
        (
            "local y = 1 type function f(x) return x end",
            "1:13",
            "type function",
        ),
        ("export type function g() end", "1:1", "type function"),
        (
            "type = 1 continue = 2 export = 3",
            "1:1",
            "assigned builtin",
        ),
        ("x = setmetatable({}, {})", "1:5", "metatable"),
        ("coroutine.wrap(f)", "1:1", "coroutine"),
        ("_G.x = 1", "1:1", "environment"),
        ("local m = require(name)", "1:11", "dynamic require"),
        ("local a a, a = 1, 2", "1:12", "repeated target"),
        (
            "while x do local function f() break end end",
            "1:31",
            "break outside loop",
        ),
        ("if x then continue end", "1:11", "continue outside loop"),
        (
            "repeat if x then continue end local y = 1 until y",
            "1:18",
            "continue past local",
        ),
        ("function f() return ... end", "1:21", "vararg outside"),
    ] {
        let line = format!(in alloc; "a.luau:{place}: refused: {why}\n")?;
        assert!(rt; refuses(alloc, text, line.as_str())?, "{text:?}");
    }
    Ok(())
}

#[test]
fn expressions_and_types_are_read(rt: HostRuntime) -> Result<(), Fail> {
    let alloc = rt.alloc();
    for text in [
        "x = -a ^ -b .. c",
        "x = -a :: number + b",
        "x = if a then b elseif c then if d then e else f else g",
        "x = `a{b}c{`{d}`}e`",
        "x = {1, a = 2, [3] = 4; 5,}",
        "x = @native function(a: number): string return a end",
        "x = #a == 1 and not b or c // d % e",
        "x = ... ; y = {...}",
        "x = (a)[b].c 'd' [[e]] {f}",
        "local x: 'a' | nil | true | false",
        "local x: | a | b?? local y: & a & b",
        "local x: (a: number, b) -> (c, ...d)",
        "local x: <T>(T) -> T?",
        "local x: (a) -> b | c local y: (a)? local z: (a | b) & c",
        "local x: {read x: number, write [string]: number; y: a}",
        "local x: {read: number} local y: {{number}} local z: {}",
        "local x: a.b<(c, d), ...f, (g), () -> ()> local y: a<>",
        "local x: typeof(f(1)) local y: typeof",
    ] {
        assert!(rt; is_module(alloc, text)?, "{text:?}");
    }
    Ok(())
}

#[test]
fn faults_stand_where_a_module_cannot_go_on(rt: HostRuntime) -> Result<(), Fail> {
    let alloc = rt.alloc();
    for (text, place, fault) in [
        (")", "1:1", "unexpected token"),
        ("if a end", "1:6", "unexpected token"),
        ("for i = 1 do end", "1:11", "unexpected token"),
        ("return 1 x = 2", "1:10", "unexpected token"),
        ("break x", "1:7", "unexpected token"),
        ("continue x", "1:10", "unexpected token"),
        ("@native local x = 1", "1:15", "unexpected token"),
        ("export type = 1", "1:13", "unexpected token"),
        ("f() = 1", "1:5", "unexpected token"),
        ("a + b", "1:3", "unexpected token"),
        ("x = {1 2}", "1:8", "unexpected token"),
        ("x = `a{}`", "1:8", "unexpected token"),
        ("type T = a | b & c", "1:16", "unexpected token"),
        ("local x: = 1", "1:10", "unexpected token"),
        ("f`a`", "1:2", "unexpected token"),
        ("; f()", "1:1", "unexpected token"),
        ("local", "1:6", "unexpected end"),
        ("f().x", "1:6", "unexpected end"),
        ("type x", "1:7", "unexpected end"),
        ("x = (1 --[[c]] ", "1:16", "unexpected end"),
        ("return `a{ b", "1:13", "unexpected end"),
        ("f\n(", "2:1", "ambiguous call"),
        ("f\"a\"\n(b)", "2:1", "ambiguous call"),
        ("a:m --\n(1)", "2:1", "ambiguous call"),
        ("continue\n(1)", "2:1", "ambiguous call"),
    ] {
        let line = format!(in alloc; "a.luau:{place}: refused: {fault}\n")?;
        assert!(rt; refuses(alloc, text, line.as_str())?, "{text:?}");
    }
    Ok(())
}

#[test]
fn a_module_ends_at_each_of_its_statements(rt: HostRuntime) -> Result<(), Fail> {
    let alloc = rt.alloc();
    let mut text = String::new(alloc);
    for statement in [
        "local Set = {}",
        "export type Set<T> = {items: {[T]: boolean}, count: number}",
        "local size, limit = 0, 1e3",
        "@native local function grow(by: number): number return size + by end",
        "function Set.new(...) local made = {items = {}, count = 0} return made end",
        "function Set:add(item) if self.items[item] then return false end self.count += 1 return true end",
        "for _, name in {\"a\", \"b\"} do if name == \"b\" then continue end size = grow(1) end",
        "for i = 1, limit, 2 do if i > size then break end end",
        "while size > 0 do size -= 1 end",
        "repeat local done = size >= limit size += 1 until done",
        "do Set.limit, Set[\"size\"] = limit, if size > 1 then size else -1 end",
        "print(`{size} of {limit}`);",
        "return Set :: any",
    ] {
        text.push_str(statement)?;
        assert!(rt; is_module(alloc, text.as_str())?, "{statement:?}");
        text.push_str("\n")?;
    }
    Ok(())
}

#[test]
fn expressions_stand_at_two_hundred_levels(rt: HostRuntime) -> Result<(), Fail> {
    let alloc = rt.alloc();
    for (before, open, inside, close, most, column) in [
        ("x = ", "(", "1", ")", 198, 204),
        ("local x = ", "(", "1", ")", 198, 210),
        ("x = ", "{", "1", "}", 198, 204),
        ("x = ", "f(", "1", ")", 99, 205),
        ("x = ", "- ", "1", "", 198, 403),
        ("x = ", "a + ", "1", "", 198, 801),
        ("x = a", ".b", "", "", 198, 403),
        ("x = a", "[1]", "", "", 197, 598),
        ("x = a", ":m()", "", "", 198, 799),
        ("x = f", "()", "", "", 198, 403),
        ("x = ", "function() return ", "1", " end", 99, 1798),
        ("x = ", "`{", "1", "}`", 198, 403),
        ("x = ", "if a then b else ", "1", "", 198, 3374),
    ] {
        let right = nests(alloc, (before, open, inside, close), most, column)?;
        assert!(rt; right, "{before}{open}");
    }
    Ok(())
}

#[test]
fn statements_and_types_stand_at_two_hundred_levels(rt: HostRuntime) -> Result<(), Fail> {
    let alloc = rt.alloc();
    for (before, open, inside, close, most, column) in [
        ("", "if a then ", "", " end", 199, 1994),
        ("", "do ", "", " end", 200, 601),
        ("", "repeat ", "", " until a", 199, 1408),
        ("", "while a do ", "", " end", 199, 2196),
        ("a", ".b", " = 1", "", 199, 401),
        ("function a", ".b", "() end", "", 199, 410),
        ("type T = ", "{", "T", "}", 198, 209),
        ("type T = ", "(", "T", ")", 198, 209),
        ("type T = ", "() -> ", "T", "", 198, 1204),
        ("local x: ", "T<", "T", ">", 198, 408),
        ("type T = U", "?", "", "", 199, 210),
    ] {
        let right = nests(alloc, (before, open, inside, close), most, column)?;
        assert!(rt; right, "{before}{open}");
    }
    Ok(())
}

#[test]
fn a_token_stands_too_deep_whatever_follows(rt: HostRuntime) -> Result<(), Fail> {
    let alloc = rt.alloc();
    for (before, open, inside, line) in [
        ("x = ", "(", "a", "1:204: refused: nesting"),
        ("x = ", "(", "a b", "1:204: refused: nesting"),
        ("x = ", "(", "a =", "1:204: refused: nesting"),
        ("x = ", "(", "a :", "1:204: refused: nesting"),
        ("type T = ", "{", "T", "1:209: refused: nesting"),
        ("type T = ", "{", "T =", "1:209: refused: nesting"),
        ("type T = ", "{", "T.a", "1:209: refused: nesting"),
        ("type T = ", "{", "T:", "1:211: refused: unexpected end"),
    ] {
        let text = nested(alloc, (before, open, inside, ""), 199)?;
        let line = format!(in alloc; "a.luau:{line}\n")?;
        assert!(rt; refuses(alloc, text.as_str(), line.as_str())?, "{inside}");
    }
    Ok(())
}

#[test]
fn each_part_of_a_module_begins_one(rt: HostRuntime) -> Result<(), Fail> {
    let alloc = rt.alloc();
    let mut text = String::new(alloc);
    for part in [
        "local s = { } export type S < T > = { items : { [ T ] : boolean } }",
        "local a , b = 0 , 1e3 @ native local function g ( by : number ) : number return a + by end",
        "function s . new ( ... ) return { x = 1 , [ 2 ] = 3 } end",
        "function s : add ( v ) if v then return false elseif a then b = 1 else self . n += 1 end end",
        "for _ , v in s do if v == 1 then continue end a = g ( 1 ) end",
        "for i = 1 , b , 2 do break end while a > 0 do a -= 1 end",
        "repeat local done = a until done do s . n , s [ 1 ] = b , if a then b else - 1 end",
        "print ( `x{ a }y` ) ; return s :: any",
    ] {
        for token in part.split_whitespace() {
            text.push_str(token)?;
            let column = text.len().saturating_add(1);
            let line = format!(in alloc; "a.luau:1:{column}: refused: unexpected end\n")?;
            let begins = refuses(alloc, text.as_str(), line.as_str())?
                || is_module(alloc, text.as_str())?;
            assert!(rt; begins, "{token:?}");
            text.push_str(" ")?;
        }
    }
    assert!(rt; is_module(alloc, text.as_str())?);
    Ok(())
}
