//! The tokens of texts, and what they stand for.
use luau_lex::{lex, value_of};
use luau_tree::MAX_TEXT;
use std::alloc::{AllocError, Global};
use std::test::Fail;

/// The tokens of a text as words: the kind and the span of each, or the fault.
fn shown(alloc: Global, text: &[u8]) -> Result<String, AllocError> {
    let mut out = String::new(alloc);
    if text.len() > MAX_TEXT {
        return Ok(out);
    }
    match lex(alloc, text) {
        Ok(tokens) => {
            for token in &tokens {
                let kind = token.kind;
                let start = token.span.start;
                let end = token.span.end;
                let word = format!(in alloc; "{kind:?} {start} {end};")?;
                out.push_str(word.as_str())?;
            }
        }
        Err(fault) => {
            let word = format!(in alloc; "{fault:?}")?;
            out.push_str(word.as_str())?;
        }
    }
    Ok(out)
}

/// The bytes that the first token of a text stands for, in hexadecimal.
fn first_value(alloc: Global, text: &[u8]) -> Result<String, AllocError> {
    let mut out = String::new(alloc);
    if text.len() > MAX_TEXT {
        return Ok(out);
    }
    if let Ok(tokens) = lex(alloc, text) {
        if let Some(token) = tokens.first() {
            let value = value_of(alloc, token)?;
            for b in value.as_slice() {
                let word = format!(in alloc; "{b:02x}")?;
                out.push_str(word.as_str())?;
            }
        }
    }
    Ok(out)
}

#[test]
fn names_words_and_signs(rt: HostRuntime) -> Result<(), Fail> {
    let cases: [(&[u8], &str); 24] = [
        (b"x ..= 0x1F_", "Name 0 1;Sign 2 5;Numeral 6 11;"),
        (b"", ""),
        (b" \t\n\r\x0b\x0c", ""),
        (b"$", "StrayByte(0)"),
        (b"\x00", "StrayByte(0)"),
        (b"a\xc3\xa9", "StrayByte(1)"),
        (b"\xef\xbb\xbfa", "StrayByte(0)"),
        (
            b"end ends _end End e_1",
            "Word 0 3;Name 4 8;Name 9 13;Name 14 17;Name 18 21;",
        ),
        (
            b"+ - * / // % ^ # == ~= <= >= < > = += -= *= /= //= %= ^= ..= ( ) { } [ ] :: ; : , . .. ... -> ? | & @",
            "Sign 0 1;Sign 2 3;Sign 4 5;Sign 6 7;Sign 8 10;Sign 11 12;Sign 13 14;Sign 15 16;Sign 17 19;Sign 20 22;Sign 23 25;Sign 26 28;Sign 29 30;Sign 31 32;Sign 33 34;Sign 35 37;Sign 38 40;Sign 41 43;Sign 44 46;Sign 47 50;Sign 51 53;Sign 54 56;Sign 57 60;Sign 61 62;Sign 63 64;Sign 65 66;Sign 67 68;Sign 69 70;Sign 71 72;Sign 73 75;Sign 76 77;Sign 78 79;Sign 80 81;Sign 82 83;Sign 84 86;Sign 87 90;Sign 91 93;Sign 94 95;Sign 96 97;Sign 98 99;Sign 100 101;",
        ),
        (b"[==", "Sign 0 1;Sign 1 3;"),
        (b"....5", "Sign 0 3;Numeral 3 5;"),
        (b"._5", "Sign 0 1;Name 1 3;"),
        (b"...=", "Sign 0 3;Sign 3 4;"),
        (b"~=~", "StrayByte(2)"),
        (b"!", "StrayByte(0)"),
        (b"a//=b", "Name 0 1;Sign 1 4;Name 4 5;"),
        (b"-=->-", "Sign 0 2;Sign 2 4;Sign 4 5;"),
        (b":::", "Sign 0 2;Sign 2 3;"),
        (b"#!a\nb", "Name 4 5;"),
        (b"#!", ""),
        (b"#!a\rb", ""),
        (b"# !", "StrayByte(2)"),
        (b"b#!c", "StrayByte(2)"),
        (b"$ \"", "StrayByte(0)"),
    ];
    for (text, want) in cases {
        let got = shown(rt.alloc(), text)?;
        assert_eq!(rt; got.as_str(), want);
    }
    Ok(())
}

#[test]
fn words(rt: HostRuntime) -> Result<(), Fail> {
    let cases: [(&[u8], &str); 7] = [
        (
            b"and break do else elseif end false for function if in local nil not or repeat return then true until while",
            "Word 0 3;Word 4 9;Word 10 12;Word 13 17;Word 18 24;Word 25 28;Word 29 34;Word 35 38;Word 39 47;Word 48 50;Word 51 53;Word 54 59;Word 60 63;Word 64 67;Word 68 70;Word 71 77;Word 78 84;Word 85 89;Word 90 94;Word 95 100;Word 101 106;",
        ),
        (b"continue", "Name 0 8;"),
        (b"type", "Name 0 4;"),
        (b"export", "Name 0 6;"),
        (b"nill", "Name 0 4;"),
        (b"an", "Name 0 2;"),
        (b"breaks", "Name 0 6;"),
    ];
    for (text, want) in cases {
        let got = shown(rt.alloc(), text)?;
        assert_eq!(rt; got.as_str(), want);
    }
    Ok(())
}

#[test]
fn numerals(rt: HostRuntime) -> Result<(), Fail> {
    let cases: [(&[u8], &str); 46] = [
        (b"0", "Numeral 0 1;"),
        (b"7", "Numeral 0 1;"),
        (b"1_", "Numeral 0 2;"),
        (b"1.", "Numeral 0 2;"),
        (b"1._", "Numeral 0 3;"),
        (b"1_.5", "Numeral 0 4;"),
        (b"1.e5", "Numeral 0 4;"),
        (b"1.5", "Numeral 0 3;"),
        (b"1.5_", "Numeral 0 4;"),
        (b".5", "Numeral 0 2;"),
        (b".5_", "Numeral 0 3;"),
        (b".5e+3", "Numeral 0 5;"),
        (b"1e5", "Numeral 0 3;"),
        (b"1E-5", "Numeral 0 4;"),
        (b"1e5_", "Numeral 0 4;"),
        (b"1e+5", "Numeral 0 4;"),
        (b"0x1F_", "Numeral 0 5;"),
        (b"0X_f", "Numeral 0 4;"),
        (b"0xe", "Numeral 0 3;"),
        (b"0b1", "Numeral 0 3;"),
        (b"0B_01_", "Numeral 0 6;"),
        (b"0b0", "Numeral 0 3;"),
        (b"1..2", "BadNumeral(0)"),
        (b"1e", "BadNumeral(0)"),
        (b"1e_5", "BadNumeral(0)"),
        (b"1e+", "BadNumeral(0)"),
        (b"1.5e", "BadNumeral(0)"),
        (b"0x", "BadNumeral(0)"),
        (b"0x_", "BadNumeral(0)"),
        (b"0xg", "BadNumeral(0)"),
        (b"0b", "BadNumeral(0)"),
        (b"0b2", "BadNumeral(0)"),
        (b"0b_", "BadNumeral(0)"),
        (b"0B_", "BadNumeral(0)"),
        (b"1a", "BadNumeral(0)"),
        (b"1.2.3", "BadNumeral(0)"),
        (b"1.e", "BadNumeral(0)"),
        (b"12ab", "BadNumeral(0)"),
        (b"0b1e5", "BadNumeral(0)"),
        (b"0x1p3", "BadNumeral(0)"),
        (b"1e5f", "BadNumeral(0)"),
        (b"0xe+1", "Numeral 0 3;Sign 3 4;Numeral 4 5;"),
        (b"1e5.5", "Numeral 0 3;Numeral 3 5;"),
        (b"0x1.5", "Numeral 0 3;Numeral 3 5;"),
        (b"1-2", "Numeral 0 1;Sign 1 2;Numeral 2 3;"),
        (b"a 1..2 $", "BadNumeral(2)"),
    ];
    for (text, want) in cases {
        let got = shown(rt.alloc(), text)?;
        assert_eq!(rt; got.as_str(), want);
    }
    Ok(())
}

#[test]
fn quoted_strings(rt: HostRuntime) -> Result<(), Fail> {
    let cases: [(&[u8], &str); 34] = [
        (b"\"\\xZ1\"", "BadEscape(1)"),
        (b"\"\\256\"", "BadEscape(1)"),
        (b"\"\\255\"", "Quoted 0 6;"),
        (b"\"\\x4\"", "BadEscape(1)"),
        (b"\"\\x4g\"", "BadEscape(1)"),
        (b"\"\\xaF\"", "Quoted 0 6;"),
        (b"\"\\u{}\"", "BadEscape(1)"),
        (b"\"\\u{110000}\"", "BadEscape(1)"),
        (b"\"\\u{10ffff}\"", "Quoted 0 12;"),
        (b"\"\\u{D800}\"", "Quoted 0 10;"),
        (b"\"\\u{000000000000041}\"", "Quoted 0 21;"),
        (b"\"\\u{FFFFFFFFFFFFFFFFF1}\"", "BadEscape(1)"),
        (b"\"\\u41\"", "BadEscape(1)"),
        (b"\"\\u{41\"", "BadEscape(1)"),
        (b"\"\\u{4g}\"", "BadEscape(1)"),
        (b"\"a\\q\\xg\\256\"", "BadEscape(4)"),
        (b"\"\\x", "UnfinishedString(0)"),
        (b"\"\\256", "UnfinishedString(0)"),
        (b"\"\\", "UnfinishedString(0)"),
        (b"\"", "UnfinishedString(0)"),
        (b" \"x", "UnfinishedString(1)"),
        (b"'a\nb'", "UnfinishedString(0)"),
        (b"'a\rb'", "UnfinishedString(0)"),
        (b"\"\\\n\"", "Quoted 0 4;"),
        (b"\"\\\r\n\"", "Quoted 0 5;"),
        (b"\"\\\r\"", "Quoted 0 4;"),
        (b"\"\\\n\r\"", "UnfinishedString(0)"),
        (b"\"\\z \n\r\t a\"", "Quoted 0 10;"),
        (b"\"\\z", "UnfinishedString(0)"),
        (b"'\"' \"'\"", "Quoted 0 3;Quoted 4 7;"),
        (b"'\\''", "Quoted 0 4;"),
        (b"\"\\\\\"", "Quoted 0 4;"),
        (b"\"\"", "Quoted 0 2;"),
        (b"\"\\xg\" $", "BadEscape(1)"),
    ];
    for (text, want) in cases {
        let got = shown(rt.alloc(), text)?;
        assert_eq!(rt; got.as_str(), want);
    }
    Ok(())
}

#[test]
fn long_strings_and_comments(rt: HostRuntime) -> Result<(), Fail> {
    let cases: [(&[u8], &str); 20] = [
        (b"[[a", "UnfinishedString(0)"),
        (b"[[]]", "Long 0 4;"),
        (b"[=[ ]] ]=]", "Long 0 10;"),
        (b"[==[]=]]==]", "Long 0 11;"),
        (b"[[]", "UnfinishedString(0)"),
        (b"[=[]]", "UnfinishedString(0)"),
        (b"a[[[b]]", "Name 0 1;Long 1 7;"),
        (b"[[\\]]]", "Long 0 5;Sign 5 6;"),
        (b"[[]=]]]", "Long 0 6;Sign 6 7;"),
        (b"--[[a", "UnfinishedComment(0)"),
        (b"x --[=[]]", "UnfinishedComment(2)"),
        (b"--[==a\nb", "Name 7 8;"),
        (b"--[=[x]]]=]y", "Name 11 12;"),
        (b"-- a\rb\nc", "Name 7 8;"),
        (b"--", ""),
        (b"--[[\n]]x", "Name 7 8;"),
        (b"---[[ a", ""),
        (b"- -a", "Sign 0 1;Sign 2 3;Name 3 4;"),
        (b"--[", ""),
        (b"--[==[]==]]", "Sign 10 11;"),
    ];
    for (text, want) in cases {
        let got = shown(rt.alloc(), text)?;
        assert_eq!(rt; got.as_str(), want);
    }
    Ok(())
}

#[test]
fn interpolated_strings(rt: HostRuntime) -> Result<(), Fail> {
    let cases: [(&[u8], &str); 29] = [
        (b"`a`", "Whole 0 3;"),
        (b"`{`a", "UnfinishedString(2)"),
        (b"`{{`", "DoubleBrace(1)"),
        (b"`a{b}c`", "Begin 0 3;Name 3 4;End 4 7;"),
        (b"`{a}{b}`", "Begin 0 2;Name 2 3;Mid 3 5;Name 5 6;End 6 8;"),
        (
            b"`{ {1} }`",
            "Begin 0 2;Sign 3 4;Numeral 4 5;Sign 5 6;End 7 9;",
        ),
        (
            b"`{`{1}`}`",
            "Begin 0 2;Begin 2 4;Numeral 4 5;End 5 7;End 7 9;",
        ),
        (b"`a{ b", "Begin 0 3;Name 4 5;"),
        (b"}", "Sign 0 1;"),
        (
            b"{}}`{1}`",
            "Sign 0 1;Sign 1 2;Sign 2 3;Begin 3 5;Numeral 5 6;End 6 8;",
        ),
        (b"`a{ \"x", "UnfinishedString(4)"),
        (b"`a{b}c", "UnfinishedString(0)"),
        (b" `{1}{2}\n`", "UnfinishedString(1)"),
        (b"`a\nb`", "UnfinishedString(0)"),
        (b"`a", "UnfinishedString(0)"),
        (b"`{`a}`", "Begin 0 2;Whole 2 6;"),
        (b"`\\u{41}`", "Whole 0 8;"),
        (b"`\\u{zz}`", "BadEscape(1)"),
        (b"`\\u{{`", "BadEscape(1)"),
        (b"`\\xg{{`", "BadEscape(1)"),
        (b"`\\xg", "UnfinishedString(0)"),
        (b"`\\xg{a}b", "BadEscape(1)"),
        (b"`\\{a`", "Whole 0 5;"),
        (b"`\\z\n {a}`", "Begin 0 6;Name 6 7;End 7 9;"),
        (b"`a}b`", "Whole 0 5;"),
        (b"`{a}{{`", "DoubleBrace(4)"),
        (b"`{a}\\xg", "UnfinishedString(0)"),
        (b"`{a}\\xg`", "BadEscape(4)"),
        (b"`{ -- } `\n}`", "Begin 0 2;End 10 12;"),
    ];
    for (text, want) in cases {
        let got = shown(rt.alloc(), text)?;
        assert_eq!(rt; got.as_str(), want);
    }
    Ok(())
}

#[test]
fn values_of_strings(rt: HostRuntime) -> Result<(), Fail> {
    let cases: [(&[u8], &str); 19] = [
        (b"\"\\0659\\u{10FFFF}\"", "4139f48fbfbf"),
        (
            b"\"\\a\\b\\f\\n\\r\\t\\v\\\\\\\"\\'\\q\"",
            "07080c0a0d090b5c222771",
        ),
        (b"\"\\z \n a\\z\"", "61"),
        (b"\"\\x41\\xfF\"", "41ff"),
        (b"\"\\1\\12\\123\\0123\"", "010c7b0c33"),
        (
            b"\"\\u{7f}\\u{80}\\u{7ff}\\u{800}\\u{D800}\\u{ffff}\\u{10000}\"",
            "7fc280dfbfe0a080eda080efbfbff0908080",
        ),
        (b"\"a\\\nb\\\r\nc\\\rd\"", "610a620a630d64"),
        (b"'\xc3\xa9'", "c3a9"),
        (b"[[\na\r\nb\rc]]", "610a620d63"),
        (b"[==[\r\n\n]==]", "0a"),
        (b"[[\n\n]]", "0a"),
        (b"[=[]]]=]", "5d5d"),
        (b"[[]]", ""),
        (b"[[\r]]", "0d"),
        (b"[[\\n]]", "5c6e"),
        (b"[[\r\r\n]]", "0d0a"),
        (b"`x\\u{41}{1}y`", "7841"),
        (b"`\\``", "60"),
        (b"''", ""),
    ];
    for (text, want) in cases {
        let got = first_value(rt.alloc(), text)?;
        assert_eq!(rt; got.as_str(), want);
    }
    Ok(())
}
