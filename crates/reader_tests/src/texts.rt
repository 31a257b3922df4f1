//! Texts, tokens and what they are replaced by.

ghost use Rattle.geo_text.specs.Words.{IsWord};

use geo_text::cut::is_word;
use geo_text::text::{Text, Tokens};
use geo_text::token_map::TokenMap;
use geo_text::tokens::{joined, normal, replaced, tokens};
use std::alloc::Global;
use std::process::Abort;

/// A word of 70 letters.
const LONG: &str = "abcdefghijabcdefghijabcdefghijabcdefghijabcdefghijabcdefghijabcdefghij";

/// The text as a word.
fn word(rt: &impl Abort, alloc: Global, text: &str) -> Text
    ensures { IsWord result }
{
    assert!(rt; is_word(text.as_bytes()));
    Text::of(alloc, text).expect(rt, "memory")
}

/// Has the map replace a token from now on.
fn replace(rt: &impl Abort, alloc: Global, map: &mut TokenMap, token: &str, text: &str) {
    let (token, text) = (word(rt, alloc, token), word(rt, alloc, text));
    map.insert(token, text).expect(rt, "memory");
}

/// Appends the tokens, each in brackets.
fn push_list(rt: &impl Abort, out: &mut Text, list: &Tokens) {
    for token in list.as_slice() {
        out.push("[").expect(rt, "memory");
        out.push(token.as_str()).expect(rt, "memory");
        out.push("]").expect(rt, "memory");
    }
}

/// Appends a copy of the tokens and the first four of them as a text.
fn push_tokens(rt: &impl Abort, alloc: Global, out: &mut Text, list: &Tokens) {
    let copy = list.copy().expect(rt, "memory");
    push_list(rt, out, &copy);
    assert!(rt; copy.len() > 3);
    let text = joined(alloc, &copy, 0, 4).expect(rt, "memory");
    out.push(text.as_str()).expect(rt, "memory");
    out.push("\n").expect(rt, "memory");
}

/// The normal form of a text, its tokens, and those tokens replaced again.
const CUT: &str = "\
main street, st-streets north
[main][st][saint][streets][abcdefghijabcdefghijabcdefghijabcdefghijabcdefghijabcdefghijabcdefghij]main st saint streets
[main][saint][saint][streets][long]main saint saint streets
";

#[test]
fn texts_are_cut_replaced_and_joined(rt: HostRuntime) {
    let alloc = rt.alloc();
    let mut map = TokenMap::new(alloc);
    for (token, text) in [
        ("street", "st"),
        ("st", "saint"),
        ("north", LONG),
        (LONG, "long"),
    ] {
        replace(&rt, alloc, &mut map, token, text);
    }
    let text = "Main Street, ST-streets NORTH";
    let list = tokens(alloc, text, &map).expect(&rt, "memory");
    let again = replaced(alloc, &list, &map).expect(&rt, "memory");
    let mut out = normal(alloc, text).expect(&rt, "memory");
    out.push("\n").expect(&rt, "memory");
    push_tokens(&rt, alloc, &mut out, &list);
    push_tokens(&rt, alloc, &mut out, &again);
    let copy = out.copy().expect(&rt, "memory");
    assert!(rt; copy.as_str() == CUT);
}
