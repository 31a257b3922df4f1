//! The texts in languages among the properties of a feature.

ghost use Rattle.std.specs.Prelude.{◌≡◌, is_some, if◌then◌else◌, Some, None, MatchResult};
ghost use Rattle.geo_base.specs.LangCode.{is_code};
ghost use Rattle.feature_json.specs.Shape.{shape_of};
ghost use Rattle.feature_reader.specs.Languages.{all_languages, bits_of};
ghost use Rattle.feature_reader.specs.Feature.{text_code, own_texts};
ghost use Rattle.feature_reader.specs.Collected.{own_text, list_of_text, after_texts, after_members, without_language};

use feature_json::own_members::OwnMembers;
use feature_json::seen::Seen;
use geo_base::lang_code::LangCode;
use geo_base::lang_set::LangSet;
use geo_layer::langs::Langs;

/// A text in a language is no string.
#[derive(Clone, Copy, Debug, PartialEq, Eq, Drop)]
pub struct NoString;

/// The code that a text is.
fn code(text: &str) -> Option<LangCode>
    ensures { result ≡ (if is_code text.now then Some text.now else None) }
{
    LangCode::new(text)
}

/// The code of a member `carmen:text_CODE`.
fn text_code(name: &str) -> Option<LangCode>
    ensures { result ≡ text_code name.now }
{
    match name.strip_prefix("carmen:text_") {
        Some(rest) => code(rest),
        None => None,
    }
}

/// The code and the text of a member that is a text in a language: None where it is another one or null, an error where it
/// isn't a string.
pub fn own_text<'a>(name: &str, seen: &Seen<'a>) -> Result<Option<(LangCode, &'a str)>, NoString>
    ensures { MatchResult result (λ o. own_text (name.now, shape_of seen.now) ≡ Some (list_of_text o)) (λ _. own_text (name.now, shape_of seen.now) ≡ None) }
{
    let Some(code) = text_code(name) else {
        return Ok(None);
    };
    match *seen {
        Seen::Null => Ok(None),
        Seen::Text(text) => Ok(Some((code, text))),
        _ => Err(NoString),
    }
}

/// The member isn't a text in a language without being a string.
fn is_string_or_other(name: &str, seen: &Seen<'_>) -> bool
    ensures { result ≡ is_some (own_text (name.now, shape_of seen.now)) }
{
    own_text(name, seen).is_ok()
}

/// Each text in a language is a string.
pub fn are_strings(members: &OwnMembers<'_>) -> bool
    ensures { result ≡ is_some (own_texts members.now) }
{
    members
        .entries()
        .all(|(name, seen)| is_string_or_other(name, seen))
}

/// The set with the bit of a language alone; no bit where it isn't listed.
pub fn bits_of(langs: &Langs, code: &LangCode) -> LangSet
    ensures { result.bits ≡ bits_of langs.now code.now }
{
    let _few = langs.len();
    let bit = langs.bit(code);
    if bit < 127 {
        LangSet { bits: 1 << bit }
    } else {
        LangSet { bits: 0 }
    }
}

/// The languages without that of a member which is a text in a language.
fn without(set: LangSet, langs: &Langs, name: &str, seen: &Seen<'_>) -> LangSet
    ensures { result.bits ≡ after_texts (without_language langs.now) set.bits (own_text (name.now, shape_of seen.now)) }
{
    match own_text(name, seen) {
        Ok(Some((code, _))) => LangSet {
            bits: set.bits.saturating_sub(bits_of(langs, &code).bits), // no two members have one code
        },
        Ok(None) => set,
        Err(_) => set,
    }
}

/// The languages without those of the members which are texts in languages.
pub fn other_languages(langs: &Langs, members: &OwnMembers<'_>) -> LangSet
    ensures { result.bits ≡ after_members (without_language langs.now) all_languages members.now }
{
    let mut set = LangSet { bits: u128::MAX };
    for (name, seen) in members.entries() {
        set = without(set, langs, name, seen);
    }
    set
}
