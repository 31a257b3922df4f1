//! The phrases of a feature's texts.

ghost use Rattle.std.specs.Prelude.{◌≡◌, [], List, ℕ, min, fold, Some, IfOk};
ghost use Rattle.geo_text.specs.Tokens.{tokens_of, replaced};
ghost use Rattle.feature_json.specs.Shape.{shape_of};
ghost use Rattle.std.specs.List.{list_any};
ghost use Rattle.feature_reader.specs.Feature.{own_texts, phrases_of, same_phrase, all_phrases};
ghost use Rattle.feature_reader.specs.Collected.{own_text, AreSeen, phrase_of_key, after_texts, after_members, with_phrase, with_own, with_piece};

use crate::own_texts::{bits_of, other_languages, own_text};
use crate::phrase::{Phrase, Phrases};
use feature_json::own_members::OwnMembers;
use feature_json::seen::Seen;
use geo_base::lang_set::LangSet;
use geo_base::refusal::Memory;
use geo_layer::langs::Langs;
use geo_text::cut::cut_text;
use geo_text::normalizer::Normalizer;
use geo_text::token_map::TokenMap;
use std::alloc::Global;
use std::collections::BTreeSet;
use std::marker::Model;

/// A phrase as it is looked up.
#[derive(PartialEq, Eq, PartialOrd, Ord, Drop)]
struct PhraseKey {
    text: String,
    bits: u128,
    relev: u8,
}

/// The key of a phrase.
fn key_of(phrase: &Phrase) -> Result<PhraseKey, Memory>
    ensures { IfOk result (λ key. phrase_of_key key ≡ phrase.now) }
{
    Ok(PhraseKey {
        text: phrase.text.copy()?.into_string(),
        bits: phrase.set.bits,
        relev: phrase.relev,
    })
}

/// The keys of the phrases.
fn keys_of(alloc: Global, phrases: &[Phrase]) -> Result<BTreeSet<PhraseKey>, Memory>
    ensures { IfOk result (λ seen. AreSeen seen phrases.now) }
{
    let mut seen = BTreeSet::new(alloc);
    for phrase in phrases {
        let _new = seen.insert(key_of(phrase)?)?;
    }
    Ok(seen)
}

/// The same text in the same languages with the same relevance.
fn is_same(phrase: &Phrase, other: &Phrase) -> bool
    ensures { result ≡ same_phrase phrase.now other.now }
{
    if phrase.set.bits != other.set.bits {
        return false;
    }
    if phrase.relev != other.relev {
        return false;
    }
    phrase.text.as_str() == other.text.as_str()
}

/// The phrase stands among these.
fn is_among(phrases: &[Phrase], phrase: &Phrase) -> bool
    ensures { result ≡ list_any (same_phrase phrase.now) phrases.now }
{
    phrases.iter().any(|other| is_same(phrase, other))
}

/// The most phrases that a new one is compared with one by one.
const FEW: usize = 32;

/// The phrases of a feature so far, seen as their list. Where there are many, the set in which a repeat is looked up stands
/// beside them.
#[derive(Drop)]
struct Collected {
    phrases: Phrases,
    seen: Option<BTreeSet<PhraseKey>>,
}

impl Model for Collected {
    ghost use Rattle.std.specs.Prelude.{List, IfSome};
    ghost use Rattle.feature_reader.specs.declared.phrase.Phrase.{Phrase};
    ghost use Rattle.feature_reader.specs.Collected.{AreSeen};

    ghost Value = { List Phrase };

    ghost view = { λ c. c.phrases };

    ghost invariant = { λ c. IfSome c.seen (λ seen. AreSeen seen c.phrases) };
}

/// The lower of a relevance and a cap.
fn at_most(cap: u8, relev: u8) -> u8
    ensures { result ≡ min cap relev }
{
    if cap < relev { cap } else { relev }
}

/// The phrases with one more, unless it stands among them, which is looked up.
fn with_looked_up(
    phrases: Phrases,
    seen: BTreeSet<PhraseKey>,
    phrase: Phrase,
) -> Result<Collected, Memory>
    requires { AreSeen seen phrases }
    ensures { IfOk result (λ all. all ≡ with_phrase phrases phrase) }
{
    let (mut phrases, mut seen) = (phrases, seen);
    if seen.insert(key_of(&phrase)?)? {
        phrases.push(phrase)?;
        return Ok(Collected {
            phrases,
            seen: Some(seen),
        });
    }
    Ok(Collected {
        phrases,
        seen: Some(seen),
    })
}

/// The phrases with one more, unless it stands among them, with which it is compared one by one.
fn with_compared(alloc: Global, phrases: Phrases, phrase: Phrase) -> Result<Collected, Memory>
    ensures { IfOk result (λ all. all ≡ with_phrase phrases phrase) }
{
    let mut phrases = phrases;
    if is_among(phrases.as_slice(), &phrase) {
        return Ok(Collected {
            phrases,
            seen: None,
        });
    }
    phrases.push(phrase)?;
    if phrases.len() < FEW {
        return Ok(Collected {
            phrases,
            seen: None,
        });
    }
    let seen = keys_of(alloc, phrases.as_slice())?;
    Ok(Collected {
        phrases,
        seen: Some(seen),
    })
}

impl Collected {
    /// No phrases.
    fn new(alloc: Global) -> Collected
        ensures { result ≡ [] }
    {
        Collected {
            phrases: Phrases::new(alloc),
            seen: None,
        }
    }

    /// The phrases with one more, unless it stands among them.
    fn with_phrase(self, alloc: Global, phrase: Phrase) -> Result<Collected, Memory>
        ensures { IfOk result (λ phrases. phrases ≡ with_phrase self phrase) }
    {
        let Collected { phrases, seen } = self;
        match seen {
            Some(seen) => with_looked_up(phrases, seen, phrase),
            None => with_compared(alloc, phrases, phrase),
        }
    }

    /// The phrases with that of one more piece of a text, where it has 1 to 20 tokens, and the relevance of the next part.
    fn with_piece(
        self,
        alloc: Global,
        normalizer: &mut Normalizer,
        piece: &str,
        replace: &TokenMap,
        set: LangSet,
        cap: u8,
        relev: u8,
    ) -> Result<(Collected, u8), Memory>
        ensures { IfOk result (λ r. r ≡ with_piece set.bits cap (self, relev) (replaced replace.now (tokens_of piece.now))) }
    {
        let Some(text) = normalizer.phrase(piece, replace)? else {
            return Ok((self, relev));
        };
        let collected = self.with_phrase(alloc, Phrase { text, set, relev })?;
        Ok((collected, at_most(cap, 80)))
    }

    /// The phrases with those of one more text: one for each of its pieces between commas that has 1 to 20 tokens.
    fn with_text(
        self,
        alloc: Global,
        normalizer: &mut Normalizer,
        text: &str,
        replace: &TokenMap,
        set: LangSet,
        cap: u8,
    ) -> Result<Collected, Memory>
        ensures { IfOk result (λ phrases. phrases ≡ fold with_phrase self (phrases_of replace.now cap text.now set.bits)) }
    {
        let mut collected = self;
        let mut relev = at_most(cap, 100);
        let mut rest = text;
        while let Some((piece, more)) = cut_text(rest, b',') {
            let (with, next) = collected.with_piece(
                alloc, normalizer, piece, replace, set, cap, relev,
            )?;
            collected = with;
            relev = next;
            rest = more;
        }
        let (all, _) = collected.with_piece(alloc, normalizer, rest, replace, set, cap, relev)?;
        Ok(all)
    }

    /// The phrases with those of a member that is a text in a language.
    fn with_member(
        self,
        alloc: Global,
        normalizer: &mut Normalizer,
        name: &str,
        seen: &Seen<'_>,
        langs: &Langs,
        replace: &TokenMap,
        cap: u8,
    ) -> Result<Collected, Memory>
        ensures { IfOk result (λ phrases. phrases ≡ after_texts (with_own replace.now langs.now cap) self (own_text (name.now, shape_of seen.now))) }
    {
        match own_text(name, seen) {
            Ok(Some((code, text))) => {
                let set = bits_of(langs, &code);
                self.with_text(alloc, normalizer, text, replace, set, cap)
            }
            Ok(None) => Ok(self),
            Err(_) => Ok(self),
        }
    }

    /// The phrases.
    fn into_phrases(self) -> Phrases
        ensures { result ≡ self }
    {
        self.phrases
    }
}

/// The phrases of a feature with this text without a language and these texts in languages: one for each
/// piece between commas, of that text and then of the texts in languages, that has 1 to 20 tokens, each once, at its first
/// place. The first such piece of a text has relevance 100 and the later ones 80, each at most the cap.
///
/// Whether a phrase stands already is looked up in a tree where there are many, so the time is in proportion to the length
/// of the texts and the logarithm of the number of phrases. Memory may be refused in place of any answer.
pub fn all_phrases(
    alloc: Global,
    normalizer: &mut Normalizer,
    langs: &Langs,
    text: &str,
    members: &OwnMembers<'_>,
    replace: &TokenMap,
    cap: u8,
) -> Result<Phrases, Memory>
    ensures { IfOk result (λ phrases. (own : List (List ℕ × List ℕ)) → own_texts members.now ≡ Some own → phrases ≡ all_phrases replace.now langs.now cap text.now own) }
{
    let others = other_languages(langs, members);
    let mut collected = Collected::new(alloc).with_text(
        alloc, normalizer, text, replace, others, cap,
    )?;
    for (name, seen) in members.entries() {
        collected = collected.with_member(alloc, normalizer, name, seen, langs, replace, cap)?;
    }
    Ok(collected.into_phrases())
}
