//! Laws of the definitions, as the contracts of functions that do nothing.

ghost use Rattle.std.specs.Prelude.{◌≡◌, ◌∷◌, [], codes, encode_utf8_all};
ghost use Rattle.geo_text.specs.Examples.{kitab, han};
ghost use Rattle.geo_text.specs.Normal.{normal};
ghost use Rattle.geo_text.specs.Tokens.{tokens_of};

/// The normal form of a worked text, and the tokens of some.
pub fn worked_texts()
    ensures normal_form { normal (encode_utf8_all (codes "Ångström-5, X")) ≡ codes "angstrom-5, x" }
    ensures normal_accent { normal (encode_utf8_all (codes "É")) ≡ codes "e" }
    ensures accent { tokens_of (encode_utf8_all (codes "É")) ≡ codes "e" ∷ [] }
    ensures one_mark_apart { tokens_of (encode_utf8_all (0x45 ∷ 0x301 ∷ [])) ≡ codes "e" ∷ [] }
    ensures sharp_s { tokens_of (encode_utf8_all (codes "Große")) ≡ codes "grosse" ∷ [] }
    ensures breaks { tokens_of (encode_utf8_all (codes "Ångström-5, X")) ≡ codes "angstrom" ∷ codes "5" ∷ codes "x" ∷ [] }
    ensures ligature { tokens_of (encode_utf8_all (codes "ﬁx")) ≡ codes "fix" ∷ [] }
    ensures capitals { tokens_of (encode_utf8_all (codes "ΟΔΟΣ")) ≡ encode_utf8_all (codes "οδοσ") ∷ [] }
    ensures final_sigma { tokens_of (encode_utf8_all (codes "οδος")) ≡ encode_utf8_all (codes "οδοσ") ∷ [] }
    ensures tonos { tokens_of (encode_utf8_all (codes "οδός")) ≡ encode_utf8_all (codes "οδοσ") ∷ [] }
    ensures syllable { tokens_of (encode_utf8_all (codes "한")) ≡ encode_utf8_all han ∷ [] }
    ensures vowel_marks { tokens_of (encode_utf8_all kitab) ≡ encode_utf8_all kitab ∷ [] }
    ensures digits { tokens_of (encode_utf8_all (codes "१२")) ≡ encode_utf8_all (codes "१२") ∷ [] }
    ensures picture { tokens_of (encode_utf8_all (codes "a😀b")) ≡ codes "a" ∷ codes "b" ∷ [] }
    ensures apostrophe { tokens_of (encode_utf8_all (codes "L’Aquila")) ≡ codes "l" ∷ codes "aquila" ∷ [] }
{}
