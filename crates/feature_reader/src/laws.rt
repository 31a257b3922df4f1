//! Worked features and levels, computed from the definitions, and laws of the sets of languages, as the contracts of functions
//! that do nothing.

ghost use Rattle.std.specs.Prelude.{◌≡◌, ◌≢◌, ◌-◌, ◌^◌, ◌<◌, ◌≤◌, ◌∷◌, [], List, ℕ, pos, negsuc, codes, length, slice_get, bytes_eq, map, not, true, false, Some, Ok, Err};
ghost use Rattle.std.specs.List.{list_any};
ghost use Rattle.geo_base.specs.LangSet.{has_bit};
ghost use Rattle.geo_layer.specs.Layer.{LayerView};
ghost use Rattle.geo_layer.specs.Langs.{all_differ, are_langs, bit_of};
ghost use Rattle.feature_json.specs.Said.{Said, SaidProperties, said};
ghost use Rattle.feature_reader.specs.Languages.{all_languages, bits_of, other_languages};
ghost use Rattle.feature_reader.specs.Examples.{read, read_with_german, read_with_two, phrase_in, phrase_at, new_york_text, new_york, named, read_row, row, row_of_id, row_of_tiles, row_of_score, row_feature, paris};
ghost use Rattle.feature_reader.specs.Feature.{level, own_texts};
ghost use Rattle.feature_reader.specs.Row.{feature_of_row};
ghost use Rattle.feature_reader.specs.declared.feature.FeatureFault.TheVariants as fault;

/// Texts and the features or first faults that they stand for, in a layer of zoom 6.
pub fn worked_features()
    ensures no_id { read (codes "{\"properties\":{}}") ≡ Err fault.Id }
    ensures large_id { read (codes "{\"id\":67108864,\"properties\":{}}") ≡ Err fault.Id }
    ensures no_tiles { read (codes "{\"id\":1,\"properties\":{\"carmen:text\":\"a\"}}") ≡ Err fault.Zxy }
    ensures other_zoom { read (codes "{\"id\":1,\"properties\":{\"carmen:text\":\"a\",\"carmen:zxy\":[\"7/0/0\"]}}") ≡ Err fault.Zoom }
    ensures no_tile { read (codes "{\"id\":1,\"properties\":{\"carmen:text\":\"a\",\"carmen:zxy\":[\"6/64/0\"]}}") ≡ Err fault.Zxy }
    ensures unfinished { read (codes "{\"id\":1") ≡ Err fault.Json }
    ensures new_york { read new_york_text ≡ Ok new_york }
    ensures below_zero { read (codes "{\"id\":1,\"properties\":{\"carmen:text\":\"a\",\"carmen:zxy\":[\"6/0/0\"],\"carmen:score\":-3}}") ≡ Ok (named (phrase_at 100 (codes "a") ∷ [])) }
    ensures broken_score { read (codes "{\"id\":1,\"properties\":{\"carmen:text\":\"a\",\"carmen:zxy\":[\"6/0/0\"],\"carmen:score\":1.5}}") ≡ Err fault.Score }
    ensures other_relevance { read (codes "{\"id\":1,\"properties\":{\"carmen:text\":\"a\",\"carmen:zxy\":[\"6/0/0\"],\"carmen:relev\":50}}") ≡ Err fault.Relev }
    ensures two_parts { read (codes "{\"id\":1,\"properties\":{\"carmen:text\":\"New York,NYC\",\"carmen:zxy\":[\"6/0/0\"]}}") ≡ Ok (named (phrase_at 100 (codes "new york") ∷ phrase_at 80 (codes "nyc") ∷ [])) }
    ensures empty_part { read (codes "{\"id\":1,\"properties\":{\"carmen:text\":\"a,,b\",\"carmen:zxy\":[\"6/0/0\"]}}") ≡ Ok (named (phrase_at 100 (codes "a") ∷ phrase_at 80 (codes "b") ∷ [])) }
    ensures repeated_part { read (codes "{\"id\":1,\"properties\":{\"carmen:text\":\"a,a,a\",\"carmen:zxy\":[\"6/0/0\"]}}") ≡ Ok (named (phrase_at 100 (codes "a") ∷ phrase_at 80 (codes "a") ∷ [])) }
    ensures listed_language { read_with_german (codes "{\"id\":1,\"properties\":{\"carmen:text\":\"a\",\"carmen:text_de\":\"b\",\"carmen:zxy\":[\"6/0/0\"]}}") ≡ Ok (named (phrase_in (all_languages - 1) 100 (codes "a") ∷ phrase_in 1 100 (codes "b") ∷ [])) }
    ensures unlisted_language { read (codes "{\"id\":1,\"properties\":{\"carmen:text\":\"a\",\"carmen:text_de\":\"b\",\"carmen:zxy\":[\"6/0/0\"]}}") ≡ Ok (named (phrase_at 100 (codes "a") ∷ phrase_in 0 100 (codes "b") ∷ [])) }
    ensures two_languages { read_with_two (codes "{\"id\":1,\"properties\":{\"carmen:text\":\"a\",\"carmen:text_fr\":\"b\",\"carmen:text_en\":\"c\",\"carmen:zxy\":[\"6/0/0\"]}}") ≡ Ok (named (phrase_in (all_languages - 3) 100 (codes "a") ∷ phrase_in 2 100 (codes "c") ∷ phrase_in 1 100 (codes "b") ∷ [])) }
    ensures unlisted_beside_listed { read_with_german (codes "{\"id\":1,\"properties\":{\"carmen:text\":\"a\",\"carmen:text_de\":\"b\",\"carmen:text_fr\":\"c\",\"carmen:zxy\":[\"6/0/0\"]}}") ≡ Ok (named (phrase_in (all_languages - 1) 100 (codes "a") ∷ phrase_in 1 100 (codes "b") ∷ phrase_in 0 100 (codes "c") ∷ [])) }
    ensures broken_language { read (codes "{\"id\":1,\"properties\":{\"carmen:text\":\"a\",\"carmen:text_de\":1}}") ≡ Err fault.Text }
    ensures low_relevance { read (codes "{\"id\":1,\"properties\":{\"carmen:text\":\"a,b\",\"carmen:zxy\":[\"6/0/0\"],\"carmen:relev\":40}}") ≡ Ok (named (phrase_at 40 (codes "a") ∷ phrase_at 40 (codes "b") ∷ [])) }
{}

/// Rows and the features or first faults that they stand for, in a layer of zoom 6.
pub fn worked_rows()
    ensures paris { read_row (row (codes "7") (codes "Paris,Lutece") (codes "6/1/1 6/2/1") (codes "15")) ≡ Ok paris }
    ensures no_number { read_row (row (codes "x") (codes "Rome") (codes "6/1/1") (codes "1")) ≡ Err fault.Id }
    ensures three_fields { read_row ((codes "7") ∷ (codes "Rome") ∷ (codes "6/1/1") ∷ []) ≡ Err fault.Json }
    ensures five_fields { read_row ((codes "7") ∷ (codes "Rome") ∷ (codes "6/1/1") ∷ (codes "1") ∷ [] ∷ []) ≡ Err fault.Json }
    ensures no_fields { read_row [] ≡ Err fault.Json }
    ensures id_no_utf8 { read_row (row (0xC3 ∷ 0x28 ∷ []) (codes "Rome") (codes "6/1/1") (codes "1")) ≡ Err fault.Json }
    ensures text_no_utf8 { read_row (row (codes "x") (0xC3 ∷ 0x28 ∷ []) (codes "6/1/1") (codes "1")) ≡ Err fault.Json }
    ensures score_no_utf8 { read_row (row (codes "x") (codes "Rome") (codes "6/1/1") (0xC3 ∷ 0x28 ∷ [])) ≡ Err fault.Json }
    ensures highest_id { read_row (row_of_id (codes "0067108863")) ≡ Ok (row_feature 67108863 0) }
    ensures large_id { read_row (row_of_id (codes "67108864")) ≡ Err fault.Id }
    ensures long_id { read_row (row_of_id (codes "00000000007")) ≡ Err fault.Id }
    ensures empty_id { read_row (row_of_id []) ≡ Err fault.Id }
    ensures no_tiles { read_row (row_of_tiles []) ≡ Err fault.Zxy }
    ensures blank_tiles { read_row (row_of_tiles (codes "  ")) ≡ Err fault.Zxy }
    ensures broken_tile { read_row (row_of_tiles (codes "6/0/0 6/0")) ≡ Err fault.Zxy }
    ensures repeated_tile { read_row (row_of_tiles (codes " 6/0/0  6/0/0")) ≡ Ok (row_feature 1 0) }
    ensures other_zoom { read_row (row_of_tiles (codes "7/0/0")) ≡ Err fault.Zoom }
    ensures empty_score { read_row (row_of_score []) ≡ Ok (row_feature 1 0) }
    ensures score_zero { read_row (row_of_score (codes "-0")) ≡ Ok (row_feature 1 0) }
    ensures below_zero { read_row (row_of_score (codes "-5")) ≡ Ok (row_feature 1 0) }
    ensures broken_score { read_row (row_of_score (codes "1.5")) ≡ Err fault.Score }
    ensures plus_score { read_row (row_of_score (codes "+1")) ≡ Err fault.Score }
    ensures minus_alone { read_row (row_of_score (codes "-")) ≡ Err fault.Score }
    ensures eighteen_digits { read_row (row_of_score (codes "999999999999999999")) ≡ Ok (row_feature 1 15) }
    ensures nineteen_digits { read_row (row_of_score (codes "0000000000000000001")) ≡ Err fault.Score }
{}

/// A row lacks neither a text nor a relevance, so these faults never come of one.
pub fn rows_have_texts()
    ensures text { (layer : LayerView) (langs fields : List (List ℕ)) → feature_of_row layer langs fields ≢ Err fault.Text }
    ensures relev { (layer : LayerView) (langs fields : List (List ℕ)) → feature_of_row layer langs fields ≢ Err fault.Relev }
{}

/// Levels of scores where 1,000 is the highest.
pub fn worked_levels()
    ensures none { level 1000 (pos 0) ≡ 0 }
    ensures rounded_up { level 1000 (pos 1) ≡ 1 }
    ensures below_a_step { level 1000 (pos 66) ≡ 1 }
    ensures above_a_step { level 1000 (pos 67) ≡ 2 }
    ensures highest { level 1000 (pos 1000) ≡ 15 }
    ensures above_all { level 1000 (pos 18446744073709551615) ≡ 15 }
    ensures below_zero { level 1000 (negsuc 999) ≡ 0 }
{}

/// The languages of the text that stands for all but those with a text of their own: bit k is there where the k-th listed
/// language has none of its own, and so is each bit from the number of listed languages up to 127.
pub fn other_languages_have_bits()
    ensures listed { (langs own : List (List ℕ)) (k : ℕ) (code : List ℕ) → are_langs langs ≡ true → all_differ own ≡ true → slice_get langs k ≡ Some code → has_bit (other_languages langs own) k ≡ not (list_any (bytes_eq code) own) }
    ensures behind { (langs own : List (List ℕ)) (k : ℕ) → are_langs langs ≡ true → all_differ own ≡ true → length langs ≤ k → k < 128 → has_bit (other_languages langs own) k ≡ true }
    ensures unlisted { (langs own : List (List ℕ)) → are_langs langs ≡ true → all_differ own ≡ true → has_bit (other_languages langs own) 127 ≡ true }
{}

/// The languages of a text in one language: the bit by which a query asks for it, where it is listed; and none where it
/// isn't, while a query asks for it by bit 127.
pub fn a_language_has_its_bit()
    ensures listed_set { (langs : List (List ℕ)) (k : ℕ) (code : List ℕ) → are_langs langs ≡ true → slice_get langs k ≡ Some code → bits_of langs code ≡ 2 ^ k }
    ensures listed_bit { (langs : List (List ℕ)) (k : ℕ) (code : List ℕ) → are_langs langs ≡ true → slice_get langs k ≡ Some code → bit_of langs code ≡ k }
    ensures unlisted_set { (langs : List (List ℕ)) (code : List ℕ) → list_any (bytes_eq code) langs ≡ false → bits_of langs code ≡ 0 }
    ensures unlisted_bit { (langs : List (List ℕ)) (code : List ℕ) → list_any (bytes_eq code) langs ≡ false → bit_of langs code ≡ 127 }
{}

/// The codes of a feature's texts in languages all differ, as [`other_languages_have_bits`] asks of them.
pub fn own_codes_differ()
    ensures differ { (bytes : List ℕ) (s : Said) (p : SaidProperties) (own : List (List ℕ × List ℕ)) → said bytes ≡ Some s → s.properties ≡ Some p → own_texts p.values.own ≡ Some own → all_differ (map (λ t. t.0) own) ≡ true }
{}
