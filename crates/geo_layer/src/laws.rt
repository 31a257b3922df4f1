//! Laws of the definitions, and worked languages and layers, as the contracts of functions that do nothing.

ghost use Rattle.std.specs.Prelude.{◌≡◌, ℕ, List, [], ◌∷◌, codes, Some, None, Ok, Err};
ghost use Rattle.geo_layer.specs.Layer.{LayerView, compat};
ghost use Rattle.geo_layer.specs.Langs.{langs_of};
ghost use Rattle.geo_layer.specs.LayerText.{layer_of};
ghost use Rattle.geo_layer.specs.Examples.{plain, sixteen, stacked_text, stacked, street_text, street, greek_text, greek};
ghost use Rattle.geo_layer.specs.declared.layer.LayerFault.TheVariants as fault;

/// That two layers are compatible says the same of either order.
pub fn compatible_is_symmetric()
    ensures { (layers : List LayerView) (a b : ℕ) → compat layers a b ≡ compat layers b a }
{}

/// The languages that some lines list.
pub fn worked_langs()
    ensures two { langs_of (codes "fr en") ≡ Some (codes "fr" ∷ codes "en" ∷ []) }
    ensures nothing { langs_of [] ≡ None }
    ensures twice { langs_of (codes "fr fr") ≡ None }
    ensures digit { langs_of (codes "1a") ≡ None }
{}

/// Texts and the layers or first faults that they stand for.
pub fn worked_layers()
    ensures falling { layer_of (plain (codes "b") 6 ∷ []) (codes "{\"name\":\"a\",\"zoom\":5}") ≡ Err fault.Falling }
    ensures capital { layer_of [] (codes "{\"name\":\"A\",\"zoom\":6}") ≡ Err fault.Name }
    ensures no_object { layer_of [] (codes "[]") ≡ Err fault.Json }
    ensures seventeenth { layer_of sixteen (codes "{\"name\":\"a\",\"zoom\":0}") ≡ Err fault.TooMany }
    ensures high_zoom { layer_of [] (codes "{\"name\":\"a\",\"zoom\":17}") ≡ Err fault.Zoom }
    ensures point { layer_of [] (codes "{\"name\":\"a\",\"zoom\":6.0}") ≡ Err fault.Zoom }
    ensures stack_word { layer_of [] (codes "{\"name\":\"a\",\"zoom\":6,\"stack\":[\"de\",\"At\"]}") ≡ Err fault.Stack }
    ensures stacked { layer_of [] stacked_text ≡ Ok stacked }
    ensures one_token_twice { layer_of [] (codes "{\"name\":\"a\",\"zoom\":6,\"tokens\":{\"St\":\"a\",\"st\":\"b\"}}") ≡ Err fault.Tokens }
    ensures no_scale { layer_of [] (codes "{\"name\":\"a\",\"zoom\":6,\"scoremax\":0}") ≡ Err fault.ScoreMax }
    ensures street { layer_of [] street_text ≡ Ok street }
    ensures greek { layer_of [] greek_text ≡ Ok greek }
{}
