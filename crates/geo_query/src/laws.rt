//! Laws of the definitions, as the contracts of functions that do nothing.

ghost use Rattle.std.specs.Prelude.{◌≡◌, true, false, None, Some, Ok, Err, codes, encode_utf8_all, replicate};
ghost use Rattle.geo_query.specs.Query.{query_of};
ghost use Rattle.geo_query.specs.Examples.{new_y, usa, middle, one_token};
ghost use Rattle.geo_query.specs.declared.query.QueryFault.TheVariants as fault;

/// What some worked lines spell.
pub fn worked_queries()
    ensures no_options { query_of (codes "new y") ≡ Ok (new_y true) }
    ensures whole { query_of (codes "auto=0 | new y") ≡ Ok (new_y false) }
    ensures in_box { query_of (codes "box=7/64/64/64/64 | usa") ≡ Ok (usa None (Some middle)) }
    ensures in_language { query_of (codes "lang=fr | usa") ≡ Ok (usa (Some (codes "fr")) None) }
{}

/// A text has at most 256 characters, whatever the number of its bytes.
pub fn worked_lengths()
    ensures longest { query_of (encode_utf8_all (replicate 256 0xE9)) ≡ Ok (one_token (replicate 256 0x65)) }
    ensures too_long { query_of (encode_utf8_all (replicate 257 0xE9)) ≡ Err fault.Long }
{}

/// The faults of some worked lines.
pub fn worked_faults()
    ensures value { query_of (codes "auto=2 | usa") ≡ Err fault.WrongOption }
    ensures name { query_of (codes "speed=1 | usa") ≡ Err fault.WrongOption }
    ensures zero { query_of (codes "auto=01 | usa") ≡ Err fault.WrongOption }
    ensures twice { query_of (codes "auto=0 auto=0 | usa") ≡ Err fault.WrongOption }
    ensures no_sign { query_of (codes "x | usa") ≡ Err fault.WrongOption }
    ensures no_code { query_of (codes "lang= | usa") ≡ Err fault.WrongOption }
    ensures first_column_last { query_of (codes "box=7/65/64/64/64 | usa") ≡ Err fault.Box }
    ensures option_first { query_of (codes "box=1 x | usa") ≡ Err fault.WrongOption }
    ensures box_first { query_of (codes "box=1 | ,-") ≡ Err fault.Box }
    ensures no_token { query_of (codes ",-") ≡ Err fault.Empty }
    ensures no_text { query_of (codes "") ≡ Err fault.Empty }
{}
