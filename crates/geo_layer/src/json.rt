//! What the bytes of a JSON text stand for.

ghost use Rattle.std.specs.Prelude.{◌≡◌, IfOk, option_map};
ghost use Rattle.serde_json.specs.View.{view};
ghost use Rattle.geo_layer.specs.Json.{data_of};

use geo_base::refusal::Memory;
use serde_json::Value;
use std::alloc::Global;

/// The value that the bytes stand for: None exactly where they aren't UTF-8 or no JSON text,
/// which nests at most 127 deep. Memory may be refused in place of any answer.
pub fn read_json(alloc: Global, bytes: &[u8]) -> Result<Option<Value>, Memory>
    ensures { IfOk result (λ o. option_map view o ≡ data_of bytes.now) }
{
    match Value::from_slice(alloc, bytes) {
        Ok(value) => Ok(Some(value)),
        Err(error) => {
            if error.is_memory() {
                Err(Memory)
            } else {
                Ok(None)
            }
        }
    }
}
