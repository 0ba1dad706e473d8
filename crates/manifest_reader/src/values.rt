//! Looking into a JSON value.
//! Source: RFC 8259, as `serde_json` reads it.
ghost use Rattle.std.specs.Prelude.{◌≡◌, map, option_map, string_bytes};
ghost use Rattle.serde_json.specs.View.{view};
ghost use Rattle.manifest_reader.specs.Values as values;

use crate::keys::Key;
use serde_json::Value;

/// The value at a key of an object.
#[tactic(auto, unfolding(crate::specs::Values::at))]
pub(crate) fn at(object: &Value, key: Key) -> Option<&Value>
    ensures { option_map (λ v. view v.now) result ≡ values.at key (view object.now) }
{
    object.get(key.as_str())
}

/// The text at a key of an object.
#[tactic(auto, unfolding(crate::specs::Values::text_at))]
pub(crate) fn text_at(object: &Value, key: Key) -> Option<&str>
    ensures { option_map (λ s. s.now) result ≡ values.text_at key (view object.now) }
{
    match at(object, key) {
        Some(value) => value.as_str(),
        None => None,
    }
}

/// Whether the text at a key is this one.
#[tactic(auto, unfolding(crate::specs::Values::says))]
pub(crate) fn says(object: &Value, key: Key, word: &str) -> bool
    ensures { result ≡ values.says key word.now (view object.now) }
{
    match text_at(object, key) {
        Some(text) => text == word,
        None => false,
    }
}

/// The elements of an array, and none of any other value.
#[tactic(auto, using(crate::proofs::Views::items_are_listed), unfolding(crate::specs::Values::elements))]
pub(crate) fn elements(value: &Value) -> &[Value]
    ensures { map view result.now ≡ values.elements (view value.now) }
{
    match value.as_array() {
        Some(list) => list.as_slice(),
        None => &[],
    }
}

/// The first member of an object by the byte order of keys.
#[tactic(auto, unfolding(crate::specs::Values::first_member))]
pub(crate) fn first_member(value: &Value) -> Option<(&String, &Value)>
    ensures { option_map (λ m. (string_bytes m.0.now, view m.1.now)) result
        ≡ values.first_member (view value.now) }
{
    match value.as_object() {
        Some(members) => members.first_key_value(),
        None => None,
    }
}
