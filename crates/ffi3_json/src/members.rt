//! The members of objects of either kind.
ghost use Rattle.std.specs.Prelude.{◌≡◌, map, option_map};
ghost use Rattle.json.specs.Value.{members_view as text_members};
ghost use Rattle.serde_json.specs.View.{view, members_view};
ghost use Rattle.ffi3_script_spec.specs.Language.{has_only};
ghost use Rattle.ffi3_json.specs.InText.{each_is_key};
ghost use Rattle.ffi3_json.specs.KeyOf.{key_of};
ghost use Rattle.ffi3_json.specs.Parts.{member_in};

use crate::Json;
use crate::keys::{Key, is_key_of};
use json::Value;
use serde_json::Map;

/// Whether each member has one of these keys.
pub(crate) fn owned_have_only(members: &Map<String, Json>, keys: &[Key]) -> bool
    ensures { result ≡ has_only (map key_of keys.now) (members_view members.now.entries) }
{
    for (name, _member) in members.iter() {
        if !is_key_of(keys, name.as_str()) {
            return false;
        }
    }
    true
}

/// Whether each member has one of these keys.
pub(crate) fn borrowed_have_only(members: &Vec<(&str, Value)>, keys: &[Key]) -> bool
    ensures { result ≡ each_is_key (map key_of keys.now) (text_members members.now.items) }
{
    for member in members {
        if !is_key_of(keys, member.0) {
            return false;
        }
    }
    true
}

/// Key and value of the one member, where there is no other.
pub(crate) fn owned_only_member<'a>(members: &'a Map<String, Json>) -> Option<(&'a str, &'a Json)>
    ensures { option_map (λ m. (m.0.now, view m.1.now)) result ≡ member_in (members_view members.now.entries) }
{
    if members.len() != 1 {
        return None;
    }
    match members.iter().next() {
        Some((name, json)) => Some((name.as_str(), json)),
        None => None,
    }
}
