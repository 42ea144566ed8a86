//! Parts of values that borrow their texts.
ghost use Rattle.std.specs.Prelude.{◌≡◌, IfSome, option_map};
ghost use Rattle.json.specs.Find as find;
ghost use Rattle.json.specs.Value.{value_view, items_view, members_view};
ghost use Rattle.ffi3_json.specs.InText.{data_in, HasNumbers};
ghost use Rattle.ffi3_json.specs.Parts.{only_member};

use crate::keys::required;
use crate::members::borrowed_have_only;
use json::Value;

/// The items, where this is an array.
pub(crate) fn items_of<'t, 'a>(value: &'t Value<'a>) -> Option<&'t Vec<Value<'a>>>
    ensures { option_map (λ v. items_view v.now.items) result ≡ find.as_array (value_view value.now) }
{
    if let Value::Array(items) = value {
        Some(items)
    } else {
        None
    }
}

/// The members, where this is an object.
pub(crate) fn members_of<'t, 'a>(value: &'t Value<'a>) -> Option<&'t Vec<(&'a str, Value<'a>)>>
    ensures { option_map (λ v. members_view v.now.items) result ≡ find.as_object (value_view value.now) }
{
    if let Value::Object(members) = value {
        Some(members)
    } else {
        None
    }
}

/// The one key that the members of an object have, and the last value. None where there is another key, or no member,
/// and where this is no object.
pub(crate) fn only_member<'t, 'a>(value: &'t Value<'a>) -> Option<(&'a str, &'t Value<'a>)>
    requires { HasNumbers (value_view value.now) }
    ensures value { option_map (λ m. (m.0.now, data_in (value_view m.1.now))) result
        ≡ only_member (data_in (value_view value.now)) }
    ensures numbers { IfSome result (λ m. HasNumbers (value_view m.1.now)) }
{
    let Some(members) = members_of(value) else {
        return None;
    };
    if members.len() < 1 {
        return None;
    }
    let name = members[0].0;
    let Some(inside) = value.get(name) else {
        return None;
    };
    if !borrowed_have_only(members, &[required(name)]) {
        return None;
    }
    Some((name, inside))
}
