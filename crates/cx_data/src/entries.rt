//! The member of a memory in the top object of a data file.

ghost use Rattle.std.specs.Prelude.{◌≡◌, option_map};
ghost use Rattle.serde_json.specs.View.{view, number_view};
ghost use Rattle.cx_data.specs.Load.{plain_entry, entry_of, member_of, is_width};

use serde_json::{Number, Value};
use std::str;

/// What the member of a memory says.
#[derive(Clone, Copy)]
pub(crate) struct Entry<'a> {
    pub(crate) signed: bool,
    pub(crate) width: &'a Number,
    pub(crate) numbers: &'a Value,
}

/// The member of this name. A key is UTF-8, so a name that is not is no key.
pub(crate) fn member_of<'a>(top: &'a Value, name: &[u8]) -> Option<&'a Value>
    ensures value { option_map (λ v. view v.now) result ≡ member_of name.now (view top.now) }
{
    match str::from_utf8(name) {
        Ok(name) => top.get(name),
        Err(_) => None,
    }
}

/// What a member says, where it has `data`, and a `format` with the three keys of the right kinds and `bitnum`.
pub(crate) fn entry_of(member: &Value) -> Option<Entry<'_>>
    ensures value { option_map (λ e. plain_entry e.signed (number_view e.width.now) (view e.numbers.now)) result
        ≡ entry_of (view member.now) }
{
    let numbers = member.get("data")?;
    let format = member.get("format")?;
    let kind = format.get("numeric_type")?.as_str()?;
    let signed = format.get("is_signed")?.as_bool()?;
    let width = format.get("width")?.as_number()?;
    if kind == "bitnum" {
        Some(Entry {
            signed,
            width,
            numbers,
        })
    } else {
        None
    }
}

/// Whether a number is this width.
pub(crate) fn is_width(number: &Number, width: u8) -> bool
    ensures value { result ≡ is_width width (number_view number.now) }
{
    match number.as_u64() {
        Some(n) => n == width as u64,
        None => false,
    }
}
