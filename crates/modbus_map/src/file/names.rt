//! Names that must differ.

use toml::value::Value;

/// The name that a table tells, for an error; a word in its place where it tells none.
pub(crate) fn told_name(value: &Value) -> &str {
    match value.get("name") {
        Some(Value::String(name)) => name.as_str(),
        _ => "without a name",
    }
}

/// A name that stands twice among these. Sorts them, so that many take few steps.
pub(crate) fn first_repeat<'a>(names: &mut Vec<&'a str>) -> Option<&'a str> {
    names.as_mut_slice().sort_unstable();
    let mut previous = None;
    for name in names.iter() {
        if previous == Some(*name) {
            return Some(*name);
        }
        previous = Some(*name);
    }
    None
}
