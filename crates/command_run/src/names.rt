//! The names of files among the arguments of a command.
ghost use Rattle.std.specs.Prelude.{◌≡◌, map, string_bytes};
ghost use Rattle.command_run.specs.Words.{are_names, is_name, is_other};

/// Returns whether none of the names is empty, and no two are equal. Two spellings of one path are two names.
pub fn are_names(names: &[String]) -> bool
    ensures { result ≡ are_names (map string_bytes names.now) }
{
    for k in 0..names.len() {
        if !is_name(names[k].as_str(), &names[k + 1..]) {
            return false;
        }
    }
    true
}

/// Returns whether the name is not empty, and none of these.
pub fn is_name(name: &str, others: &[String]) -> bool
    ensures { result ≡ is_name name.now (map string_bytes others.now) }
{
    !name.is_empty() && is_none_of(name, others)
}

/// Returns whether the name is none of these.
fn is_none_of(name: &str, others: &[String]) -> bool
    ensures { result ≡ is_other name.now (map string_bytes others.now) }
{
    for other in others {
        if name == other.as_str() {
            return false;
        }
    }
    true
}
