//! Names and the options after them, as commands share them. Depends on the options.
ghost use Rattle.std.specs.Option.{option_map};
ghost use Rattle.std.specs.Prelude.{◌≡◌, IfSome, length, map, string_bytes};
ghost use Rattle.recon_cmd.specs.Words.{named, named_view};

use crate::options::{Key, Options, understand_options};
use command_run::are_names;

/// All options of commands with one best surface.
pub const ALL_KEYS: [Key; 4] = [Key::Unit, Key::Vote, Key::Smooth, Key::Scanner];

/// Names, and the options after them.
#[derive(Clone, Copy, Debug)]
pub struct NamesAndOptions<'a> {
    /// The names, in order.
    pub names: &'a [String],
    /// The options.
    pub options: Options,
}

/// Parses this number of names, and then options with these keys, and returns `None` exactly if the arguments are something
/// else. Names are not empty, and no two are equal.
pub fn named<'a>(words: &'a [String], count: usize, keys: &[Key]) -> Option<NamesAndOptions<'a>>
    ensures is { option_map named_view result ≡ named count keys.now (map string_bytes words.now) }
    ensures many { IfSome result (λ held. length held.names.now ≡ count) }
{
    if words.len() < count {
        return None;
    }
    let names = &words[..count];
    if !are_names(names) {
        return None;
    }
    let options = understand_options(keys, &words[count..])?;
    Some(NamesAndOptions { names, options })
}
