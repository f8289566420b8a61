//! The words of the program.
ghost use Rattle.std.specs.Prelude.{◌≡◌, drop, map, option_map, string_bytes};
ghost use Rattle.overlay_tool.specs.Arguments.{is_configured, parted};

use tool_setup::WordList;

/// What the arguments of the program name.
#[derive(Debug, Drop)]
pub struct Parts {
    /// The path of a configuration.
    pub config: Option<String>,
    /// The words of a command.
    pub words: WordList,
}

/// The words behind the first, which is the name of the program.
pub fn words_behind(args: Vec<String>) -> Vec<String>
    ensures { result.items ≡ drop 1 args.items }
{
    let mut words = args;
    if !words.is_empty() {
        let _name = words.remove(0);
    }
    words
}

/// The path behind `--config`, where that is the first word, and the other words. None where that
/// word stands alone.
pub fn part_words(words: Vec<String>) -> Option<Parts>
    ensures { option_map (λ parts. (option_map string_bytes parts.config, map string_bytes parts.words)) result
        ≡ parted (map string_bytes words.items) }
{
    let mut rest = words;
    if !begins_with_config(rest.as_slice()) {
        return Some(Parts {
            config: None,
            words: WordList::from_vec(rest),
        });
    }
    let _flag = rest.remove(0);
    if rest.is_empty() {
        return None;
    }
    let path = rest.remove(0);
    Some(Parts {
        config: Some(path),
        words: WordList::from_vec(rest),
    })
}

fn begins_with_config(words: &[String]) -> bool
    ensures { result ≡ is_configured (map string_bytes words.now) }
{
    match words.first() {
        Some(first) => first.as_str() == "--config",
        None => false,
    }
}
