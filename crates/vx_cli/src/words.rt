// What the words of a call ask for.
ghost use Rattle.std.specs.Prelude.{◌≡◌, map, length, Some, true};
ghost use Rattle.std.specs.String.{string_bytes};
ghost use Rattle.vx_cli.specs.Words.{run_words};

/// Whether the words ask for a run, and then whether its disks are kept in files: `run` alone, or `run --dir D`.
pub fn asks_run(words: &[String]) -> Option<bool>
    ensures asks { result ≡ run_words (map string_bytes words.now) }
    ensures dir { result ≡ Some true → length words.now ≡ 3 }
{
    match words {
        [word] => {
            if word.as_str() == "run" {
                Some(false)
            } else {
                None
            }
        }
        [word, option, _] => {
            if word.as_str() == "run" && option.as_str() == "--dir" {
                Some(true)
            } else {
                None
            }
        }
        _ => None,
    }
}
