// How the words of a command are spelt, whatever command it is.
ghost use Rattle.std.specs.Prelude.{◌≡◌};
ghost use Rattle.std.specs.List.{list_all};
ghost use Rattle.std.specs.Char.{is_ascii_digit};
ghost use Rattle.subcommands.specs.Subcommands as numbers;
ghost use Rattle.subcommands.specs.Spelling as spec;

/// Whether each of the bytes is a decimal digit.
fn are_digits(bytes: &[u8]) -> bool
    ensures { result ≡ list_all is_ascii_digit bytes.now }
{
    bytes.iter().all(|byte| byte.is_ascii_digit())
}

/// Whether the text is one to so many decimal digits.
fn spells_number(most: usize, text: &str) -> bool
    ensures { result ≡ numbers.spells_number most text.now }
{
    let bytes = text.as_bytes();
    !bytes.is_empty() && bytes.len() <= most && are_digits(bytes)
}

/// Whether the word does not begin with `-`.
fn spells_name(word: &str) -> bool
    ensures { result ≡ spec.spells_name word.now }
{
    word.as_bytes().first() != Some(&b'-')
}

/// Whether the words are a name, or a name with a seed and a size.
pub fn are_spelt(words: &[String]) -> bool
    ensures { result ≡ spec.are_spelt words.now }
{
    match words {
        [name] => spells_name(name.as_str()),
        [name, seed, size] => {
            spells_name(name.as_str())
                && spells_number(10, seed.as_str())
                && spells_number(3, size.as_str())
        }
        _ => false,
    }
}
