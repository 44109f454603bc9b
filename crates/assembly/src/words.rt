// Lines and words as parts of the text.
ghost use Rattle.std.specs.Prelude.{◌≡◌};
ghost use Rattle.std.specs.Option.{option_map};
ghost use Rattle.assembly.specs.Words.{is_blank, words, listed, only};
ghost use Rattle.trace.specs.Lent.{both_now};

// Words stand between spaces, tabs and carriage returns.
fn is_blank(byte: u8) -> bool
    ensures { result ≡ is_blank byte }
{
    matches!(byte, b' ' | b'\t' | b'\r')
}

// The first word, and what follows it; none where there is no word.
// Parts of the line, not an iterator: each function then says what it does by the words of a slice.
pub(crate) fn first_word(bytes: &[u8]) -> Option<(&[u8], &[u8])>
    ensures { listed (option_map both_now result) ≡ words bytes.now }
{
    let start = bytes.iter().position(|byte| !is_blank(*byte))?;
    let rest = &bytes[start..];
    let end = rest
        .iter()
        .position(|byte| is_blank(*byte))
        .unwrap_or(rest.len());
    let (word, tail) = rest.split_at(end);
    Some((word, tail.get(1..).unwrap_or(&[])))
}

// The word, if there is just one.
pub(crate) fn only_word(bytes: &[u8]) -> Option<&[u8]>
    ensures { option_map (λ x. x.now) result ≡ only (words bytes.now) }
{
    let (word, rest) = first_word(bytes)?;
    first_word(rest).is_none().then_some(word)
}
