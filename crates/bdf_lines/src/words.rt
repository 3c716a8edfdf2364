// The words of a line, and the lines that begin with a keyword.
ghost use Rattle.std.specs.Prelude.{◌≡◌, [], ◌∷◌, None, Some, MatchOption, IfSome, take, drop};
ghost use Rattle.bdf_lines.specs.Keywords.{comment};
ghost use Rattle.bdf_lines.specs.Words.{is_blank, words, is_alone, is_named, is_pair, is_comment};
ghost use Rattle.bdf_lines.specs.Rest.{blanks, letters, word_end, is_none, after_word};

#[tactic(auto, unfolding(crate::specs::Words::is_blank))]
fn is_blank(b: u8) -> bool
    ensures { result ≡ is_blank b }
{
    b == b' ' || b == b'\t'
}

// The first word of a line, and what follows it.
pub fn first_word(line: &[u8]) -> Option<(&[u8], &[u8])>
    ensures word { MatchOption result (words line.now ≡ []) (λ p. words line.now ≡ p.0.now ∷ words p.1.now) }
    ensures place { IfSome result (λ p. (p.0.now ≡ take (letters (drop (blanks line.now) line.now)) (drop (blanks line.now) line.now)) × (p.1.now ≡ drop (word_end line.now 0) line.now)) }
{
    let start = line.iter().position(|b| !is_blank(*b))?;
    let word = &line[start..];
    let end = word.iter().position(|b| is_blank(*b)).unwrap_or(word.len());
    Some(word.split_at(end))
}

// Whether no word stands from a position on.
pub fn is_end(line: &[u8], at: usize) -> bool
    ensures { result ≡ is_none (words (drop at line.now)) }
{
    let Some(rest) = line.get(at..) else {
        return true;
    };
    first_word(rest).is_none()
}

// What follows the first word of a line, if it is the given one.
pub fn after_word<'a>(line: &'a [u8], name: &[u8]) -> Option<&'a [u8]>
    ensures word { MatchOption result (after_word name.now (words line.now) ≡ None) (λ rest. after_word name.now (words line.now) ≡ Some (words rest.now)) }
    ensures place { IfSome result (λ rest. rest.now ≡ drop (word_end line.now 0) line.now) }
{
    let (word, rest) = first_word(line)?;
    if word == name {
        return Some(rest);
    }
    None
}

// The keyword alone.
pub fn is_alone(line: &[u8], name: &[u8]) -> bool
    ensures { result ≡ is_alone name.now (words line.now) }
{
    after_word(line, name).is_some_and(|rest| is_end(rest, 0))
}

// The keyword and a name.
pub fn is_named(line: &[u8], name: &[u8]) -> bool
    ensures { result ≡ is_named name.now (words line.now) }
{
    after_word(line, name).is_some_and(|rest| !is_end(rest, 0))
}

// The keyword and a given word.
pub fn is_pair(line: &[u8], name: &[u8], given: &[u8]) -> bool
    ensures { result ≡ is_pair name.now given.now (words line.now) }
{
    after_word(line, name).is_some_and(|rest| is_alone(rest, given))
}

// A blank line, or a comment.
pub fn is_comment(line: &[u8]) -> bool
    ensures { result ≡ is_comment comment (words line.now) }
{
    first_word(line).is_none_or(|(word, _)| word == b"COMMENT".as_slice())
}
