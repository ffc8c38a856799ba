//! Where the words of a line and the lines of a text stand.
ghost use Rattle.std.specs.Prelude.{◌≡◌, ◌||◌, ◌∷◌, ◌≤◌, eqb, not, [], length, get_or, take, MatchOption, IfSome};
ghost use Rattle.text.specs.Ascii.{line_length, after_line};
ghost use Rattle.std.specs.List.{position};
ghost use Rattle.words.specs.Words.{gap, ends, words_of, IsPart, Next};

/// Whether a byte stands between words.
#[tactic(auto, unfolding(crate::specs::Words::gap))]
fn gap(b: u8) -> bool
    ensures { result ≡ gap b }
{
    b == b' ' || (b == b'\t' || b == b'\r')
}

/// Whether a word ends before this byte.
fn ends(b: u8) -> bool
    ensures { result ≡ ends b }
{
    gap(b) || b == b'#'
}

/// Where the first byte stands that is no gap.
fn word_start(line: &[u8]) -> Option<usize>
    ensures { result ≡ position (λ b. not (gap b)) line.now }
{
    line.iter().position(|&b| !gap(b))
}

/// Where the word ends that begins a line, `None` where it goes to the line's end.
fn word_end(line: &[u8]) -> Option<usize>
    ensures { result ≡ position ends line.now }
{
    line.iter().position(|&b| ends(b))
}

/// The next word of a line, and the line behind it.
pub fn next_word(line: &[u8]) -> Option<(&[u8], &[u8])>
    ensures words { MatchOption result (words_of line.now ≡ []) (λ p. words_of line.now ≡ p.0.now ∷ words_of p.1.now) }
    ensures stands { IfSome result (λ p. Next line.now p.0.now p.1.now) }
{
    let start = word_start(line)?;
    let rest = &line[start..];
    let end = word_end(rest).unwrap_or(rest.len());
    if end == 0 {
        None
    } else {
        Some(rest.split_at(end))
    }
}

/// The words of a line, one after the other. It holds what is left of the line.
#[derive(Clone, Copy, Debug)]
pub struct Words<'a>(pub &'a [u8]);

impl<'a> Iterator for Words<'a> {
    ghost use Rattle.std.specs.Iterator.{YieldsFirstBy, item_count};
    ghost use Rattle.words.specs.Words.{words_of};

    type Item = &'a [u8];

    ghost next_gives = { YieldsFirstBy (λ w. w.now) (λ s. words_of s.0.now) };

    ghost remaining = { item_count (λ s. words_of s.0.now) };

    fn next(&mut self) -> Option<&'a [u8]> {
        let (word, rest) = next_word(self.0)?;
        self.0 = rest;
        Some(word)
    }
}

/// Word k of a line, counted from 0; empty where there are not so many.
pub fn word(line: &[u8], k: usize) -> &[u8]
    ensures value { result.now ≡ get_or (words_of line.now) k [] }
    ensures stands { IsPart line.now result.now }
{
    Words(line).nth(k).unwrap_or(&[])
}

/// The lines of a text, one after the other: each ends with a line feed, the last may have none. It holds what is left of the text.
#[derive(Clone, Copy, Debug)]
pub struct Lines<'a>(pub &'a [u8]);

/// Where the line ends that begins a text, `None` where it goes to the text's end.
fn line_end(text: &[u8]) -> Option<usize>
    ensures { result ≡ position (λ b. eqb b 10) text.now }
{
    text.iter().position(|&b| b == b'\n')
}

/// The line that begins a text, and the text behind its line feed.
fn cut(text: &[u8]) -> (&[u8], &[u8])
    ensures line { result.0.now ≡ take (line_length text.now) text.now }
    ensures rest { result.1.now ≡ after_line text.now }
{
    match line_end(text) {
        Some(end) => (&text[..end], &text[end + 1..]),
        None => text.split_at(text.len()),
    }
}

impl<'a> Iterator for Lines<'a> {
    ghost use Rattle.std.specs.Prelude.{[]};
    ghost use Rattle.std.specs.Iterator.{YieldsFirstBy, item_count};
    ghost use Rattle.words.specs.Words.{lines_from};

    type Item = &'a [u8];

    ghost next_gives = { YieldsFirstBy (λ l. l.now) (λ s. lines_from [] s.0.now) };

    ghost remaining = { item_count (λ s. lines_from [] s.0.now) };

    fn next(&mut self) -> Option<&'a [u8]> {
        if self.0.is_empty() {
            return None;
        }
        let (line, rest) = cut(self.0);
        self.0 = rest;
        Some(line)
    }
}
