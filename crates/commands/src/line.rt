//! The words of the command line.
ghost use Rattle.std.specs.Prelude.{◌≡◌};
ghost use Rattle.words.specs.Words.{same};
ghost use Rattle.commands.specs.Commands.{plain_of, word_of, numbered_of, next_of, ended_of};

use crate::{Begun, Command, Given, Output, Ranking, Word};

/// What a word is that is no option's name.
#[tactic(auto, unfolding(crate::specs::Commands::plain_of))]
fn plain(w: &[u8]) -> Word
    ensures { result ≡ plain_of w.now }
{
    if w.is_empty() {
        return Word::Table;
    }
    if w[0] == b'-' {
        return Word::Dashed;
    }
    let n = pgm::number(w, 0);
    if n.end == w.len() {
        Word::Number(n.value)
    } else {
        Word::Table
    }
}

/// Whether a word is this one.
fn is(w: &[u8], name: &[u8]) -> bool
    ensures { result ≡ same w.now name.now }
{
    w == name
}

/// What a word is.
#[tactic(auto, unfolding(crate::specs::Commands::word_of, text::specs::Ascii::ascii))]
fn word(w: &[u8]) -> Word
    ensures { result ≡ word_of w.now }
{
    if is(w, b"--values") {
        Word::Values
    } else if is(w, b"--rank") {
        Word::Rank
    } else if is(w, b"--help") || is(w, b"-h") {
        Word::Help
    } else if is(w, b"--version") {
        Word::Version
    } else {
        plain(w)
    }
}

/// The next of the three numbers of a ranked window.
#[tactic(auto, unfolding(crate::specs::Commands::numbered_of))]
fn numbered(output: Output, given: Given, n: u32) -> Begun
    ensures { result ≡ numbered_of output given n }
{
    let given = match given {
        Given::Nothing => Given::Rank(n),
        Given::Rank(rank) => Given::Rows { rank, rows: n },
        Given::Rows { rank, rows } => Given::All(Ranking {
            rank,
            rows,
            columns: n,
        }),
        Given::All(_) | Given::Beyond => return Begun::Settled(Command::Usage),
    };
    Begun::Ranked { output, given }
}

impl Begun {
    /// What a table or none comes to with one word more, at place i.
    #[tactic(auto, unfolding(crate::specs::Commands::next_of))]
    fn filter(output: Output, table: Option<usize>, i: usize, w: Word) -> Begun
        ensures { result ≡ next_of (Begun.Filter output table) i w }
    {
        match (w, table) {
            (Word::Values, _) => Begun::Filter {
                output: Output::Numbers,
                table,
            },
            (Word::Rank, None) => Begun::Ranked {
                output,
                given: Given::Nothing,
            },
            (Word::Number(_) | Word::Table, None) => Begun::Filter {
                output,
                table: (i > 0).then_some(i),
            },
            (Word::Rank | Word::Number(_) | Word::Table, Some(_)) => Begun::Settled(Command::Usage),
            (Word::Help, _) => Begun::Settled(Command::Help),
            (Word::Version, _) => Begun::Settled(Command::Version),
            (Word::Dashed, _) => Begun::Settled(Command::Unknown(i)),
        }
    }

    /// What a ranked window comes to with one word more, at place i.
    #[tactic(auto, unfolding(crate::specs::Commands::next_of))]
    fn ranked(output: Output, given: Given, i: usize, w: Word) -> Begun
        ensures { result ≡ next_of (Begun.Ranked output given) i w }
    {
        match (w, given) {
            (Word::Values, _) => Begun::Ranked {
                output: Output::Numbers,
                given,
            },
            (Word::Number(n), _) => numbered(output, given, n),
            (Word::Rank, _) | (Word::Table, Given::All(_)) => Begun::Settled(Command::Usage),
            (Word::Table, _) => Begun::Settled(Command::NoNumber(i)),
            (Word::Help, _) => Begun::Settled(Command::Help),
            (Word::Version, _) => Begun::Settled(Command::Version),
            (Word::Dashed, _) => Begun::Settled(Command::Unknown(i)),
        }
    }

    /// What the words come to with one word more, at place i: the first word that settles it does. At place 0 is the program's own
    /// name, which names no table.
    #[tactic(auto, unfolding(crate::specs::Commands::next_of))]
    pub fn next(self, i: usize, w: &[u8]) -> Begun
        ensures { result ≡ next_of self i (word_of w.now) }
    {
        match self {
            Begun::Filter { output, table } => Begun::filter(output, table, i, word(w)),
            Begun::Ranked { output, given } => Begun::ranked(output, given, i, word(w)),
            Begun::Settled(_) => self,
        }
    }

    /// What they come to when there are no more words.
    #[tactic(auto, unfolding(crate::specs::Commands::ended_of))]
    pub fn ended(self) -> Command
        ensures { result ≡ ended_of self }
    {
        match self {
            Begun::Filter {
                output,
                table: Some(table),
            } => Command::Filter { output, table },
            Begun::Ranked {
                output,
                given: Given::All(ranking),
            } => Command::Ranked { output, ranking },
            Begun::Settled(command) => command,
            Begun::Filter { .. } | Begun::Ranked { .. } => Command::Usage,
        }
    }
}
