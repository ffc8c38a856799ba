//! Which choices are listed.
ghost use Rattle.std.specs.Prelude.{◌≡◌, ◌<◌, ◌++◌, length, drop, Some, Bool, cond};
ghost use Rattle.arith.specs.Tab.{tab};
ghost use Rattle.choices.specs.Choices.{choice_count, listed, rating_of, beats, unbeaten};
ghost use Rattle.choices.specs.Stores.{stored};

use crate::ratings::{choice_count, rate};
use figures::Figures;
use layout::Table;

/// Whether one accepted choice beats another, by their figures.
#[tactic(auto, unfolding(crate::specs::Choices::beats))]
fn is_better(one: Figures, other: Figures) -> bool
    ensures { result ≡ beats (rating_of (Some one)) (rating_of (Some other)) }
{
    let no_worse = one.sums <= other.sums && one.below <= other.below && one.above <= other.above;
    no_worse && (one.sums < other.sums || one.below < other.below || one.above < other.above)
}

/// Whether a choice beats an accepted one.
#[tactic(auto, unfolding(crate::specs::Choices::beats))]
fn beats(choice: Option<Figures>, other: Figures) -> bool
    ensures { result ≡ beats (rating_of choice) (rating_of (Some other)) }
{
    match choice {
        Some(one) => is_better(one, other),
        None => false,
    }
}

/// Whether choice i is accepted and none of them beats it.
fn unbeaten(figures: &[Option<Figures>], i: usize) -> bool
    requires { i < length figures.now }
    ensures { result ≡ unbeaten (length figures.now) (stored figures.now) i }
{
    let Some(own) = figures[i] else {
        return false;
    };
    for &choice in figures {
        if beats(choice, own) {
            return false;
        }
    }
    true
}

/// What a choice is marked with in the lent array: yes and no, or 1 and 0.
pub trait Flag: Copy {
    ghost flag_of: { Bool → Self };

    /// The mark of a choice that is listed or not.
    fn of(listed: bool) -> Self
        ensures { result ≡ flag_of listed };
}

impl Flag for bool {
    ghost flag_of = { λ listed. listed };

    fn of(listed: bool) -> bool {
        listed
    }
}

impl Flag for u8 {
    ghost flag_of = { λ listed. cond listed 1 0 };

    fn of(listed: bool) -> u8 {
        u8::from(listed)
    }
}

/// Which choices are listed, by the figures of all.
fn mark_each<M: Flag>(figures: &[Option<Figures>], marks: &mut [M])
    requires { length marks.old ≡ length figures.now }
    ensures { marks.new ≡ tab (length marks.old) (λ i. M.flag_of (unbeaten (length figures.now) (stored figures.now) i)) }
{
    for (i, mark) in marks.iter_mut().enumerate() {
        *mark = M::of(unbeaten(figures, i));
    }
}

/// Marks the choices of a table at a width that are listed, from the start of `marks`. Answers how many choices there are.
pub fn mark<M: Flag>(t: &Table, width: usize, marks: &mut [M; 972]) -> usize
    ensures value { result ≡ choice_count t.now }
    ensures marks_after { marks.new ≡ tab (choice_count t.now) (λ i. M.flag_of (listed t.now width i)) ++ drop (choice_count t.now) marks.old }
{
    let n = choice_count(t);
    let mut store = [None; 972];
    let figures = &mut store[..n];
    rate(t, width, figures);
    mark_each(figures, &mut marks[..n]);
    n
}
