//! A ranked window, as the calls take it.
ghost use Rattle.std.specs.Prelude.{◌≡◌, ◌≤◌, length};
ghost use Rattle.arith.specs.Tab.{zeroed};
ghost use Rattle.rank.specs.Calls.{rect_of, rank_good, stores_good};

use crate::Window;
use arith::power;
use layout::{Question, Rect, Refusal};
use limits::{bits_good, rect_good};
use machine::{Arrival, Filter};

impl Window {
    /// The window as a rectangle, of no weight.
    fn rect(self) -> Rect
        ensures { result ≡ rect_of self }
    {
        Rect {
            leadrow: self.leadrow,
            leadcol: self.leadcol,
            trailrow: self.trailrow,
            trailcol: self.trailcol,
            weight: 0,
        }
    }
}

/// Question 22.
#[tactic(auto, unfolding(crate::specs::Calls::rank_good))]
fn rank_good(w: Window, rank: u32) -> bool
    ensures { result ≡ rank_good w rank }
{
    let rect = w.rect();
    1 <= rank && rank <= rect.rows() * rect.columns()
}

/// Question 13, on the lengths of the stores.
#[tactic(auto, using(arith::proofs::Cut::divided), unfolding(crate::specs::Calls::stores_good))]
fn stores_good(width: usize, samples: usize, counts: usize, windows: usize) -> bool
    ensures { result ≡ stores_good width samples counts windows }
{
    width <= samples / 32 && width <= counts / 256 && 256 <= windows
}

/// Zeros in the first n places of a store.
fn clear_first(store: &mut [u16], n: usize)
    requires { n ≤ length store.old }
    ensures { store.new ≡ zeroed n store.old }
{
    store[..n].fill(0);
}

/// A window, the bits of a sample and a rank, beside the stores that are lent to them.
#[derive(Drop)]
pub struct Ranking<'a> {
    pub window: Window,
    pub b: u8,
    pub rank: u32,
    pub samples: &'a mut [u16],
    pub counts: &'a mut [u16],
    pub windows: &'a mut [u16],
}

impl Filter for Ranking<'_> {
    ghost use Rattle.rank.specs.Filters.{window_rules};

    ghost rules = { window_rules };

    fn ask(&self) -> Result<(), Refusal> {
        Refusal::unless(bits_good(self.b), Question::Bits)?;
        Refusal::unless(self.b <= 8, Question::RankedBits)?;
        Refusal::unless(rect_good(self.window.rect()), Question::Edges)?;
        Refusal::unless(rank_good(self.window, self.rank), Question::Rank)
    }

    fn delay(&self) -> u32 {
        histograms::delay(self.window.rect())
    }

    fn top(&self) -> u16 {
        (power(self.b) - 1) as u16
    }

    fn holds(&self, width: usize) -> bool {
        stores_good(
            width,
            self.samples.len(),
            self.counts.len(),
            self.windows.len(),
        )
    }

    fn clear(&mut self, width: usize) {
        clear_first(self.samples, 32 * width);
        clear_first(self.counts, 256 * width);
        clear_first(self.windows, 256);
    }

    fn arrive(&mut self, arrival: Arrival, row: &[u16], out: &mut [i32]) -> Result<(), Refusal> {
        let counting = histograms::Arrival {
            rect: self.window.rect(),
            b: self.b,
            rank: self.rank,
            width: arrival.width,
            number: arrival.number,
            given: arrival.given,
        };
        histograms::arrive(counting, row, self.samples, self.counts, self.windows, out)
    }
}
