//! The filter of a table, as the calls take it.
use arith::power;
use arrival::stores_good;
use engine::arrive;
use layout::{Question, Refusal, Table};
use limits::accepted;
use machine::{Arrival, Filter};

/// A table beside the stores that are lent to it.
#[derive(Drop)]
pub struct Stored<'a> {
    pub table: Table,
    pub samples: &'a mut [u16],
    pub sums: &'a mut [u32],
}

impl Filter for Stored<'_> {
    ghost use Rattle.scan.specs.Filters.{table_rules};

    ghost rules = { table_rules };

    fn ask(&self) -> Result<(), Refusal> {
        Refusal::unless(accepted(self.table), Question::Table)
    }

    fn delay(&self) -> u32 {
        self.table.delay()
    }

    fn top(&self) -> u16 {
        (power(self.table.b) - 1) as u16
    }

    fn holds(&self, width: usize) -> bool {
        stores_good(width, self.table.count, self.samples.len(), self.sums.len())
    }

    fn clear(&mut self, width: usize) {
        let samples = &mut *self.samples;
        let sums = &mut *self.sums;
        samples[..32 * width].fill(0);
        sums[..self.table.count * width].fill(0);
    }

    fn arrive(&mut self, arrival: Arrival, row: &[u16], out: &mut [i32]) -> Result<(), Refusal> {
        arrive(
            self.table,
            arrival.width,
            arrival.number,
            row,
            self.samples,
            self.sums,
            out,
        )
    }
}
