ghost use Rattle.std.specs.Prelude.{ℕ, ◌≡◌, ◌≤◌, ◌<◌, ◌^◌, ◌++◌, ◌∷◌, [], None, IfOk, OnErr, OnOk, length, slice_index_or};
ghost use Rattle.loss_list.specs.Losses.{is_listed, loss_at};
ghost use Rattle.loss_list.specs.LossTable.{table_place};

use crate::loss_row::{LossRow, Phase};
use std::alloc::{AllocError, Global};
use std::marker::Model;

/// The frames that are listed as lost, in the order of the file, and by kind and number.
#[derive(Debug, Drop)]
pub struct LossList {
    rows: Vec<LossRow>,
    table: Vec<Option<u16>>,
}

impl Model for LossList {
    ghost use Rattle.std.specs.Prelude.{List};
    ghost use Rattle.loss_list.specs.declared.loss_row.LossRow.{LossRow};

    ghost Value = { List LossRow };

    ghost use Rattle.loss_list.specs.InsideLosses.{rows_of, IsKept};

    ghost view = { rows_of };

    ghost invariant = { IsKept };
}

// Where a number of a phase stands.
fn table_place(phase: Phase, number: u32) -> usize
    ensures is { result ≡ table_place phase number }
    ensures low { result < 2 ^ 34 }
{
    match phase {
        Phase::Commission => 2 * number as usize,
        Phase::Drift => 2 * number as usize + 1,
    }
}

// Lengthens a table by clear places, up to this one.
fn reach(table: &mut Vec<Option<u16>>, place: usize) -> Result<(), AllocError>
    requires { place < 2 ^ 34 }
    ensures same { (k : ℕ) → slice_index_or table.new.items k None ≡ slice_index_or table.old.items k None }
    ensures long { OnOk result (place < length table.new.items) }
{
    if table.len() <= place {
        table.resize(place + 1, None)?;
    }
    Ok(())
}

impl LossList {
    /// No losses.
    pub fn new(alloc: Global) -> Result<LossList, AllocError>
        ensures { IfOk result (λ l. l ≡ []) }
    {
        let rows = Vec::new(alloc);
        let table = Vec::new(alloc);
        Ok(LossList { rows, table })
    }

    /// Puts a loss at the end. Its only error is that memory ran out.
    pub fn push(&mut self, row: LossRow) -> Result<(), AllocError>
        requires { (1 ≤ row.number) × (row.number ≤ 100000) }
        ensures ok { OnOk result (self.new ≡ self.old ++ row ∷ []) }
        ensures err { OnErr result (self.new ≡ self.old) }
    {
        let known = self.after(row.phase, row.number);
        let place = table_place(row.phase, row.number);
        reach(&mut self.table, place)?;
        self.rows.push(row)?;
        self.table[place] = known.or(Some(row.after));
        Ok(())
    }

    /// Whether the frame of this number and kind is listed.
    pub fn lists(&self, phase: Phase, number: u32) -> bool
        ensures { result ≡ is_listed phase number self.now }
    {
        self.after(phase, number).is_some()
    }

    /// How many losses are listed.
    pub fn len(&self) -> usize
        ensures { result ≡ length self.now }
    {
        self.rows.len()
    }

    /// The losses, in the order of the file.
    pub fn rows(&self) -> &[LossRow]
        ensures { result.now ≡ self.now }
    {
        &self.rows
    }

    /// How many slaves the frame of this number and kind reaches, where it is listed; None where it is not.
    pub fn after(&self, phase: Phase, number: u32) -> Option<u16>
        ensures { result ≡ loss_at self.now phase number }
    {
        let place = table_place(phase, number);
        if place < self.table.len() {
            self.table[place]
        } else {
            None
        }
    }
}
