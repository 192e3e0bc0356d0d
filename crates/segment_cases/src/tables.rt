use crate::files::Cases;
use crate::{draws, losses, reports, trees};
use std::alloc::Global;

/// What the lines are cases of.
#[derive(Clone, Copy, Debug)]
enum Table {
    Trees,
    Files,
    Losses,
    Draws,
    Reports,
}

/// The table that is being read, with the file that its cases speak of.
#[derive(Drop)]
pub(crate) struct Tables {
    table: Table,
    files: Cases,
}

impl Tables {
    pub(crate) fn new(alloc: Global) -> Tables {
        Tables {
            table: Table::Trees,
            files: Cases::new(alloc),
        }
    }

    /// The answer to a line.
    pub(crate) fn answer(&mut self, alloc: Global, line: &str) -> anyhow::Result<String> {
        match table_of(line) {
            Some(table) => {
                self.table = table;
                Ok(String::from_str(alloc, line)?)
            }
            None => self.told(alloc, line),
        }
    }

    // The answer to a case.
    fn told(&mut self, alloc: Global, line: &str) -> anyhow::Result<String> {
        match self.table {
            Table::Trees => Ok(trees::answer(alloc, line)?),
            Table::Files => Ok(self.files.answer(alloc, line)?),
            Table::Losses => Ok(losses::answer(alloc, line)?),
            Table::Draws => draws::answer(alloc, line),
            Table::Reports => reports::answer(alloc, line),
        }
    }
}

// The table that a line begins.
fn table_of(line: &str) -> Option<Table> {
    match line {
        "table trees" => Some(Table::Trees),
        "table files" => Some(Table::Files),
        "table losses" => Some(Table::Losses),
        "table draws" => Some(Table::Draws),
        "table reports" => Some(Table::Reports),
        _ => None,
    }
}
