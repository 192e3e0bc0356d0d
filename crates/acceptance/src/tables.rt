use crate::ends::Ends;
use crate::{actions, commands};
use dc_bench::Bench;
use std::alloc::Global;

/// What the lines are cases of.
#[derive(Clone, Copy, Debug)]
enum Table {
    Actions,
    Commands,
}

/// The table that is being read, and what its actions are done with.
#[derive(Drop)]
pub(crate) struct Tables {
    table: Table,
    ends: Ends,
    bench: Option<Bench>,
}

impl Tables {
    pub(crate) fn new(alloc: Global) -> Tables {
        Tables {
            table: Table::Actions,
            ends: Ends::new(alloc),
            bench: None,
        }
    }

    /// The answer to a line.
    pub(crate) fn answer(&mut self, alloc: Global, line: &str) -> anyhow::Result<String> {
        match (table_of(line), self.table) {
            (Some(table), _) => {
                self.table = table;
                Ok(String::from_str(alloc, line)?)
            }
            (None, Table::Actions) => {
                actions::answer(alloc, &mut self.ends, &mut self.bench, line)
            }
            (None, Table::Commands) => commands::answer(alloc, line),
        }
    }
}

// The table that a line begins.
fn table_of(line: &str) -> Option<Table> {
    match line {
        "table actions" => Some(Table::Actions),
        "table commands" => Some(Table::Commands),
        _ => None,
    }
}
