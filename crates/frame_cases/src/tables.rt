use crate::masters::Made;
use crate::words::Words;
use crate::{cases, masters, wires};
use std::alloc::{AllocError, Global};
use wire_sim::Wire;

/// What the lines are cases of.
#[derive(Clone, Copy, Debug)]
enum Table {
    Cases,
    Wires,
    Masters,
}

/// The table that is being read, with the wire and the master that its cases speak of.
#[derive(Drop)]
pub(crate) struct Tables {
    table: Table,
    wire: Option<Wire>,
    master: Option<Made>,
}

impl Tables {
    pub(crate) fn new() -> Tables {
        Tables {
            table: Table::Cases,
            wire: None,
            master: None,
        }
    }

    /// The answer to a line.
    pub(crate) fn answer(&mut self, alloc: Global, line: &str) -> Result<String, AllocError> {
        if line.starts_with('#') {
            return String::from_str(alloc, line);
        }
        if let Some(table) = table_of(line) {
            self.table = table;
            return String::from_str(alloc, line);
        }
        let mut words = Words::new(line);
        let mut told = String::new(alloc);
        self.tell(alloc, &mut words, &mut told)?;
        if words.are_read() {
            Ok(told)
        } else {
            String::from_str(alloc, "unread")
        }
    }

    fn tell(
        &mut self,
        alloc: Global,
        words: &mut Words<'_>,
        told: &mut String,
    ) -> Result<(), AllocError> {
        match self.table {
            Table::Cases => cases::tell(alloc, words, told),
            Table::Wires => wires::tell(alloc, &mut self.wire, words, told),
            Table::Masters => masters::tell(alloc, &mut self.master, words, told),
        }
    }
}

// The table that a line begins.
fn table_of(line: &str) -> Option<Table> {
    match line {
        "table cases" => Some(Table::Cases),
        "table wires" => Some(Table::Wires),
        "table masters" => Some(Table::Masters),
        _ => None,
    }
}
