ghost use Rattle.std.specs.Prelude.{◌≡◌, IfOk};

use anyhow::bail;
use dc_base::{MemSink, MemSource};
use std::alloc::Global;

/// The most bytes that are written.
const ROOM: usize = 65_536;

/// Of what the source and the sink of a call are made.
#[derive(Debug, Drop)]
pub(crate) struct Ends {
    /// The bytes of the source.
    pub(crate) input: Vec<u8>,
    /// The most bytes of one read and of one write.
    pub(crate) chunk: usize,
    /// The numbers of the reads that fail, from 1.
    pub(crate) reads: Vec<u64>,
    /// The numbers of the writes that fail, from 1.
    pub(crate) writes: Vec<u64>,
}

impl Ends {
    /// Ends without input that never fail.
    pub(crate) fn new(alloc: Global) -> Ends {
        Ends {
            input: Vec::new(alloc),
            chunk: 4096,
            reads: Vec::new(alloc),
            writes: Vec::new(alloc),
        }
    }

    /// The same ends, of which these reads and writes fail.
    pub(crate) fn failing(
        &self,
        alloc: Global,
        reads: Vec<u64>,
        writes: Vec<u64>,
    ) -> anyhow::Result<Ends> {
        Ok(Ends {
            input: Vec::from_slice(alloc, &self.input)?,
            chunk: self.chunk,
            reads,
            writes,
        })
    }

    /// The source of a call.
    pub(crate) fn source(&self, alloc: Global) -> anyhow::Result<MemSource>
        ensures { IfOk result (λ s. s.left ≡ self.now.input.items) }
    {
        let input = Vec::from_slice(alloc, &self.input)?;
        let fails = Vec::from_slice(alloc, &self.reads)?;
        Ok(MemSource::new(input, self.chunk.max(1), fails))
    }

    /// The sink of a call.
    pub(crate) fn sink(&self, alloc: Global) -> anyhow::Result<MemSink> {
        let fails = Vec::from_slice(alloc, &self.writes)?;
        let Ok(sink) = MemSink::new(alloc, ROOM, self.chunk.max(1), fails) else {
            bail!("no memory");
        };
        Ok(sink)
    }
}
