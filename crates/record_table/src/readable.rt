// What a table answers: each question is one look at a record.
ghost use Rattle.record_table.specs.Tables.{table_nodes};
ghost use Rattle.growth.proofs.Regrown.{regrown};

use super::table::RecordTable;
use document::{Kind, Readable};
use refusal::Refusal;

impl<'a> Readable for RecordTable<'a> {
    ghost nodes = { table_nodes };

    ghost grown = { λ s. regrown (table_nodes s) s.sound.grown };

    fn count(&self) -> u32 {
        self.used
    }

    fn parent(&self, node: u32) -> Result<Option<u32>, Refusal> {
        self.record(node).map(|record| record.node.parent)
    }

    fn kind(&self, node: u32) -> Result<Kind, Refusal> {
        self.record(node).map(|record| record.node.kind)
    }

    fn name(&self, node: u32) -> Result<u16, Refusal> {
        self.record(node).map(|record| record.node.name)
    }

    fn level(&self, node: u32) -> Result<u8, Refusal> {
        self.record(node).map(|record| record.level)
    }

    fn end(&self, node: u32) -> Result<u32, Refusal> {
        self.record(node).map(|record| record.node.end)
    }

    fn innermost(&self) -> Option<u32> {
        self.innermost
    }
}
