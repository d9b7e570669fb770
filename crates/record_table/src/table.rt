// A table over lent records, and what its calls share.
ghost use Rattle.std.proofs.Props.{props};
ghost use Rattle.record_table.specs.Records.{Sound};

use document::{Kind, MAX_LEVEL, MAX_NODES, Node};
use refusal::{Ground, Refusal};

// A node with its level.
#[derive(Clone, Copy, PartialEq, Eq, Debug)]
pub struct Record {
    pub node: Node,
    pub level: u8,
}

impl Record {
    // Memory to begin with; a table may begin over any other content too.
    pub const BLANK: Record = Record {
        node: Node {
            parent: None,
            kind: Kind::Element,
            name: 0,
            end: 0,
        },
        level: 0,
    };
}

// The records of the nodes stand first, in the order in which the nodes began.
// They lie in memory that the caller lends, so they are no `Vec`, and their number stands beside them.
#[derive(Drop)]
pub struct RecordTable<'a> {
    pub(crate) records: &'a mut [Record],
    pub(crate) used: u32,
    pub(crate) innermost: Option<u32>,

    // The records in use are those of a document that calls leave.
    pub ghost sound: { Sound records.now used innermost } by { Prim.hlevel props },
}

impl<'a> RecordTable<'a> {
    // Here and not at the top, since some of these specs name the struct.
    ghost use Rattle.std.specs.Prelude.{◌≡◌, ◌+◌, [], slice_set};
    ghost use Rattle.document.specs.Document.{asked, one_above, level_of, innermost as innermost_of};
    ghost use Rattle.document.specs.Calls.{unfit as unfit_of, ended as ended_of, inner_element, next_level};
    ghost use Rattle.record_table.specs.Records.{record_of};
    ghost use Rattle.record_table.specs.Tables.{table_nodes, table_room};

    // A table without nodes over memory of any content.
    pub fn new(records: &'a mut [Record]) -> RecordTable<'a>
        ensures memory { result.records.now ≡ records.old }
        ensures lent { result.records.ghost_name ≡ records.entry.ghost_name }
        ensures nodes { table_nodes result ≡ [] }
    {
        RecordTable {
            records,
            used: 0,
            innermost: None,
        }
    }

    // The record of a node.
    pub(crate) fn record(&self, node: u32) -> Result<Record, Refusal>
        ensures { result ≡ asked (table_nodes self.now) node (record_of (table_nodes self.now)) }
    {
        if node < self.used {
            Ok(self.records[node as usize])
        } else {
            Err(Ground::NoNode.at(node as usize))
        }
    }

    // Whether there is memory for no node or for too many.
    pub(crate) fn unfit(&self) -> bool
        ensures { result ≡ unfit_of (table_room self.now) }
    {
        self.records.is_empty() || self.records.len() > MAX_NODES
    }

    // Whether node 0 is closed.
    pub(crate) fn ended(&self) -> bool
        ensures { result ≡ ended_of (table_nodes self.now) }
    {
        self.innermost.is_none() && self.used > 0
    }

    // The innermost open element, or why a call that needs one is refused.
    pub(crate) fn inner_element(&self) -> Result<u32, Refusal>
        ensures { result ≡ inner_element (table_room self.now) (table_nodes self.now) }
    {
        if self.unfit() {
            return Err(Ground::BadCapacity.at(0));
        }
        let idle = if self.used == 0 {
            Ground::NotBegun
        } else {
            Ground::Ended
        };
        self.innermost.ok_or(idle.at(0))
    }

    // The level of a node that begins now.
    fn level_below(&self) -> u8
        ensures { result ≡ one_above (level_of (table_nodes self.now)) (innermost_of (table_nodes self.now)) }
    {
        match self.innermost {
            Some(parent) => self.records[parent as usize].level + 1,
            None => 0,
        }
    }

    // The same, unless it would be too deep or there is no record left.
    pub(crate) fn next_level(&self) -> Result<u8, Refusal>
        ensures { result ≡ next_level (table_room self.now) (table_nodes self.now) }
    {
        let level = self.level_below();
        if level > MAX_LEVEL {
            return Err(Ground::TooDeep.at(0));
        }
        if self.used as usize >= self.records.len() {
            return Err(Ground::Full.at(0));
        }
        Ok(level)
    }

    // Writes the next record and what the innermost open element then is, and answers the record's number.
    pub(crate) fn push(&mut self, record: Record, innermost: Option<u32>) -> u32
        requires { Sound (slice_set self.old.records.now self.old.used «record») (self.old.used + 1) innermost }
        ensures number { result ≡ self.old.used }
        ensures memory { self.new.records.now ≡ slice_set self.old.records.now self.old.used «record» }
        ensures lent { self.new.records.ghost_name ≡ self.old.records.ghost_name }
        ensures used { self.new.used ≡ self.old.used + 1 }
    {
        let number = self.used;
        self.records[number as usize] = record;
        self.used = number + 1;
        self.innermost = innermost;
        number
    }
}
