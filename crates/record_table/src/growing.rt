// How a table grows: a call that is accepted writes one record, that of the node that it answers.
// That the memory is still the lender's (`lent`) is said of two values, before and after, so it is no fact for the type.
ghost use Rattle.std.specs.Prelude.{◌≡◌};
ghost use Rattle.document.specs.declared.Call.TheVariants.{Open, Text, Close};
ghost use Rattle.document.specs.Calls.{Called};
ghost use Rattle.record_table.specs.Tables.{table_nodes, table_room, table_written};

use super::table::{Record, RecordTable};
use document::{Growing, Kind, MAX_NAME, Node, OPEN_MARK, Readable};
use refusal::{Ground, Refusal};

impl<'a> Growing for RecordTable<'a> {
    ghost room = { table_room };

    fn open(&mut self, name: u16) -> Result<u32, Refusal>
        ensures called { Called table_nodes table_room self.old (Open name) result self.new }
        ensures memory { self.new.records.now ≡ table_written self.old (Open name) result }
        ensures lent { self.new.records.ghost_name ≡ self.old.records.ghost_name }
    {
        if self.unfit() {
            return Err(Ground::BadCapacity.at(0));
        }
        if self.ended() {
            return Err(Ground::Ended.at(0));
        }
        if name == 0 || name > MAX_NAME {
            return Err(Ground::BadName.at(0));
        }
        let level = self.next_level()?;
        let node = Node {
            parent: self.innermost,
            kind: Kind::Element,
            name,
            end: OPEN_MARK,
        };
        Ok(self.push(Record { node, level }, Some(self.used)))
    }

    fn text(&mut self) -> Result<u32, Refusal>
        ensures called { Called table_nodes table_room self.old Text result self.new }
        ensures memory { self.new.records.now ≡ table_written self.old Text result }
        ensures lent { self.new.records.ghost_name ≡ self.old.records.ghost_name }
    {
        let parent = self.inner_element()?;
        let level = self.next_level()?;
        let node = Node {
            parent: Some(parent),
            kind: Kind::Text,
            name: 0,
            end: self.used - u32::from(level),
        };
        Ok(self.push(Record { node, level }, Some(parent)))
    }

    fn close(&mut self, name: u16) -> Result<u32, Refusal>
        ensures called { Called table_nodes table_room self.old (Close name) result self.new }
        ensures memory { self.new.records.now ≡ table_written self.old (Close name) result }
        ensures lent { self.new.records.ghost_name ≡ self.old.records.ghost_name }
    {
        let innermost = self.inner_element()?;
        let record = self.records[innermost as usize];
        if record.node.name != name {
            return Err(Ground::OtherName.at(0));
        }
        let end = self.used - (u32::from(record.level) + 1);
        self.records[innermost as usize].node.end = end;
        self.innermost = record.node.parent;
        Ok(innermost)
    }
}
