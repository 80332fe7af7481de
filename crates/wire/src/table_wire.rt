// A wire whose lanes stand in a table, over any source of marks: the wire without troubles, and the marked one.
ghost use Rattle.std.specs.Prelude.{◌≡◌};
ghost use Rattle.wire.specs.Rows.{lanes_of};
ghost use Rattle.wire.specs.InUse.{rows_sound};

use crate::checks::check_marks;
use crate::marks_list::Marks;
use crate::outcomes::join;
use crate::rows::Rows;
use crate::{MarkSource, NoMarks, Wire};
use fault::{Failure, Fault};
use marks::Mark;
use std::alloc::Global;

#[derive(Drop)]
pub struct TableWire<M> {
    rows: Rows,
    marks: M,
}

// Every frame that is put joins its lane once.
pub type CleanWire = TableWire<NoMarks>;

// The marks are given beforehand: one is read for each frame that is put.
pub type MarkedWire = TableWire<Marks>;

impl TableWire<NoMarks> {
    ghost use Rattle.wire.specs.Kinds.{CleanMade};

    // A wire on which nothing waits; refuses a number of offices outside 1 to 64.
    pub fn new(offices: u32) -> Result<CleanWire, Fault>
        ensures { CleanMade offices result }
    {
        Ok(TableWire {
            rows: Rows::new(offices)?,
            marks: NoMarks,
        })
    }
}

impl TableWire<Marks> {
    ghost use Rattle.wire.specs.Kinds.{MarkedMade};

    // A wire on which nothing waits. Refuses a number of offices outside 1 to 64, more than 65,535 marks, and a byte that is no mark.
    pub fn new(heap: Global, offices: u32, marks: &[u8]) -> Result<MarkedWire, Failure>
        ensures { MarkedMade offices marks.now result }
    {
        let rows = Rows::new(offices)?;
        check_marks(marks)?;
        let marks = Marks::from_bytes(heap, marks)?;
        Ok(TableWire { rows, marks })
    }
}

impl<M: MarkSource> Wire for TableWire<M> {
    ghost offices = { λ w. w.rows.queues.offices.number };

    ghost lanes = { λ w. lanes_of w.rows };

    ghost troubles = { λ w. M.troubles w.marks };

    ghost ran = { λ w v outcomes. M.read w.marks v.marks outcomes };

    ghost rests = { λ w. M.none_read w.marks };

    ghost goes = { λ w v u xs ys a b. M.reads_on w.marks v.marks u.marks xs ys a b };

    ghost sound = { λ w. rows_sound w.rows (M.troubles w.marks) (M.few w.marks) };

    fn office_count(&self) -> u32 {
        self.rows.office_count()
    }

    fn troubles_left(&self) -> u32 {
        self.marks.troubles_left()
    }

    fn put(&mut self, lane: u32, frame: u16) -> Result<(), Fault> {
        let queue = self.rows.open_queue(lane)?;
        let mark = self.marks.next();
        if mark == Mark::Lost {
            return Ok(());
        }
        let mut queue = *queue;
        join(mark, &mut queue, frame);
        self.rows.store(lane, queue);
        Ok(())
    }

    fn take(&mut self, lane: u32) -> Result<Option<u16>, Fault> {
        let queue = self.rows.queue(lane)?;
        if queue.len() == 0 {
            return Ok(None);
        }
        let mut queue = *queue;
        let frame = queue.pop();
        self.rows.store(lane, queue);
        Ok(frame)
    }
}
