// Writes of one record of the table.
ghost use Rattle.std.specs.Prelude.{◌<◌, length};
ghost use Rattle.engine.specs.Parts.{EmptiedAt};

use filters::filter::Filter;
use rules::table::TaskRecord;

// The task's record is emptied.
pub(crate) fn empty<F: Filter>(table: &mut [TaskRecord<F>], task: u32)
    requires { task < length table.old }
    ensures { EmptiedAt F.Filter task table.old table.new }
{
    table[task as usize] = TaskRecord::emptied();
}
