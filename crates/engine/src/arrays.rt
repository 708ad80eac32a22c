// The arrays that are handed over at each call.
use rules::ring::Entry;
use rules::table::TaskRecord;

// The ring, the table, and the two log arrays in parallel, `pairs` of each for every task: the rulebook hands a log over as
// two arrays.
// A call takes them apart and hands them on one by one. To lend one again as a shared slice from behind `&mut Arrays` was tried,
// and gets no proof: its elements are of a type parameter.
#[derive(Drop)]
pub struct Arrays<'r, 't, 'a, 'c, F, C> {
    pub ring: &'r mut [Entry<F>],
    pub table: &'t mut [TaskRecord<F>],
    pub addresses: &'a mut [u32],
    pub cells: &'c mut [C],
}
