// The slot taken over while a writer waits: place 5 fills the slot of place 1, for which the photo-eye has waited.
use crate::machine::Signal::{BagCount, FilmPosition, SealHeat};
use crate::machine::Task::{Film, Format, Knife, PhotoEye};
use crate::moves::Act::{Begin, Commit, Read, Work, Write};
use crate::moves::Move;
use crate::moves::Outcome::{
    Answered, Began, Finished, Left, Logged, NothingLogged, Overrun, Placed, Waits,
};

pub(crate) const MOVES: [Move<u32>; 36] = [
    // The format task reads and then rests, until the ring no longer holds what it must be compared with.
    Move(Format, Begin, Began(0)),
    Move(Format, Read(SealHeat), Answered(0)),
    // Three writers, the first and the third of one cell.
    Move(Film, Begin, Began(0)),
    Move(Knife, Begin, Began(0)),
    Move(PhotoEye, Begin, Began(0)),
    Move(Film, Write(FilmPosition, 1200), Logged(1)),
    Move(Film, Commit, Placed(1)),
    Move(Knife, Write(BagCount, 1), Logged(1)),
    Move(Knife, Commit, Placed(2)),
    Move(PhotoEye, Write(FilmPosition, 1180), Logged(1)),
    Move(PhotoEye, Commit, Placed(3)),
    Move(PhotoEye, Work, Waits(1)),
    // The first two finish while the photo-eye is preempted.
    Move(Film, Work, Left(0)),
    Move(Film, Work, Finished(1)),
    Move(Knife, Work, Left(0)),
    Move(Knife, Work, Finished(2)),
    // Two later writers: the second takes over the slot of place 1, and writes the photo-eye's cell.
    Move(Film, Begin, Began(2)),
    Move(Film, Write(SealHeat, 140), Logged(1)),
    Move(Film, Commit, Placed(4)),
    Move(Knife, Begin, Began(2)),
    Move(Knife, Write(FilmPosition, 1210), Logged(1)),
    Move(Knife, Commit, Placed(5)),
    // A place whose slot has been taken over is finished, so the photo-eye goes on, and the knife waits for it.
    Move(PhotoEye, Work, Left(0)),
    Move(Knife, Work, Waits(3)),
    Move(PhotoEye, Work, Finished(3)),
    Move(Knife, Work, Left(0)),
    Move(Knife, Work, Waits(4)),
    Move(Film, Work, Left(0)),
    Move(Film, Work, Finished(4)),
    Move(Knife, Work, Finished(5)),
    // The format task is overrun, begins anew and reads what was written last.
    Move(Format, Read(FilmPosition), Overrun),
    Move(Format, Begin, Began(5)),
    Move(Format, Read(FilmPosition), Answered(1210)),
    Move(Format, Read(BagCount), Answered(1)),
    Move(Format, Read(SealHeat), Answered(140)),
    Move(Format, Commit, NothingLogged),
];
