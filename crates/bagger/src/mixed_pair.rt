// The mixed pair that never gets cut: the knife has read the bag length when the format task changes length and speed.
use crate::machine::Signal::{BagCount, BagLength, FilmPosition, KnifeSpeed, PrintMark};
use crate::machine::Task::{Film, Format, Knife, PhotoEye};
use crate::moves::Act::{Begin, Commit, Quit, Read, Work, Write};
use crate::moves::Move;
use crate::moves::Outcome::{
    Answered, Began, Conflict, Finished, GaveUp, Left, Logged, NothingLogged, Placed, Waits,
};
use cells::tags::{GOOD, Tag};

const OLD_LENGTH: Tag = Tag {
    quality: GOOD,
    value: 250,
};

const OLD_SPEED: Tag = Tag {
    quality: GOOD,
    value: 60,
};

const NEW_LENGTH: Tag = Tag {
    quality: GOOD,
    value: 300,
};

const NEW_SPEED: Tag = Tag {
    quality: GOOD,
    value: 45,
};

const FIRST_BAG: Tag = Tag {
    quality: GOOD,
    value: 1,
};

const DRAWN: Tag = Tag {
    quality: GOOD,
    value: 1200,
};

pub(crate) const UNKNOWN: Tag = Tag {
    quality: 0,
    value: 0,
};

pub(crate) const MOVES: [Move<Tag>; 33] = [
    // The old pair.
    Move(Format, Begin, Began(0)),
    Move(Format, Write(BagLength, OLD_LENGTH), Logged(1)),
    Move(Format, Write(KnifeSpeed, OLD_SPEED), Logged(2)),
    Move(Format, Commit, Placed(1)),
    Move(Format, Work, Left(1)),
    Move(Format, Work, Left(0)),
    Move(Format, Work, Finished(1)),
    // The knife has read the old length when the format task preempts it.
    Move(Knife, Begin, Began(1)),
    Move(Knife, Read(BagLength), Answered(OLD_LENGTH)),
    Move(Format, Begin, Began(1)),
    Move(Format, Write(BagLength, NEW_LENGTH), Logged(1)),
    Move(Format, Write(KnifeSpeed, NEW_SPEED), Logged(2)),
    // The photo-eye reads neither of the two, and goes on.
    Move(PhotoEye, Begin, Began(1)),
    Move(PhotoEye, Read(PrintMark), Answered(UNKNOWN)),
    Move(Format, Commit, Placed(2)),
    Move(PhotoEye, Write(BagCount, FIRST_BAG), Logged(1)),
    Move(PhotoEye, Commit, Placed(3)),
    // A change that is given up is seen by nobody.
    Move(Film, Begin, Began(1)),
    Move(Film, Write(FilmPosition, DRAWN), Logged(1)),
    Move(Film, Quit, GaveUp(1)),
    // The memory holds the new length and the old speed, and the knife is not given the pair.
    Move(Format, Work, Left(1)),
    Move(Knife, Read(KnifeSpeed), Conflict(2)),
    // The photo-eye writes back at once, and finishes after the format task.
    Move(PhotoEye, Work, Left(0)),
    Move(PhotoEye, Work, Waits(2)),
    Move(Format, Work, Left(0)),
    Move(Format, Work, Finished(2)),
    Move(PhotoEye, Work, Finished(3)),
    // Begun anew, the knife reads the new pair.
    Move(Knife, Begin, Began(3)),
    Move(Knife, Read(BagLength), Answered(NEW_LENGTH)),
    Move(Knife, Read(KnifeSpeed), Answered(NEW_SPEED)),
    Move(Knife, Read(BagCount), Answered(FIRST_BAG)),
    Move(Knife, Read(FilmPosition), Answered(UNKNOWN)),
    Move(Knife, Commit, NothingLogged),
];
