// The bagging machine: its tasks and the cells that they share.
use std::fmt;

#[derive(Clone, Copy)]
pub(crate) enum Task {
    Format,
    Knife,
    Film,
    PhotoEye,
}

impl fmt::Display for Task {
    fn fmt<W: fmt::Write>(&self, f: &mut fmt::Formatter<W>) -> fmt::Result {
        let name = match *self {
            Task::Format => "format",
            Task::Knife => "knife",
            Task::Film => "film",
            Task::PhotoEye => "photo-eye",
        };
        f.write_str(name)
    }
}

// A shared cell; its number is its address.
#[derive(Clone, Copy)]
pub(crate) enum Signal {
    BagLength,
    KnifeSpeed,
    FilmPosition,
    PrintMark,
    BagCount,
    SealHeat,
}

impl fmt::Display for Signal {
    fn fmt<W: fmt::Write>(&self, f: &mut fmt::Formatter<W>) -> fmt::Result {
        let name = match *self {
            Signal::BagLength => "bag length",
            Signal::KnifeSpeed => "knife speed",
            Signal::FilmPosition => "film position",
            Signal::PrintMark => "print mark",
            Signal::BagCount => "bag count",
            Signal::SealHeat => "seal heat",
        };
        f.write_str(name)
    }
}
