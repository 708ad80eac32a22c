// How the runner makes a cell from the numbers of a line, and shows one.
ghost use Rattle.std.specs.Prelude.{◌≡◌, ℕ, ◌+◌, ◌≤◌, length, Some, None};
ghost use Rattle.lines.specs.Decimal.{decimal};
ghost use Rattle.lines.specs.Printed.{room};
ghost use Rattle.lines.specs.declared.report.Report.{Report as Line};
ghost use Rattle.lines.specs.declared.report.Report.TheVariants.{Read};
ghost use Rattle.std.proofs.Common.{rules};

use cells::tags::Tag;
use lines::report::Report;

// No `Display` of the cell: a report says besides which task reads and how many filters were asked.
pub trait Face: Copy {
    // The cell with this value and quality.
    ghost made: { ℕ → ℕ → Self };

    // The line of a read by a task that is answered this cell, with the number compared.
    ghost shown: { ℕ → Self → ℕ → Line };

    fn make(value: u32, quality: u8) -> Self
        ensures { result ≡ made value quality };

    fn show(self, task: u32, compared: u32) -> Report
        ensures { result ≡ shown task self compared };

    // Such a line has at most three numbers besides the task's, of at most ten digits each.
    ghost room_bound: { (task : ℕ) (cell : Self) (compared : ℕ) → room (shown task cell compared) ≤ 36 + length (decimal task) };
}

// A word has no quality.
impl Face for u32 {
    ghost made = { λ value quality. value };

    ghost shown = { λ task cell compared. Read task cell None compared };

    ghost room_bound = { Prim.search rules };

    fn make(value: u32, quality: u8) -> u32 {
        value
    }

    fn show(self, task: u32, compared: u32) -> Report {
        Report::Read {
            task,
            value: self,
            quality: None,
            compared,
        }
    }
}

impl Face for Tag {
    ghost made = { λ value quality. record { quality = quality; value = value } };

    ghost shown = { λ task cell compared. Read task cell.value (Some cell.quality) compared };

    ghost room_bound = { Prim.search rules };

    fn make(value: u32, quality: u8) -> Tag {
        Tag { quality, value }
    }

    fn show(self, task: u32, compared: u32) -> Report {
        Report::Read {
            task,
            value: self.value,
            quality: Some(self.quality),
            compared,
        }
    }
}
