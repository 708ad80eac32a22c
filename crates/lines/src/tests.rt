// Lines as they are read and printed.
use crate::command::{Area, Command, Making};
use crate::reader::{Broken, Reader};
use crate::report::{Output, Report, Short, print};
use std::process::Abort;

#[test]
fn reads_commands(rt: HostRuntime) {
    let mut reader = Reader::new(b"t 4 2 3 4294967295 8\nw 1 7 0 255\n");
    let making = Making {
        slots: 4,
        tasks: 2,
        pairs: 3,
        last: 4_294_967_295,
        cells: 8,
    };
    let made = Command::Make {
        area: Area::Tags,
        making,
    };
    assert_eq!(rt; reader.next(None), Ok(Some(made)));
    let write = Command::Write {
        task: 1,
        address: 7,
        value: 0,
        quality: Some(255),
    };
    assert_eq!(rt; reader.next(Some(Area::Tags)), Ok(Some(write)));
    assert_eq!(rt; reader.next(Some(Area::Tags)), Ok(None));
}

fn broken(rt: &impl Abort, text: &[u8], made: Option<Area>) {
    let mut reader = Reader::new(text);
    assert_eq!(rt; reader.next(made), Err(Broken));
}

#[test]
fn refuses_other_lines(rt: HostRuntime) {
    let words = Some(Area::Words);
    broken(&rt, b"b 1", words);
    broken(&rt, b"b  1\n", words);
    broken(&rt, b"b 01\n", words);
    broken(&rt, b"b 4294967296\n", words);
    broken(&rt, b"w 1 2 3 4\n", words);
    broken(&rt, b"m 4 2 3 9 8\n", words);
    broken(&rt, b"m 4 9 3 9 8\n", None);
}

#[test]
fn prints_a_line(rt: HostRuntime) {
    let mut out = [0; 12];
    let report = Report::Committed {
        task: 1,
        place: None,
        compared: 20,
    };
    assert_eq!(rt; print(report, &mut out, 3), Some(12));
    assert_eq!(rt; out, *b"\0\0\0c 1 - 20\n");
    assert_eq!(rt; print(report, &mut out, 4), None);
    assert_eq!(rt; print(report, &mut out, 13), None);
    let mut output = Output::new(&mut out[3..]);
    assert_eq!(rt; output.print(report), Ok(()));
    assert_eq!(rt; output.written(), 9);
    assert_eq!(rt; output.print(report), Err(Short));
    assert_eq!(rt; out, *b"\0\0\0c 1 - 20\n");
}
