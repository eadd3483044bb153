//! Small limits, of one file and of several.
use crate::rows::{Books, EMPTY, Row, is_limited};
use dk_model::Limits;
use std::test::Fail;

// Limits, a text that goes past one of them, and the report.
fn small_limits() -> [(Limits, &'static str, &'static str); 5] {
    let mut commands = Limits::standard();
    commands.commands = 2;
    let mut input = Limits::standard();
    input.input_bytes = 10;
    let mut command = Limits::standard();
    command.command_bytes = 8;
    let mut name = Limits::standard();
    name.name_bytes = 9;
    let mut levels = Limits::standard();
    levels.levels = 2;
    [
        (
            commands,
            "a : Type. b : Type. c : Type.",
            "ok 1 a\nok 2 b\nrefused 3 line 1 E08\n",
        ),
        (input, "a : Type. b", "ok 1 a\nrefused 2 line 1 E07\n"),
        (command, "a : Type.", "refused 1 line 1 E05\n"),
        (name, "abcdefghij : Type.", "refused 1 line 1 E05\n"),
        (levels, "x : (((Type))).", "refused 1 line 1 E04\n"),
    ]
}

#[test]
fn keeps_to_small_limits(rt: HostRuntime) -> Result<(), Fail> {
    for (limits, text, report) in small_limits() {
        let row = Row {
            text: text.as_bytes(),
            status: 1,
            taken: report.as_bytes(),
            ..EMPTY
        };
        let is_due = limits.commands < 4294967294 && is_limited(&rt, rt.alloc(), limits, &row)?;
        assert!(rt; is_due, "at {text}");
    }
    Ok(())
}

// Limits, books that go past one of them, and the report: the commands of all files are counted, and the bytes of each.
fn limits_of_each_file() -> [(Limits, Books, &'static str); 3] {
    let mut commands = Limits::standard();
    commands.commands = 2;
    let mut input = Limits::standard();
    input.input_bytes = 10;
    let mut name = Limits::standard();
    name.name_bytes = 9;
    [
        (
            commands,
            &[("f.dk", "x : m.a."), ("m.dk", "a : Type. b : Type.")],
            "ok 1 m.a\nok 2 m.b\nrefused 3 line 1 E08\n",
        ),
        (
            input,
            &[("f.dk", "x : m.a.\n\n"), ("m.dk", "a : Type. b")],
            "ok 1 m.a\nrefused 2 line 1 E07 in m.dk\n",
        ),
        (
            name,
            &[("f.dk", "#REQUIRE m."), ("m.dk", "\nabcdefghij : Type.")],
            "refused 1 line 2 E05 in m.dk\n",
        ),
    ]
}

#[test]
fn keeps_to_small_limits_of_each_file(rt: HostRuntime) -> Result<(), Fail> {
    for (limits, books, report) in limits_of_each_file() {
        let row = Row {
            books,
            status: 1,
            taken: report.as_bytes(),
            ..EMPTY
        };
        let is_due = limits.commands < 4294967294 && is_limited(&rt, rt.alloc(), limits, &row)?;
        assert!(rt; is_due, "of {report}");
    }
    Ok(())
}
