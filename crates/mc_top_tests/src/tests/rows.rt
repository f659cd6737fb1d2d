//! Short inputs, and what is written for them.
use super::{NOW, run_by, shows, text};
use mc_top::Status;
use std::hash::RandomState;
use std::process::Abort;
use std::test::Fail;

// Inputs at one moment that end between two commands, and their outputs.
const ROWS: [(&str, &str); 26] = [
    ("", ""),
    ("set a 5 0 3~abc~get a~", "STORED~VALUE a 5 3~abc~END~"),
    // Each change gives the next cas number of the key's class.
    (
        "set a 0 0 1~x~gets a~cas a 0 0 1 97~y~cas a 0 0 1 97~z~cas b 0 0 1 1~q~gets a~",
        "STORED~VALUE a 0 1 97~x~END~STORED~EXISTS~NOT_FOUND~VALUE a 0 1 161~y~END~",
    ),
    // Sums wrap at 2^64, and differences stop at 0.
    (
        "set n 0 0 20~18446744073709551615~incr n 1~set n 0 0 1~5~decr n 9~\
        set n 0 0 3~abc~incr n 1~incr n x~incr m 1~",
        "STORED~0~STORED~0~STORED~CLIENT_ERROR cannot increment or decrement non-numeric value~\
        CLIENT_ERROR invalid numeric delta argument~NOT_FOUND~",
    ),
    // The tail of a bad block is no command.
    (
        "set a 0 0 3~abcdef~get a~",
        "CLIENT_ERROR bad data chunk~END~",
    ),
    ("set a 0 0 3 noreply~abcdef~get a~", "END~"),
    ("set a 0 0 3^abc^get a^", "CLIENT_ERROR bad data chunk~END~"),
    // A value is bytes, line ends too.
    ("set a 0 0 7~~END~~get a~", "STORED~VALUE a 0 7~~END~~END~"),
    (
        "append a 0 0 1~x~set a 1 0 1~b~append a 9 9 1~c~prepend a 9 9 1~a~gets a~",
        "NOT_STORED~STORED~STORED~STORED~VALUE a 1 3 225~abc~END~",
    ),
    (
        "replace a 0 0 1~x~add a 0 0 1~y~add a 0 0 1~z~get a~delete a~delete a~",
        "NOT_STORED~STORED~NOT_STORED~VALUE a 0 1~y~END~DELETED~NOT_FOUND~",
    ),
    (
        "set a 0 0 1~x~touch a 50~touch b 50~gets a~",
        "STORED~TOUCHED~NOT_FOUND~VALUE a 0 1 97~x~END~",
    ),
    (
        "get~GET a~foo~stats items~set a 0 0~",
        "CLIENT_ERROR bad command line format~ERROR~ERROR~\
        CLIENT_ERROR bad command line format~CLIENT_ERROR bad command line format~",
    ),
    ("  get   a  ^", "END~"),
    (
        "set a 0 0 3~007~incr a 1~decr a 3 noreply~gets a~",
        "STORED~8~VALUE a 0 1 225~5~END~",
    ),
    (
        "set a 0 0 1 noreply~x~flush_all noreply~get a~verbosity 1~verbosity 1 noreply~stats~",
        "END~OK~STAT curr_items 0~STAT total_items 1~END~",
    ),
    (
        "set a 4294967296 0 1~x~set a 4294967295 0 1~x~get a~",
        "CLIENT_ERROR bad command line format~ERROR~STORED~VALUE a 4294967295 1~x~END~",
    ),
    (
        "set a 0 0 1~x~incr a 18446744073709551616~incr a~delete a 1~",
        "STORED~CLIENT_ERROR invalid numeric delta argument~\
        CLIENT_ERROR bad command line format~CLIENT_ERROR bad command line format~",
    ),
    // A key that is asked for twice is shown twice.
    (
        "set a 0 0 1~z~get a b a~",
        "STORED~VALUE a 0 1~z~VALUE a 0 1~z~END~",
    ),
    // Each command once.
    (
        "set a 0 0 1~5~add b 0 0 1~x~replace b 0 0 1~y~append b 0 0 1~z~prepend b 0 0 1~w~\
        incr a 2~decr a 1~gets a~cas a 0 0 1 225~9~get a b~touch a 100~delete b~verbosity 1~\
        flush_all~stats~version~quit~",
        "STORED~STORED~STORED~STORED~STORED~7~6~VALUE a 0 1 225~6~END~STORED~\
        VALUE a 0 1~9~VALUE b 0 3~wyz~END~TOUCHED~DELETED~OK~OK~\
        STAT curr_items 0~STAT total_items 6~END~VERSION 1.0.0-trust~",
    ),
    // A `gat` wants an exptime and a key.
    (
        "gat~gat 5~gats -1~gat x a~",
        "CLIENT_ERROR bad command line format~CLIENT_ERROR bad command line format~\
        CLIENT_ERROR bad command line format~CLIENT_ERROR bad command line format~",
    ),
    (
        "set a 0 0 1~x~set b 7 0 1~y~gat 0 a c b~gats 60 b a~gat -1 a b~get a b~",
        "STORED~STORED~VALUE a 0 1~x~VALUE b 7 1~y~END~VALUE b 7 1 98~y~VALUE a 0 1 97~x~END~\
        VALUE a 0 1~x~VALUE b 7 1~y~END~END~",
    ),
    // What stands behind a `quit` is not looked at.
    ("version~quit~get a~", "VERSION 1.0.0-trust~"),
    ("quit~set a 0 0 5~ab", ""),
    (
        "add a 0 0 1 noreply~1~incr a 1 noreply~touch a 9 noreply~delete b noreply~get a~\
        delete a noreply~get a~",
        "VALUE a 0 1~2~END~END~",
    ),
    (
        "set a 0 0 1 noreply~x~flush_all 0 noreply~get a~verbosity 1~verbosity 1 noreply~stats~",
        "END~OK~STAT curr_items 0~STAT total_items 1~END~",
    ),
    // A usual client's session.
    (
        "version~set k1 0 0 2 noreply~v1~set k2 7 0 3 noreply~v22~set n 0 60 1 noreply~9~\
        get k1 k2 k3~incr n 5~touch k1 100~delete k2 0~stats~quit~",
        "VERSION 1.0.0-trust~VALUE k1 0 2~v1~VALUE k2 7 3~v22~END~14~TOUCHED~DELETED~\
        STAT curr_items 2~STAT total_items 3~END~",
    ),
];

#[test]
fn commands_are_answered(rt: HostRuntime) -> Result<(), Fail> {
    let alloc = rt.alloc();
    for (input, output) in ROWS {
        let read = text(alloc, input)?;
        let written = text(alloc, output)?;
        assert!(rt;
            shows(
                alloc,
                &[NOW],
                &read,
                1,
                &written,
                Status::Ended,
                RandomState::new(&rt)?
            )?,
            "at {input}"
        );
    }
    Ok(())
}

// Each command has the moment of its own reading, and no moment is before another.
#[test]
fn moments_are_those_of_the_clock(rt: HostRuntime) -> Result<(), Fail> {
    let alloc = rt.alloc();
    let rows: [(&[u64], &str, &str); 6] = [
        (
            &[1_000_000_000],
            "set a 0 2592000 1~x~set b 0 2592001 1~x~set c 0 -1 1~x~set d 0 0 1~x~get a b c d~",
            "STORED~STORED~STORED~STORED~VALUE a 0 1~x~VALUE d 0 1~x~END~",
        ),
        (
            &[100, 100, 105, 110],
            "set a 0 0 1~x~flush_all 10~get a~get a~",
            "STORED~OK~VALUE a 0 1~x~END~END~",
        ),
        (
            &[100, 120, 105],
            "set a 0 10 1~x~get a~get a~",
            "STORED~END~END~",
        ),
        (
            &[100, 105, 115, 125],
            "set a 0 10 1~x~gats 20 a b~get a~get a~gat 5~",
            "STORED~VALUE a 0 1 97~x~END~VALUE a 0 1~x~END~END~\
            CLIENT_ERROR bad command line format~",
        ),
        (
            &[100, 100, 100, 105],
            "flush_all 5~flush_all~set a 0 0 1~x~get a~",
            "OK~OK~STORED~VALUE a 0 1~x~END~",
        ),
        (
            &[100, 100, 100, 105],
            "flush_all 5~flush_all 0~set a 0 0 1~x~get a~",
            "OK~OK~STORED~VALUE a 0 1~x~END~",
        ),
    ];
    for (clock, input, output) in rows {
        let read = text(alloc, input)?;
        let written = text(alloc, output)?;
        assert!(rt;
            shows(
                alloc,
                clock,
                &read,
                1,
                &written,
                Status::Ended,
                RandomState::new(&rt)?
            )?,
            "at {input}"
        );
    }
    Ok(())
}

#[test]
fn an_input_may_end_inside_a_command(rt: HostRuntime) -> Result<(), Fail> {
    let alloc = rt.alloc();
    let rows = [
        ("set a 0 0 1~x~set b 0 0 5~ab", "STORED~"),
        ("get a", ""),
        ("set a 0 0 1~x", ""),
    ];
    for (input, output) in rows {
        let read = text(alloc, input)?;
        let written = text(alloc, output)?;
        assert!(rt;
            shows(
                alloc,
                &[NOW],
                &read,
                1,
                &written,
                Status::EndedInside,
                RandomState::new(&rt)?
            )?,
            "at {input}"
        );
    }
    Ok(())
}

// However many trustees there are, whole and byte by byte.
#[test]
fn any_number_of_trustees_answers_so(rt: HostRuntime) -> Result<(), Fail> {
    let alloc = rt.alloc();
    let (input, output) = (
        "version~set k1 0 0 2 noreply~v1~set k2 7 0 3 noreply~v22~set n 0 60 1 noreply~9~\
        get k1 k2 k3~incr n 5~touch k1 100~delete k2~flush_all 9~stats~quit~",
        "VERSION 1.0.0-trust~VALUE k1 0 2~v1~VALUE k2 7 3~v22~END~14~TOUCHED~DELETED~OK~\
        STAT curr_items 2~STAT total_items 3~END~",
    );
    let read = text(alloc, input)?;
    let written = text(alloc, output)?;
    for trustees in ["2", "3", "31"] {
        let said = ["run", "--turns", "--trustees", trustees];
        let ones = vec![in alloc; 1usize; read.len()]?;
        for cuts in [Vec::new(alloc), ones] {
            let shown = run_by(alloc, &said, &[NOW], &read, cuts, RandomState::new(&rt)?)?;
            assert!(rt;
                shown.0 == written && shown.1 == Status::Ended,
                "of {trustees}"
            );
        }
    }
    Ok(())
}

// A class holds so many items, and the one that was used longest ago goes first. The keys `a` and `!` are of one class.
#[test]
fn a_class_has_so_many_items(rt: HostRuntime) -> Result<(), Fail> {
    let alloc = rt.alloc();
    let input = text(alloc, "set a 0 0 1~x~get a~set ! 0 0 1~y~get a !~stats~")?;
    let output = text(
        alloc,
        "STORED~VALUE a 0 1~x~END~STORED~VALUE ! 0 1~y~END~STAT curr_items 1~STAT total_items 2~END~",
    )?;
    let shown = run_by(
        alloc,
        &["run", "--items", "1", "--turns", "--trustees", "2"],
        &[NOW],
        &input,
        Vec::new(alloc),
        RandomState::new(&rt)?,
    )?;
    assert!(rt; shown.0 == output && shown.1 == Status::Ended);
    Ok(())
}
