//! Words that have no meaning.
use super::read;
use mc_words::{WordsStop, read_words};
use std::test::Fail;

#[test]
fn no_words(rt: HostRuntime) {
    let none: [String; 0] = [];
    assert_eq!(rt; read_words(rt.alloc(), &none), Err(WordsStop::BadWords));
}

#[test]
fn commands(rt: HostRuntime) -> Result<(), Fail> {
    let rows = [
        "",
        " ",
        "Run",
        "runs",
        "ru",
        "x",
        "r\u{e9}",
        "help",
        "help run",
        "--help",
        "-h",
        "-V",
        "--version",
        "--turns",
        "--turns run",
        " run",
        "-",
        "--",
        "-- run",
        "serve",
        "serve --workers 2",
    ];
    for line in rows {
        assert_eq!(rt; read(rt.alloc(), line)?, Err(WordsStop::BadWords), "{line}");
    }
    Ok(())
}

#[test]
fn options(rt: HostRuntime) -> Result<(), Fail> {
    let rows = [
        "run --",
        "run -- --turns",
        "run --turns --",
        "run --trustees --",
        "run --trustees -- 2",
        "run x",
        "run -",
        "run -t",
        "run -\u{e9}",
        "run --\u{e9}",
        "run --turn",
        "run --Turns",
        "run ---turns",
        "run turns",
        "run -h",
        "run --help",
        "run --version",
        "run help",
        "run run",
        "run ",
        "run --turns ",
        "run  --turns",
        "run --turns=",
        "run --turns=1",
        "run --turns=true",
        "run --turns 1",
        "run --turns --turns",
        "run --trustees",
        "run --trustees=",
        "run --trustees ",
        "run --trustees --turns",
        "run --trustees = 2",
        "run --trustees= 2",
        "run --trustees==2",
        "run --=2",
        "run =",
        "run --trustees 2 3",
        "run --trustees 2 --trustees 2",
        "run --trustees=2 --turns --trustees 3",
        "load --seed 1 --seed=1",
        "serve --port 1 --port 1",
    ];
    for line in rows {
        assert_eq!(rt; read(rt.alloc(), line)?, Err(WordsStop::BadWords), "{line}");
    }
    Ok(())
}

#[test]
fn values(rt: HostRuntime) -> Result<(), Fail> {
    let rows = [
        "run --trustees 1",
        "run --trustees 33",
        "run --trustees +2",
        "run --trustees -2",
        "run --trustees=-2",
        "run --trustees 2.0",
        "run --trustees 0x2",
        "run --trustees two",
        "run --trustees 2\u{e9}",
        "run --trustees \u{ff12}",
        "run --trustees 00000000000000000002",
        "run --trustees 18446744073709551618",
        "run --max-bytes 0",
        "run --max-bytes 4611686018427387905",
        "run --max-bytes 9999999999999999999",
        "run --turns --items 0",
        "run --items 65537",
        "serve --port",
        "serve --port -1",
        "serve --port 65536",
        "serve --port 1 --workers 0",
        "serve --port 1 --workers 17",
        "serve --port 1 --connections 4611686018427387905",
        "serve --port 1 --connections none",
        "serve --port 1 --trustees 1",
        "serve --port 1 --items 65537",
        "serve --port 1 --max-bytes 0",
        "load --seed +1",
        "load --seed 65536",
        "load --ops 1000001",
        "load --clients 0",
        "load --clients 17",
        "load --trustees 33",
    ];
    for line in rows {
        assert_eq!(rt; read(rt.alloc(), line)?, Err(WordsStop::BadWords), "{line}");
    }
    Ok(())
}

#[test]
fn options_of_other_commands(rt: HostRuntime) -> Result<(), Fail> {
    let rows = [
        "run --port 1",
        "run --workers 1",
        "run --connections 1",
        "run --seed 1",
        "run --ops 1",
        "run --clients 1",
        "serve --port 1 --turns",
        "serve --port 1 --seed 1",
        "load --max-bytes 1",
        "load --items 1",
        "load --port 1",
    ];
    for line in rows {
        assert_eq!(rt; read(rt.alloc(), line)?, Err(WordsStop::BadWords), "{line}");
    }
    Ok(())
}
