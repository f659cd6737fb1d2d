//! Words that have a meaning.
use super::read;
use mc_words::{Load, Run, Serve, Words};
use std::test::Fail;

const RUN: Run = Run {
    trustees: 5,
    max_bytes: 1_099_511_627_776,
    items: 4_096,
    turns: false,
};

const SERVE: Serve = Serve {
    port: 7_000,
    workers: 4,
    trustees: 5,
    connections: None,
    max_bytes: 1_099_511_627_776,
    items: 4_096,
};

const LOAD: Load = Load {
    seed: 1,
    ops: 20_000,
    clients: 4,
    trustees: 5,
    turns: false,
};

#[test]
fn words_of_run(rt: HostRuntime) -> Result<(), Fail> {
    let rows = [
        ("run", RUN),
        ("run --turns", Run { turns: true, ..RUN }),
        ("run --trustees 2", Run { trustees: 2, ..RUN }),
        ("run --trustees 3", Run { trustees: 3, ..RUN }),
        (
            "run --trustees=2 --turns",
            Run {
                trustees: 2,
                turns: true,
                ..RUN
            },
        ),
        (
            "run --trustees=32",
            Run {
                trustees: 32,
                ..RUN
            },
        ),
        (
            "run --trustees=0000000000000000002 --turns",
            Run {
                trustees: 2,
                turns: true,
                ..RUN
            },
        ),
        (
            "run --max-bytes 1",
            Run {
                max_bytes: 1,
                ..RUN
            },
        ),
        (
            "run --max-bytes 25 --turns",
            Run {
                max_bytes: 25,
                turns: true,
                ..RUN
            },
        ),
        (
            "run --max-bytes=4611686018427387904",
            Run {
                max_bytes: 1 << 62,
                ..RUN
            },
        ),
        ("run --items 1", Run { items: 1, ..RUN }),
        (
            "run --turns --items 65536",
            Run {
                items: 65_536,
                turns: true,
                ..RUN
            },
        ),
        (
            "run --items=2 --turns --trustees 3 --max-bytes=24",
            Run {
                trustees: 3,
                max_bytes: 24,
                items: 2,
                turns: true,
            },
        ),
    ];
    for (line, run) in rows {
        assert_eq!(rt; read(rt.alloc(), line)?, Ok(Words::Run(run)), "{line}");
    }
    Ok(())
}

#[test]
fn words_of_serve(rt: HostRuntime) -> Result<(), Fail> {
    let rows = [
        ("serve --port 7000", SERVE),
        (
            "serve --port 0 --connections 1",
            Serve {
                port: 0,
                connections: Some(1),
                ..SERVE
            },
        ),
        (
            "serve --port=65535",
            Serve {
                port: 65_535,
                ..SERVE
            },
        ),
        (
            "serve --port 7000 --connections 0",
            Serve {
                connections: Some(0),
                ..SERVE
            },
        ),
        (
            "serve --connections=4611686018427387904 --port 7000",
            Serve {
                connections: Some(1 << 62),
                ..SERVE
            },
        ),
        (
            "serve --port 7000 --workers 2 --connections 2",
            Serve {
                workers: 2,
                connections: Some(2),
                ..SERVE
            },
        ),
        (
            "serve --workers 1 --port 7000",
            Serve {
                workers: 1,
                ..SERVE
            },
        ),
        (
            "serve --workers=16 --port 7000",
            Serve {
                workers: 16,
                ..SERVE
            },
        ),
        (
            "serve --items 9 --max-bytes 8 --trustees 7 --port 6",
            Serve {
                port: 6,
                trustees: 7,
                max_bytes: 8,
                items: 9,
                ..SERVE
            },
        ),
    ];
    for (line, serve) in rows {
        assert_eq!(rt; read(rt.alloc(), line)?, Ok(Words::Serve(serve)), "{line}");
    }
    Ok(())
}

#[test]
fn words_of_load(rt: HostRuntime) -> Result<(), Fail> {
    let rows = [
        ("load", LOAD),
        (
            "load --seed 7 --ops 8 --clients 2 --trustees 3",
            Load {
                seed: 7,
                ops: 8,
                clients: 2,
                trustees: 3,
                turns: false,
            },
        ),
        (
            "load --seed 7 --ops 20000 --clients 4 --trustees 5",
            Load { seed: 7, ..LOAD },
        ),
        (
            "load --turns --seed=0 --ops=0",
            Load {
                seed: 0,
                ops: 0,
                turns: true,
                ..LOAD
            },
        ),
        (
            "load --seed 65535 --clients 1",
            Load {
                seed: 65_535,
                clients: 1,
                ..LOAD
            },
        ),
        (
            "load --ops 1000000 --clients=16",
            Load {
                ops: 1_000_000,
                clients: 16,
                ..LOAD
            },
        ),
    ];
    for (line, load) in rows {
        assert_eq!(rt; read(rt.alloc(), line)?, Ok(Words::Load(load)), "{line}");
    }
    Ok(())
}
