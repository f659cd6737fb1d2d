//! Inputs at the limits of a key, a line and a value.
use super::{NOW, shows, text};
use mc_item::MOST_KEYS;
use mc_top::Status;
use std::alloc::{AllocError, Global};
use std::hash::RandomState;
use std::process::Abort;
use std::test::Fail;

// A text of parts, each of which is a row and then a byte so many times.
fn joined(alloc: Global, parts: &[(&str, u8, usize)]) -> Result<Vec<u8>, AllocError> {
    let mut all = Vec::new(alloc);
    for (row, byte, count) in parts {
        all.extend_from_slice(&text(alloc, row)?)?;
        all.extend_from_slice(&vec![in alloc; *byte; *count]?)?;
    }
    Ok(all)
}

#[test]
fn limits_are_kept(rt: HostRuntime) -> Result<(), Fail> {
    let alloc = rt.alloc();
    let rows: [(&[(&str, u8, usize)], &[(&str, u8, usize)]); 5] = [
        // Keys of 250 and of 251 bytes.
        (
            &[
                ("set ", b'k', 250),
                (" 0 0 0~~set ", b'k', 251),
                (" 0 0 0~~~", 0, 0),
            ],
            &[(
                "STORED~CLIENT_ERROR bad command line format~ERROR~ERROR~",
                0,
                0,
            )],
        ),
        // Values of 1 MiB, of one byte more, and one that would get so.
        (
            &[
                ("set a 0 0 1048576~", b'x', 1_048_576),
                ("~set a 0 0 1048577~", b'y', 1_048_577),
                ("~append a 0 0 1~z~get a~", 0, 0),
            ],
            &[
                ("STORED~SERVER_ERROR object too large for cache~", 0, 0),
                (
                    "SERVER_ERROR object too large for cache~VALUE a 0 1048576~",
                    b'x',
                    1_048_576,
                ),
                ("~END~", 0, 0),
            ],
        ),
        // A quiet one is refused in silence.
        (
            &[
                ("set a 0 0 1048577 noreply~", b'y', 1_048_577),
                ("~get a~", 0, 0),
            ],
            &[("END~", 0, 0)],
        ),
        // A line that is too long, and one that is as long as a line may be.
        (
            &[("", b'g', 65_536), ("~version~", 0, 0)],
            &[("CLIENT_ERROR line too long~VERSION 1.0.0-trust~", 0, 0)],
        ),
        (&[("", b'g', 65_535), ("^", 0, 0)], &[("ERROR~", 0, 0)]),
    ];
    for (input, output) in rows {
        let read = joined(alloc, input)?;
        let written = joined(alloc, output)?;
        assert!(rt;
            shows(
                alloc,
                &[NOW],
                &read,
                997,
                &written,
                Status::Ended,
                RandomState::new(&rt)?
            )?,
            "of {} bytes",
            read.len()
        );
    }
    Ok(())
}

#[test]
fn many_keys_are_looked_up(rt: HostRuntime) -> Result<(), Fail> {
    let alloc = rt.alloc();
    let mut line = Vec::from_slice(alloc, b"get")?;
    for _ in 0..100 {
        line.extend_from_slice(b" ")?;
        line.extend_from_slice(&vec![in alloc; b'k'; 40]?)?;
    }
    line.extend_from_slice(b"\r\n")?;
    assert_eq!(rt; line.len(), 4_105);
    assert!(rt;
        shows(
            alloc,
            &[NOW],
            &line,
            1,
            b"END\r\n",
            Status::Ended,
            RandomState::new(&rt)?
        )?
    );
    Ok(())
}

// One `get` finds as many items as it may ask for, in the order of its keys.
#[test]
fn many_keys_are_found(rt: HostRuntime) -> Result<(), Fail> {
    let alloc = rt.alloc();
    let mut read = Vec::new(alloc);
    let mut line = Vec::from_slice(alloc, b"get")?;
    let mut written = Vec::new(alloc);
    for number in 0..MOST_KEYS {
        let key = format!(in alloc; "k{number}")?;
        let size = key.len();
        let set = format!(in alloc; "set {key} 7 0 {size} noreply\r\n{key}\r\n")?;
        read.extend_from_slice(set.as_bytes())?;
        line.extend_from_slice(b" ")?;
        line.extend_from_slice(key.as_bytes())?;
        let found = format!(in alloc; "VALUE {key} 7 {size}\r\n{key}\r\n")?;
        written.extend_from_slice(found.as_bytes())?;
    }
    line.extend_from_slice(b"\r\n")?;
    read.extend_from_slice(&line)?;
    written.extend_from_slice(b"END\r\n")?;
    assert!(rt;
        shows(
            alloc,
            &[NOW],
            &read,
            997,
            &written,
            Status::Ended,
            RandomState::new(&rt)?
        )?
    );
    Ok(())
}
