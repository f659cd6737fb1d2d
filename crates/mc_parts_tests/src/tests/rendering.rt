//! The bytes of what is shown.
use mc_item::{Bytes, Key};
use mc_model::{Said, Shown, ShownItem, ShownItems};
use mc_reply::render;
use std::alloc::Global;
use std::test::Fail;

const LINES: [(Said, &[u8]); 17] = [
    (Said::Stored, b"STORED\r\n"),
    (Said::NotStored, b"NOT_STORED\r\n"),
    (Said::Exists, b"EXISTS\r\n"),
    (Said::NotFound, b"NOT_FOUND\r\n"),
    (Said::Deleted, b"DELETED\r\n"),
    (Said::Touched, b"TOUCHED\r\n"),
    (Said::Ok, b"OK\r\n"),
    (Said::Version, b"VERSION 1.0.0-trust\r\n"),
    (Said::Error, b"ERROR\r\n"),
    (Said::BadLine, b"CLIENT_ERROR bad command line format\r\n"),
    (Said::BadChunk, b"CLIENT_ERROR bad data chunk\r\n"),
    (Said::LineTooLong, b"CLIENT_ERROR line too long\r\n"),
    (
        Said::BadDelta,
        b"CLIENT_ERROR invalid numeric delta argument\r\n",
    ),
    (
        Said::NonNumeric,
        b"CLIENT_ERROR cannot increment or decrement non-numeric value\r\n",
    ),
    (
        Said::TooLarge,
        b"SERVER_ERROR object too large for cache\r\n",
    ),
    (
        Said::NoMemory,
        b"SERVER_ERROR out of memory storing object\r\n",
    ),
    (Said::OutOfCas, b"SERVER_ERROR out of cas numbers\r\n"),
];

#[test]
fn lines_and_numbers(rt: HostRuntime) -> Result<(), Fail> {
    let mut out = Bytes::new(rt.alloc());
    for (said, text) in &LINES {
        out.clear();
        render(&Shown::Line(*said), &mut out)?;
        assert_eq!(rt; out.get(), *text);
    }
    out.clear();
    render(&Shown::Nothing, &mut out)?;
    render(&Shown::Number(0), &mut out)?;
    render(&Shown::Number(u64::MAX), &mut out)?;
    render(
        &Shown::Stats {
            held: 0,
            stored: u64::MAX,
        },
        &mut out,
    )?;
    let text = b"0\r\n18446744073709551615\r\n\
        STAT curr_items 0\r\nSTAT total_items 18446744073709551615\r\nEND\r\n";
    assert_eq!(rt; out.get(), text.as_slice());
    Ok(())
}

fn item(alloc: Global, key: &[u8], flags: u32, cas: u64, value: &[u8]) -> Result<ShownItem, Fail> {
    Ok(ShownItem {
        key: Key::of(alloc, key)?,
        flags,
        cas,
        value: Bytes::of(alloc, value)?,
    })
}

#[test]
fn items(rt: HostRuntime) -> Result<(), Fail> {
    let cases: [(bool, &[u8]); 2] = [
        (
            false,
            b"VALUE a 1 3\r\nabc\r\nVALUE \x80\xff~! 4294967295 0\r\n\r\n\
                VALUE k 0 4\r\n\r\n\x00\xff\r\nEND\r\n",
        ),
        (
            true,
            b"VALUE a 1 3 225\r\nabc\r\nVALUE \x80\xff~! 4294967295 0 18446744073709551615\r\n\r\n\
                VALUE k 0 4 0\r\n\r\n\x00\xff\r\nEND\r\n",
        ),
    ];
    for (with_cas, text) in cases {
        let mut out = Bytes::new(rt.alloc());
        let none = ShownItems::new(rt.alloc());
        render(
            &Shown::Values {
                items: none,
                with_cas,
            },
            &mut out,
        )?;
        assert_eq!(rt; out.get(), b"END\r\n".as_slice());
        let mut items = ShownItems::new(rt.alloc());
        items.push(item(rt.alloc(), b"a", 1, 225, b"abc")?)?;
        items.push(item(rt.alloc(), b"\x80\xff~!", u32::MAX, u64::MAX, b"")?)?;
        items.push(item(rt.alloc(), b"k", 0, 0, b"\r\n\x00\xff")?)?;
        out.clear();
        render(&Shown::Values { items, with_cas }, &mut out)?;
        assert_eq!(rt; out.get(), text);
    }
    Ok(())
}
