//! Tables of values that the rules give, and each public call once.
use mc_item::number::{exptime, number};
use mc_item::{Bytes, Expiry, Key, KeyRefused, class_of, due, expired, is_key};
use std::collections::{BTreeMap, HashMap};
use std::mem::size_of;
use std::test::Fail;

#[test]
fn bytes_are_put_together(rt: HostRuntime) -> Result<(), Fail> {
    let alloc = rt.alloc();
    let mut bytes = Bytes::new(alloc);
    assert!(rt; bytes.is_empty());
    bytes.prepend(b"cd")?;
    bytes.extend(b"\x00\"")?;
    bytes.prepend(b"ab")?;
    bytes.prepend(b"")?;
    assert_eq!(rt; bytes.get(), b"abcd\x00\"".as_slice());
    assert_eq!(rt; bytes.len(), 6);
    bytes.reserve(100)?;
    bytes.extend(b"ef")?;
    bytes.truncate(6);
    bytes.truncate(9);
    let shown = format!(in alloc; "{bytes:?}")?;
    assert_eq!(rt; shown.as_str(), "b\"abcd\\x00\\\"\"");
    let copy = bytes.clone()?;
    assert!(rt; copy == bytes);
    bytes.clear();
    assert!(rt; bytes.is_empty() && copy != bytes);
    let taken = Bytes::from(vec![in alloc; 7u8, 8]?);
    assert!(rt; taken == Bytes::of(alloc, &[7, 8])?);
    Ok(())
}

#[test]
fn keys_and_their_classes(rt: HostRuntime) -> Result<(), Fail> {
    let alloc = rt.alloc();
    let long = [b'k'; 251];
    let refused: [&[u8]; 7] = [b"", b"a b", b"\x00", b"a\x7f", b"a\r", b"\x1f", &long];
    for text in refused {
        assert!(rt; !is_key(text));
        assert_eq!(rt; Key::of(alloc, text).err(), Some(KeyRefused::BadKey));
    }
    let classes: [(&[u8], u32); 6] = [
        (b"a", 33),
        (b"b", 34),
        (b"!", 33),
        (b"hello", 18),
        (b"the-quick-brown-fox", 60),
        (&long[..250], 32),
    ];
    for (text, class) in classes {
        assert!(rt; is_key(text));
        let key = Key::of(alloc, text)?;
        assert_eq!(rt; key.get(), text);
        assert_eq!(rt; class_of(&key), class, "of {key:?}");
    }
    // (a key of up to 22 bytes has no block, one of up to 55 a small one)
    let lengths: [&[u8]; 6] = [
        &long[..1],
        &long[..22],
        &long[..23],
        &long[..55],
        &long[..56],
        &long[..250],
    ];
    for text in lengths {
        let key = Key::of(alloc, text)?;
        let copy = key.clone()?;
        assert_eq!(rt; key.get(), text);
        assert_eq!(rt; copy.get(), text);
    }
    assert_eq!(rt; size_of::<Key>(), 24);
    let shown = format!(in alloc; "{} {}", KeyRefused::BadKey, KeyRefused::NoMemory)?;
    assert_eq!(rt; shown.as_str(), "BadKey NoMemory");
    Ok(())
}

#[test]
fn keys_in_maps(rt: HostRuntime) -> Result<(), Fail> {
    let alloc = rt.alloc();
    let mut tree = BTreeMap::new(alloc);
    let mut table = HashMap::new(alloc);
    let texts: [&[u8]; 5] = [b"b", b"ab", b"\xff", b"a", b"aa"];
    for (place, text) in texts.iter().enumerate() {
        let key = Key::of(alloc, text)?;
        table.insert(key.clone()?, place)?;
        tree.insert(key, place)?;
    }
    let mut order = Bytes::new(alloc);
    for (key, place) in &tree {
        assert_eq!(rt; table.get(key), Some(place));
        order.extend(key.get())?;
        order.extend(b" ")?;
    }
    assert_eq!(rt; order.get(), b"a aa ab b \xff ".as_slice());
    Ok(())
}

#[test]
fn moments_of_expiry(rt: HostRuntime) {
    let now = 1_000_000_000;
    let dues = [
        (0, Expiry::Never),
        (-1, Expiry::At(0)),
        (i64::MIN, Expiry::At(0)),
        (1, Expiry::At(1_000_000_001)),
        (2_592_000, Expiry::At(1_002_592_000)),
        (2_592_001, Expiry::At(2_592_001)),
        (i64::MAX, Expiry::At(9_223_372_036_854_775_807)),
    ];
    for (exptime, at) in dues {
        assert_eq!(rt; due(exptime, now), at, "of {exptime}");
    }
    let states = [
        (Expiry::Never, u64::MAX, false),
        (Expiry::At(0), 0, true),
        (Expiry::At(5), 4, false),
        (Expiry::At(5), 5, true),
        (Expiry::At(5), 6, true),
    ];
    for (at, now, is_expired) in states {
        assert_eq!(rt; expired(at, now), is_expired, "{at:?} at {now}");
    }
}

#[test]
fn numbers_of_texts(rt: HostRuntime) {
    let numbers: [(&[u8], u64, Option<u64>); 13] = [
        (b"0", 0, Some(0)),
        (b"7", 6, None),
        (b"7", 7, Some(7)),
        (b"", u64::MAX, None),
        (b"+1", u64::MAX, None),
        (b"-1", u64::MAX, None),
        (b"1a", u64::MAX, None),
        (b"2147483647", 2_147_483_647, Some(2_147_483_647)),
        (b"2147483648", 2_147_483_647, None),
        (b"00000000000000000012", u64::MAX, Some(12)),
        (b"000000000000000000000", u64::MAX, None),
        (b"18446744073709551615", u64::MAX, Some(u64::MAX)),
        (b"18446744073709551616", u64::MAX, None),
    ];
    for (text, most, value) in numbers {
        assert_eq!(rt; number(text, most), value, "of {}", text.escape_ascii());
    }
    let exptimes: [(&[u8], Option<i64>); 11] = [
        (b"0", Some(0)),
        (b"-0", Some(0)),
        (b"-1", Some(-1)),
        (b"-", None),
        (b"", None),
        (b"--1", None),
        (b"+1", None),
        (b"9223372036854775807", Some(i64::MAX)),
        (b"-9223372036854775807", Some(-i64::MAX)),
        (b"-9223372036854775808", None),
        (b"00000000000000000000", None),
    ];
    for (text, value) in exptimes {
        assert_eq!(rt; exptime(text), value, "of {}", text.escape_ascii());
    }
}
