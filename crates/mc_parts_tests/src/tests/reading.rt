//! Rows: texts, and the messages that they read as by the rules of the protocol.

use mc_grammar::{Next, Reader, Reading, read_pieces, read_plainly};
use mc_item::Bytes;
use mc_model::{Command, Keys, Message};
use std::alloc::{AllocError, Global};
use std::process::Abort;
use std::test::Fail;

// Texts of one message each. `~` stands for a line end, `^` for a lone line feed and `|` for a lone
// carriage return.
const STORES: &str = "set a 7 -1 1~x~ => Set a 7 -1 'x'.
add a 0 0 1 noreply~x~ => Add a 0 0 'x' quiet.
replace a 4294967295 9223372036854775807 0^~ => Replace a 4294967295 9223372036854775807 ''.
append a 0 -0 2~~~ => Append a 0 0 '\\r\\n'.
prepend a 000 -9223372036854775807 1~^~ => Prepend a 0 -9223372036854775807 '\\n'.
cas a 0 0 1 18446744073709551615~x~ => Cas(18446744073709551615) a 0 0 'x'.
cas noreply 0 0 0 1 noreply~~ => Cas(1) noreply 0 0 '' quiet.
cas a 0 0 1~ => BadLine.
cas a 0 0 1 18446744073709551616~ => BadLine.
cas a 0 0 1 1 x~ => BadLine.
set a 0 0~ => BadLine.
set a 0 0 1 1~ => BadLine.
set a 4294967296 0 1~ => BadLine.
set a 0 +1 1~ => BadLine.
set a 0 9223372036854775808 1~ => BadLine.
set a 0 00000000000000000001 1~ => BadLine.
set a 0 0 2147483648~ => BadLine.
set a 0 0 x~ => BadLine.
set \u{7f} 0 0 1~ => BadLine.
set a\tb 0 0 1~ => BadLine.";

const OTHERS: &str = "get a~ => Get a.
  get   a  noreply  ^ => Get a noreply.
gets a b~ => Gets a b.
get~ => BadLine.
delete a~ => Delete a.
delete a 0~ => Delete a.
delete a noreply~ => Delete a quiet.
delete a 0 noreply~ => Delete a quiet.
delete noreply~ => Delete noreply.
delete a 1~ => BadLine.
delete a 0 0~ => BadLine.
incr a 00000000000000000001~ => Change true a 1.
decr a 18446744073709551615 noreply~ => Change false a 18446744073709551615 quiet.
incr a 18446744073709551616~ => BadDelta.
incr a 000000000000000000001~ => BadDelta.
decr a noreply~ => BadDelta.
incr a -1 noreply~ => BadDelta.
incr a x y~ => BadLine.
incr a~ => BadLine.
touch a 50~ => Touch a 50.
touch a -1 noreply~ => Touch a -1 quiet.
touch a~ => BadLine.
flush_all ~ => FlushAll 0.
flush_all noreply~ => FlushAll 0 quiet.
flush_all 5~ => FlushAll 5.
flush_all 4294967295 noreply~ => FlushAll 4294967295 quiet.
flush_all noreply noreply~ => BadLine.
stats ~ => Stats.
stats items~ => BadLine.
version^ => Version.
verbosity 1~ => Verbosity.
verbosity 1 noreply~ => Verbosity quiet.
verbosity noreply~ => BadLine.
quit~ => Quit.
quit now~ => BadLine.
gat 20 a~ => Gat 20 a.
gats -1 a b~ => Gats -1 a b.
gat noreply a~ => BadLine.
gat 20~ => BadLine.
gat~ => BadLine.
^ => Unknown.
GET a~ => Unknown.
version|~ => Unknown.";

// Texts of several messages, with dots where a rest is left.
const STREAMS: &str = "get a => ..
set a 0 0 3~abcdef~get a~ => BadChunk { quiet: false }.Get a.
set a 0 0 3 noreply~abcdef~get a~ => BadChunk { quiet: true }.Get a.
set a 0 0 3^abc^get a^ => BadChunk { quiet: false }.Get a.
set a 0 0 3~abc|get b~get a~ => BadChunk { quiet: false }.Get a.
set a 4294967296 0 1~x~set a 4294967295 0 1~x~get a~ => BadLine.Unknown.Set a 4294967295 0 'x'.Get a.
get~GET a~foo~stats items~set a 0 0~ => BadLine.Unknown.Unknown.BadLine.BadLine.
set a 0 0 1~x~incr a 18446744073709551616~incr a~delete a 1~ => Set a 0 0 'x'.BadDelta.BadLine.BadLine.
set a 0 0 1~x| => ..
quit~set a 0 0 1~xy => Quit...";

fn mark(quiet: bool) -> &'static str {
    if quiet { " quiet" } else { "" }
}

fn tell_bytes(out: &mut String, bytes: &[u8]) -> Result<(), AllocError> {
    let size = bytes.len();
    if size > 20 {
        write!(out, "{size} bytes")
    } else {
        let text = bytes.escape_ascii();
        write!(out, "{text}")
    }
}

fn tell_value(out: &mut String, value: &Bytes) -> Result<(), AllocError> {
    out.push_str(" '")?;
    tell_bytes(out, value.get())?;
    out.push_str("'")
}

fn tell_keys(out: &mut String, keys: &Keys) -> Result<(), AllocError> {
    let count = keys.len();
    if count > 4 {
        return write!(out, " {count} keys");
    }
    for i in 0..count {
        out.push_str(" ")?;
        tell_bytes(out, keys.get(i).get())?;
    }
    Ok(())
}

fn tell_plain(out: &mut String, command: &Command) -> Result<(), AllocError> {
    match command {
        Command::FlushAll { delay, quiet } => {
            write!(out, "FlushAll {delay}")?;
            out.push_str(mark(*quiet))
        }
        Command::Verbosity { quiet } => {
            out.push_str("Verbosity")?;
            out.push_str(mark(*quiet))
        }
        Command::Stats => out.push_str("Stats"),
        Command::Version => out.push_str("Version"),
        Command::Quit => out.push_str("Quit"),
        _ => out.push_str("?"),
    }
}

fn tell_keyed(out: &mut String, command: &Command) -> Result<(), AllocError> {
    match command {
        Command::Delete { key, quiet } => {
            out.push_str("Delete ")?;
            tell_bytes(out, key.get())?;
            out.push_str(mark(*quiet))
        }
        Command::Change { up, key, by, quiet } => {
            write!(out, "Change {up} ")?;
            tell_bytes(out, key.get())?;
            write!(out, " {by}")?;
            out.push_str(mark(*quiet))
        }
        Command::Touch {
            key,
            exptime,
            quiet,
        } => {
            out.push_str("Touch ")?;
            tell_bytes(out, key.get())?;
            write!(out, " {exptime}")?;
            out.push_str(mark(*quiet))
        }
        other => tell_plain(out, other),
    }
}

fn tell_command(out: &mut String, command: &Command) -> Result<(), AllocError> {
    match command {
        Command::Store {
            how,
            key,
            flags,
            exptime,
            value,
            quiet,
        } => {
            write!(out, "{how:?} ")?;
            tell_bytes(out, key.get())?;
            write!(out, " {flags} {exptime}")?;
            tell_value(out, value)?;
            out.push_str(mark(*quiet))
        }
        Command::Get { keys, with_cas } => {
            out.push_str(if *with_cas { "Gets" } else { "Get" })?;
            tell_keys(out, keys)
        }
        Command::GetTouch {
            exptime,
            keys,
            with_cas,
        } => {
            out.push_str(if *with_cas { "Gats" } else { "Gat" })?;
            write!(out, " {exptime}")?;
            tell_keys(out, keys)
        }
        other => tell_keyed(out, other),
    }
}

fn tell(out: &mut String, message: &Message) -> Result<(), AllocError> {
    match message {
        Message::Command(command) => tell_command(out, command),
        Message::Fault(fault) => write!(out, "{fault:?}"),
    }
}

// The messages in short, with a dot behind each, and two dots where a rest is left.
fn told(alloc: Global, reading: &Reading) -> Result<String, AllocError> {
    let mut out = String::new(alloc);
    for message in &reading.messages {
        tell(&mut out, message)?;
        out.push_str(".")?;
    }
    if !reading.is_whole {
        out.push_str("..")?;
    }
    Ok(out)
}

fn told_by_bytes(alloc: Global, text: &[u8]) -> Result<String, AllocError> {
    let pieces: Vec<&[u8]> = text.chunks(1).collect(alloc)?;
    told(alloc, &read_pieces(alloc, &pieces)?)
}

// The text whole, in pieces of one byte, and by the plain program.
fn expect_row(rt: &impl Abort, alloc: Global, text: &[u8], want: &str) -> Result<(), Fail> {
    let whole = told(alloc, &read_pieces(alloc, &[text])?)?;
    assert_eq!(rt; whole.as_str(), want, "whole");
    let cut = told_by_bytes(alloc, text)?;
    assert_eq!(rt; cut.as_str(), want, "byte by byte");
    let plain = told(alloc, &read_plainly(alloc, text)?)?;
    assert_eq!(rt; plain.as_str(), want, "by the plain program");
    Ok(())
}

// No front of the text has a message.
fn expect_fronts(rt: &impl Abort, alloc: Global, text: &[u8]) -> Result<(), Fail> {
    for end in 1..text.len() {
        let front = told_by_bytes(alloc, &text[..end])?;
        assert_eq!(rt; front.as_str(), "..", "a front");
    }
    Ok(())
}

fn decoded(alloc: Global, text: &str) -> Result<Vec<u8>, AllocError> {
    let mut all = Vec::new(alloc);
    for byte in text.as_bytes() {
        match *byte {
            b'~' => all.extend_from_slice(b"\r\n".as_slice())?,
            b'^' => all.push(b'\n')?,
            b'|' => all.push(b'\r')?,
            other => all.push(other)?,
        }
    }
    Ok(all)
}

fn run_line(rt: &impl Abort, alloc: Global, line: &str, with_fronts: bool) -> Result<(), Fail> {
    let Some((text, want)) = line.split_once(" => ") else {
        panic!(rt; "no row: {line}");
    };
    let text = decoded(alloc, text)?;
    expect_row(rt, alloc, &text, want)?;
    if with_fronts {
        expect_fronts(rt, alloc, &text)?;
    }
    Ok(())
}

fn run_table(rt: &impl Abort, alloc: Global, table: &str, with_fronts: bool) -> Result<(), Fail> {
    for line in table.lines() {
        run_line(rt, alloc, line, with_fronts)?;
    }
    Ok(())
}

#[test]
fn one_message_rows(rt: HostRuntime) -> Result<(), Fail> {
    run_table(&rt, rt.alloc(), STORES, true)?;
    run_table(&rt, rt.alloc(), OTHERS, true)
}

#[test]
fn stream_rows(rt: HostRuntime) -> Result<(), Fail> {
    run_table(&rt, rt.alloc(), STREAMS, false)?;
    expect_row(&rt, rt.alloc(), b"".as_slice(), "")
}

// A front, some bytes again and again, and an end.
fn expect_long(
    rt: &impl Abort,
    alloc: Global,
    front: &str,
    part: (&str, usize),
    end: &str,
    want: &str,
) -> Result<(), Fail> {
    let mut text = decoded(alloc, front)?;
    for _ in 0..part.1 {
        text.extend_from_slice(part.0.as_bytes())?;
    }
    let end = decoded(alloc, end)?;
    text.extend_from_slice(&end)?;
    expect_row(rt, alloc, &text, want)
}

#[test]
fn long_lines(rt: HostRuntime) -> Result<(), Fail> {
    let alloc = rt.alloc();
    expect_long(&rt, alloc, "", ("g", 65_535), "^", "Unknown.")?;
    expect_long(
        &rt,
        alloc,
        "",
        ("g", 65_536),
        "~version~",
        "LineTooLong.Version.",
    )?;
    expect_long(&rt, alloc, "get ", ("k", 250), "~", "Get 250 bytes.")?;
    expect_long(&rt, alloc, "get ", ("k", 251), "~", "BadLine.")?;
    expect_long(&rt, alloc, "get", (" k", 1024), "~", "Get 1024 keys.")?;
    expect_long(&rt, alloc, "get", (" k", 1025), "~", "BadLine.")
}

#[test]
fn large_blocks(rt: HostRuntime) -> Result<(), Fail> {
    let alloc = rt.alloc();
    let whole = "Set a 0 0 '1048576 bytes'.";
    expect_long(
        &rt,
        alloc,
        "set a 0 0 1048576~",
        ("x", 1_048_576),
        "~",
        whole,
    )?;
    let large = "TooLarge { quiet: false }.Get a.";
    expect_long(
        &rt,
        alloc,
        "set a 0 0 1048577~",
        ("y", 1_048_577),
        "~get a~",
        large,
    )?;
    let quiet = "TooLarge { quiet: true }.Get a.";
    expect_long(
        &rt,
        alloc,
        "set a 0 0 1048577 noreply~",
        ("y", 1_048_577),
        "z^get a~",
        quiet,
    )
}

fn is_command(next: Next) -> bool {
    matches!(next, Next::Command(_))
}

fn is_more(next: Next) -> bool {
    matches!(next, Next::More)
}

#[test]
fn one_message_a_call(rt: HostRuntime) -> Result<(), Fail> {
    let mut reader = Reader::new(rt.alloc());
    assert!(rt; reader.is_between());
    let text = b"get a\r\nget b\r\n".as_slice();
    assert_eq!(rt; reader.feed(text)?, 7);
    assert!(rt; !reader.is_between());
    assert_eq!(rt; reader.feed(text)?, 0, "a whole message waits");
    assert!(rt; is_command(reader.next()));
    assert!(rt; reader.is_between());
    assert!(rt; is_more(reader.next()));
    Ok(())
}
