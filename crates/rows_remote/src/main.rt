//! Reads rows, one a line, about a connection to a shared node, with both of its ends in this program, and prints each with what the
//! client gets back.
//!
//! ```text
//! new          a new shared node, and a connection to it at some port of this machine
//! say bytes    the client sends these bytes, the node answers the message that they are, and the client reads the answer
//! ```
//!
//! Bytes are escaped, as `\n` and `\xFF`. A row that is misspelled ends nothing: it gets an answer that nobody expects.
#![tactic(auto)]

mod connection;

use crate::connection::Connection;
use bstr::{ByteSlice, ByteVec};
use std::alloc::{AllocError, Global};
use std::io::{self, BufRead, BufReader};
use std::net::Net;

fn main(rt: HostRuntime) -> io::Result<()> {
    let alloc = rt.alloc();
    let mut connection = Connection::new(&rt)?;
    for row in BufReader::new(alloc, rt.reader())?.lines(alloc) {
        let line = answered(&rt, &mut connection, row?.as_str())?;
        rt.println(line)?;
    }
    Ok(())
}

// The row with its answer; a comment and a blank line as they are.
fn answered<R>(rt: &R, connection: &mut Connection<R>, row: &str) -> io::Result<String>
where
    R: Net + AllocGlobal,
{
    let mut line = String::from_str(rt.alloc(), row)?;
    if row.is_empty() || row.starts_with('#') {
        return Ok(line);
    }
    line.push_str(" = ")?;
    let (verb, text) = row.split_once(' ').unwrap_or((row, ""));
    match verb {
        "new" => {
            *connection = Connection::new(rt)?;
            line.push_str("ok")?;
        }
        "say" => push_bytes(&mut line, &said(rt.alloc(), connection, text)?)?,
        _ => line.push_str("no such verb")?,
    }
    Ok(line)
}

// What comes back for these bytes.
fn said<R>(alloc: Global, connection: &mut Connection<R>, text: &str) -> io::Result<Vec<u8>>
where
    R: Net + AllocGlobal,
{
    let bytes = Vec::unescape_bytes(alloc, text)?;
    connection.exchange(alloc, &bytes)
}

// Tells bytes by escapes, and a space as it is.
fn push_bytes(out: &mut String, bytes: &[u8]) -> Result<(), AllocError> {
    for (place, word) in bytes.split_str(b" ").enumerate() {
        if place > 0 {
            out.push(' ')?;
        }
        for letter in word.escape_bytes() {
            out.push(letter)?;
        }
    }
    Ok(())
}
