//! The words of `serve`.
ghost use Rattle.std.specs.Prelude.{IfOk, OnErr};
ghost use Rattle.clap.specs.Words.{found_of, rows_of};
ghost use Rattle.mc_words.specs.Matched.{RowsGive};
ghost use Rattle.mc_words.specs.ServeWords.{IsServe, IsServeInRange};
ghost use Rattle.mc_words.specs.declared.serve.Serve.{Serve};

use crate::limits::{USUAL_BYTES, USUAL_TRUSTEES, USUAL_WORKERS};
use crate::names::Name;
use crate::settings::{given, setting};
use crate::stop::BadWords;
use clap::ArgMatches;
use mc_item::USUAL_ITEMS;

/// The options of `serve`.
pub(crate) const NAMES: [Name; 6] = [
    Name::Port,
    Name::Workers,
    Name::Trustees,
    Name::Connections,
    Name::MaxBytes,
    Name::Items,
];

/// What `serve` is to do: answer the commands of TCP connections.
#[derive(Clone, Copy, Debug, PartialEq, Eq)]
pub struct Serve {
    /// `--port`, 0 to 65,535, which has to be given. At 0 any port that is free.
    pub port: u16,
    /// `--workers`, 1 to 16, usually 4.
    pub workers: u32,
    /// `--trustees`, 2 to 32, usually 5.
    pub trustees: u32,
    /// `--connections`, 0 to 2^62, after which the server ends. Usually it does not.
    pub connections: Option<u64>,
    /// `--max-bytes` of each connection, 1 to 2^62, usually 2^40.
    pub max_bytes: u64,
    /// `--items` of each class, 1 to 65,536, usually 4,096.
    pub items: u32,
}

/// What the options of `serve` say.
pub(crate) fn read(matches: &ArgMatches) -> Result<Serve, BadWords>
    ensures says { IfOk result (IsServe (RowsGive (rows_of (found_of matches.now)))) }
    ensures range { IfOk result IsServeInRange }
    ensures refused { OnErr result ((serve : Serve) → IsServe (RowsGive (rows_of (found_of matches.now))) serve → ⊥) }
{
    let Some(port) = given(matches, Name::Port)? else {
        return Err(BadWords);
    };
    Ok(Serve {
        port: port as u16,
        workers: setting(matches, Name::Workers, USUAL_WORKERS)? as u32,
        trustees: setting(matches, Name::Trustees, USUAL_TRUSTEES)? as u32,
        connections: given(matches, Name::Connections)?,
        max_bytes: setting(matches, Name::MaxBytes, USUAL_BYTES)?,
        items: setting(matches, Name::Items, u64::from(USUAL_ITEMS))? as u32,
    })
}
