ghost use Rattle.std.specs.Prelude.{◌≡◌, ◌≢◌, ◌+◌, ◌≤◌, length, Err, IfOk, IfErr, OnErr};
ghost use Rattle.std.specs.Io.KnownBytes.{Consumes, IsAtEnd};
ghost use Rattle.dsm_io.specs.Faults.{Rose};
ghost use Rattle.dsm_io.specs.Whole.{ConsumesSome, ConsumesAtMost};
ghost use Rattle.dsm_io.specs.declared.reading.ReadErr.TheVariants.{Fault, NoMemory as WantsMemory};

use crate::source::{Failed, Source};
use std::alloc::{AllocError, Global};
use thiserror::Error;

/// Why a whole read was refused.
#[derive(Clone, Copy, Debug, PartialEq, Eq, Error)]
pub enum ReadErr {
    /// A read failed.
    #[error("a read failed")]
    Fault,
    /// There were more bytes than the limit.
    #[error("there are more bytes than the limit")]
    TooLong,
    /// Memory was wanted and not got.
    #[error("out of memory")]
    NoMemory,
}

impl From<Failed> for ReadErr {
    ghost from_gives = { λ _ e. e ≡ Fault };

    fn from(_: Failed) -> ReadErr {
        ReadErr::Fault
    }
}

impl From<AllocError> for ReadErr {
    ghost from_gives = { λ _ e. e ≡ WantsMemory };

    fn from(_: AllocError) -> ReadErr {
        ReadErr::NoMemory
    }
}

/// Bytes that one read asks for at most.
const PIECE: usize = 4096;

/// All bytes up to the end of the source, or `TooLong` as soon as it has taken `limit + 1`. After a
/// refusal the bytes that it took are dropped, and the source stands behind them. No read is made behind
/// `limit + 1` bytes, so that a fault comes behind `limit` at most. Every read but the last takes at
/// least one byte, so there are at most `limit + 2` reads.
pub fn read_all<S: Source>(alloc: Global, source: &mut S, limit: usize) -> Result<Vec<u8>, ReadErr>
    requires { limit ≤ 1000000 }
    // The answer is all that the source had, up to its end.
    ensures read { IfOk result (λ v. Consumes (S.left source.old) (S.left source.new) v.items) }
    ensures end { IfOk result (λ _. IsAtEnd (S.left source.new)) }
    ensures within { IfOk result (λ v. length v.items ≤ limit) }

    // It faults only where the count of faults rose, and else leaves it.
    ensures fault { result ≡ Err ReadErr.Fault → Rose (S.faults source.old) (S.faults source.new) }
    ensures well { result ≢ Err ReadErr.Fault → S.faults source.new ≡ S.faults source.old }
    ensures fault_taken { result ≡ Err ReadErr.Fault → ConsumesAtMost (S.left source.old) (S.left source.new) limit }
    ensures too_long { result ≡ Err ReadErr.TooLong → ConsumesSome (S.left source.old) (S.left source.new) (limit + 1) }
    ensures taken { OnErr result (ConsumesAtMost (S.left source.old) (S.left source.new) (limit + 1)) }
    ensures counts { S.faults source.old ≤ S.faults source.new }
{
    let mut bytes = Vec::new(alloc);
    let mut buf = [0u8; PIECE];
    while bytes.len() <= limit {
        let room = (limit + 1 - bytes.len()).min(PIECE);
        let count = source.read(&mut buf[..room])?;
        if count == 0 {
            return Ok(bytes);
        }
        bytes.extend_from_slice(&buf[..count])?;
    }
    Err(ReadErr::TooLong)
}
