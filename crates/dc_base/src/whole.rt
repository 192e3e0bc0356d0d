ghost use Rattle.std.specs.Prelude.{◌≡◌, ◌<◌, ◌≤◌, ◌^◌, ◌↔◌, [], length, IfOk, IsOk, OnOk, OnErr, Err};
ghost use Rattle.std.specs.Io.KnownBytes.{Appends};
ghost use Rattle.dc_base.specs.Causes.{Rose};
ghost use Rattle.dc_base.specs.Told.{AppendsFront, Drained, Gave, HasMore};

use crate::{ReadAllError, Sink, Source, WriteFault};
use std::alloc::Global;

/// The most bytes that one read is asked for.
const PIECE: usize = 4096;

/// Reads a source to its end, and gives all of its bytes where there are at most `limit`.
///
/// `TooLong` comes exactly where byte number `limit + 1` was given, and `NoMemory` may come at any
/// read. Each read but the last keeps at least one byte, so there are at most `limit + 1` reads.
pub fn read_all<S: Source>(
    alloc: Global,
    source: &mut S,
    limit: usize,
) -> Result<Vec<u8>, ReadAllError>
    requires { limit < 2 ^ 32 }
    ensures whole { IfOk result (λ bytes.
        Drained (S.left source.old) (S.left source.new) bytes.items) }
    ensures short { IfOk result (λ bytes. length bytes.items ≤ limit) }

    ensures long { result ≡ Err ReadAllError.TooLong → HasMore (S.left source.old) limit }
    ensures given { Gave (S.left source.old) (S.left source.new) (λ bytes.
        (result ≡ Err ReadAllError.TooLong) ↔ (limit < length bytes)) }

    ensures fault { result ≡ Err ReadAllError.ReadFault
        → Rose (S.faults source.old) (S.faults source.new) }
    ensures later { S.faults source.old ≤ S.faults source.new }
{
    let mut bytes = Vec::new(alloc);
    let mut buf = [0u8; PIECE];
    loop {
        let Ok(count) = source.read(&mut buf) else {
            return Err(ReadAllError::ReadFault);
        };
        if count == 0 {
            return Ok(bytes);
        }
        if count > limit - bytes.len() {
            return Err(ReadAllError::TooLong);
        }
        if bytes.extend_from_slice(&buf[..count]).is_err() {
            return Err(ReadAllError::NoMemory);
        }
    }
}

/// Writes all of the bytes, in as many writes as the sink needs. For no bytes it makes none, so that
/// is done even over a sink that always fails.
pub fn write_whole<K: Sink>(sink: &mut K, bytes: &[u8]) -> Result<(), WriteFault>
    ensures whole { OnOk result (Appends (K.taken sink.old) (K.taken sink.new) bytes.now) }
    ensures front { OnErr result (AppendsFront (K.taken sink.old) (K.taken sink.new) bytes.now) }
    ensures fault { OnErr result (Rose (K.faults sink.old) (K.faults sink.new)) }
    ensures later { K.faults sink.old ≤ K.faults sink.new }
    ensures empty { bytes.now ≡ [] → (sink.new ≡ sink.old) × IsOk result }
{
    let mut done = 0;
    while done < bytes.len() {
        match sink.write(&bytes[done..]) {
            Ok(count) => done += count,
            Err(_) => return Err(WriteFault),
        }
    }
    Ok(())
}
