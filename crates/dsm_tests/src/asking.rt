// What the top call reads and writes, over sources and sinks in memory.
ghost use Rattle.std.specs.Prelude.{◌<◌};

use dsm_core::ran::Ran;
use dsm_entry::entry::Entry;
use dsm_entry::trace::Trace;
use dsm_io::{MemSink, MemSource};
use dsm_top::planning::needs_threads;
use dsm_top::top::{Done, still};
use std::alloc::Global;
use std::process::Abort;
use std::test::Fail;

pub(crate) const CHECK: &[&str] = &["check"];

pub(crate) const LIST: &[&str] = &["list"];

pub(crate) const SIM: &[&str] = &["sim", "1x1"];

/// Words, text, status, answer; of a report all that stands before its counts.
pub(crate) type Row = (&'static [&'static str], &'static [u8], u8, &'static str);

/// These words as the call takes them.
pub(crate) fn line(alloc: Global, words: &[&str]) -> Result<Vec<String>, Fail> {
    let mut line = Vec::new(alloc);
    for word in words {
        line.push(String::from_str(alloc, word)?)?;
    }
    Ok(line)
}

/// A sink in memory, which fails at these calls and takes so many bytes a write.
pub(crate) fn sink(alloc: Global, chunk: usize, fail: &[u64]) -> Result<MemSink, Fail>
    requires { 0 < chunk }
{
    match MemSink::new(alloc, 200_000, chunk, fail.to_vec(alloc)?) {
        Ok(sink) => Ok(sink),
        Err(_) => Err(Fail::from("no memory for the sink")),
    }
}

/// How the top call ended, for words that ask for no threads.
fn called(
    alloc: Global,
    line: &[String],
    from: &mut MemSource,
    to: &mut MemSink,
) -> Result<Done, Fail> {
    if needs_threads(line) {
        return Err("these words ask for threads".into());
    }
    Ok(still(alloc, line, from, to))
}

/// How the top call ended and the bytes written, for words that ask for no threads, a source that fails at these reads and gives so many bytes a
/// read, and a sink that fails at these calls and takes so many bytes a write.
pub(crate) fn asked(
    alloc: Global,
    words: &[&str],
    text: &[u8],
    source: (usize, &[u64]),
    sink: (usize, &[u64]),
) -> Result<(Done, Vec<u8>), Fail>
    requires source { 0 < source.0 }
    requires sink { 0 < sink.0 }
{
    let line = line(alloc, words)?;
    let mut from = MemSource::new(text.to_vec(alloc)?, source.0, source.1.to_vec(alloc)?);
    let mut to = self::sink(alloc, sink.0, sink.1)?;
    let done = called(alloc, line.as_slice(), &mut from, &mut to)?;
    Ok((done, to.bytes().to_vec(alloc)?))
}

/// The status and the bytes written.
pub(crate) fn answer(
    alloc: Global,
    words: &[&str],
    text: &[u8],
    source: (usize, &[u64]),
    sink: (usize, &[u64]),
) -> Result<(u8, Vec<u8>), Fail>
    requires source { 0 < source.0 }
    requires sink { 0 < sink.0 }
{
    let (done, written) = asked(alloc, words, text, source, sink)?;
    Ok((done.status, written))
}

/// What stands before the counts of a report, words that race included, and all of another answer.
pub(crate) fn uncounted(written: &[u8]) -> &[u8] {
    for i in 0..written.len() {
        if written[i..].starts_with(b"count ") {
            return &written[..i];
        }
    }
    written
}

/// The lines of a report for words that race, which stand before its counts.
pub(crate) fn race_lines(written: &[u8]) -> &[u8] {
    let written = uncounted(written);
    for i in 0..written.len() {
        if written[i..].starts_with(b"raced ") {
            return &written[i..];
        }
    }
    &[]
}

/// Whether the answer to these words and this text is that, with that status, but for the counts of a report.
pub(crate) fn answers(
    alloc: Global,
    words: &[&str],
    text: &[u8],
    status: u8,
    wanted: &str,
) -> Result<bool, Fail> {
    let (got, written) = answer(alloc, words, text, (4096, &[]), (4096, &[]))?;
    Ok(got == status && uncounted(&written) == wanted.as_bytes())
}

/// What a run of this program leaves.
pub(crate) fn left(alloc: Global, words: &[&str], text: &[u8]) -> Result<Ran, Fail> {
    let (done, _) = asked(alloc, words, text, (4096, &[]), (4096, &[]))?;
    Ok(done.ran.ok_or("no run")?)
}

/// Each row of the table is answered as it says.
pub(crate) fn all_answer(rt: &(impl Abort + AllocGlobal), table: &[Row]) -> Result<(), Fail> {
    for (i, (words, text, status, wanted)) in table.iter().enumerate() {
        assert!(rt;
            answers(rt.alloc(), words, text, *status, wanted)?,
            "row {i}: {wanted}"
        );
    }
    Ok(())
}

/// The first lines of a report: the cluster, and that so many processors halted.
pub(crate) fn halted(alloc: Global, title: &str, procs: u32) -> Result<Vec<u8>, Fail> {
    let mut text = title.as_bytes().to_vec(alloc)?;
    for p in 0..procs {
        text.extend_from_slice(format!(in alloc; "end {p} halted\n")?.as_bytes())?;
    }
    Ok(text)
}

/// What a processor printed.
pub(crate) fn printed(alloc: Global, trace: &Trace) -> Result<Vec<u64>, Fail> {
    let mut outs = Vec::new(alloc);
    for i in 0..trace.len() {
        if let Some(Entry::Out { v }) = trace.get(i) {
            outs.push(v)?;
        }
    }
    Ok(outs)
}
