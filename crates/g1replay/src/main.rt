//! Replays a trace from standard input to standard output (docs/traces.md).
#![tactic(auto)]

use g1_replay::{End, LineFault, Mode, Options, crew, race, read_options, run};
use std::io::{BufReader, BufWriter, Write};
use std::process::ExitCode;
use std::sync::Wait;
use std::thread::Threads;
use std::{env, io};

fn main(rt: HostRuntime) -> ExitCode {
    match options(&rt) {
        Ok((mode, options)) => ExitCode::from(replay(&rt, mode, &options).status()),
        Err(fault) => {
            let _ = rt.eprint(fault.text.as_str());
            ExitCode::from(1)
        }
    }
}

// What the command line means.
fn options(rt: &HostRuntime) -> Result<(Mode, Options), LineFault> {
    let alloc = rt.alloc();
    let texts = match words(rt) {
        Ok(texts) => texts,
        Err(error) => return Err(not_text(rt, &error)),
    };
    match texts
        .iter()
        .map(|text| text.as_str())
        .collect::<Vec<&str>>(alloc)
    {
        Ok(words) => read_options(alloc, words.as_slice()),
        Err(_) => Err(LineFault {
            text: String::new(alloc),
        }),
    }
}

// The words of the command line.
fn words(rt: &HostRuntime) -> io::Result<Vec<String>> {
    Ok(env::args(rt)?.collect(rt.alloc())?)
}

// Why the words couldn't be had.
fn not_text(rt: &HostRuntime, error: &io::Error) -> LineFault {
    let alloc = rt.alloc();
    let text = match error.kind() {
        io::ErrorKind::InvalidData => "error: a word of the command line is not UTF-8\n",
        _ => "",
    };
    match String::from_str(alloc, text) {
        Ok(text) => LineFault { text },
        Err(_) => LineFault {
            text: String::new(alloc),
        },
    }
}

// Replays what standard input has.
fn replay<R: Threads + Wait + Sync + Input + Print + AllocGlobal>(
    rt: &R,
    mode: Mode,
    options: &Options,
) -> End {
    let alloc = rt.alloc();
    let Ok(mut input) = BufReader::new(alloc, rt.reader()) else {
        return no_memory(rt);
    };
    let Ok(mut output) = BufWriter::new(alloc, io::writer(rt)) else {
        return no_memory(rt);
    };
    let end = match mode {
        Mode::Run => run(rt, alloc, &mut input, &mut output, options),
        Mode::Crew => crew(rt, alloc, &mut input, &mut output, options),
        Mode::Race => race(rt, alloc, &mut input, &mut output, options),
    };
    written_out(end, output)
}

// The end, once all that was written has left the buffer. After a failed write nothing more is
// written: the rest is given up.
fn written_out<W: Write + Drop>(end: End, mut output: BufWriter<W>) -> End {
    if end != End::WriteFailed && output.flush().is_ok() {
        return end;
    }
    let _ = output.into_parts();
    End::WriteFailed
}

// No buffer could be made.
fn no_memory(rt: &impl Print) -> End {
    match println!(rt; "no memory") {
        Ok(()) => End::Stopped,
        Err(_) => End::WriteFailed,
    }
}
