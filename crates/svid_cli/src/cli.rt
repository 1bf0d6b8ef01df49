//! The command line: which command to run, and on which files.

use crate::commands::{command, help_of};
use crate::failure::{Failure, tool_input};
use crate::input::{Input, Stream};
use crate::kept::Kept;
use crate::mistake::one_line;
use crate::refusals::{JSON, LINES};
use crate::sentence::Words;
use crate::trust_domain::bundles_of;
use crate::words::{bytes_of_text, words};
use clap::error::ErrorKind;
use clap::{ArgMatches, Error};
use hex::FromHex;
use std::alloc::Global;
use std::env::Env;
use std::fs::File;
use std::io::{BufWriter, Cursor, Write};
use std::{io, str};
use svid_documents::is_unnamed;
use svid_keys::BundleFault;
use svid_lines::{CheckSetting, run_candidates, run_check, run_id};
use svid_share::{ToolFault, read_input, run_answer, run_merge, run_report, run_summary};
use svid_wire::Counted;

// Writes a mistake on the command line as one line on standard error.
fn mistake(rt: &HostRuntime, error: &Error, words: &[String]) -> Result<u8, Failure> {
    let text = error.to_string(rt.alloc())?;
    let mut line = one_line(rt.alloc(), text.as_str(), help_of(words))?;
    line.push(b'\n')?;
    match rt.stderr().write_all(&line) {
        Ok(()) => Ok(2),
        Err(_) => Err(Failure::from(ToolFault::Write)),
    }
}

// Answers a call for help on standard output.
fn usage(rt: &HostRuntime, error: &Error, words: &[String]) -> Result<u8, Failure> {
    if error.kind() == ErrorKind::OutOfMemory {
        return Err(Failure::from(ToolFault::OutOfMemory));
    }
    if error.use_stderr() {
        return mistake(rt, error, words);
    }
    match error.print(rt) {
        Ok(()) => Ok(0),
        Err(_) => Err(Failure::from(ToolFault::Write)),
    }
}

// 0 where the answer is yes, 1 where something was refused.
fn status_of(accepted: bool) -> u8 {
    if accepted { 0 } else { 1 }
}

// A file that gets none of the numbers 0, 1 and 2, even where a standard stream is closed: the number of a copy is always
// greater, and the first one is closed again. So a closed stream stays closed.
fn open_beyond_streams(rt: &HostRuntime, path: &str) -> io::Result<File> {
    File::open(rt, path)?.try_clone()
}

// The file of this name. A name that is not UTF-8 cannot be opened.
fn open<'a>(rt: &'a HostRuntime, name: &str) -> Result<Input<'a>, Failure> {
    let bytes = bytes_of_text(rt.alloc(), name)?;
    let file = match str::from_utf8(&bytes) {
        Ok(path) => open_beyond_streams(rt, path).ok(),
        Err(_) => None,
    };
    match file {
        Some(file) => Ok(Input::new(rt, Stream::File(file))),
        None => Err(Failure::CannotOpen(bytes)),
    }
}

// The file of this name, for the record.
fn open_kept<'a>(rt: &'a HostRuntime, name: &str) -> Result<Kept<'a>, Failure> {
    let bytes = bytes_of_text(rt.alloc(), name)?;
    let Ok(path) = str::from_utf8(&bytes) else {
        return Err(Failure::CannotOpen(bytes));
    };
    match Kept::open(rt, path) {
        Ok(kept) => Ok(kept),
        Err(error) if error.kind() == io::ErrorKind::OutOfMemory => {
            Err(Failure::from(ToolFault::OutOfMemory))
        }
        Err(_) => Err(Failure::CannotOpen(bytes)),
    }
}

// The validator ID in a word: 32 hexadecimal digits.
fn validator_id_of(alloc: Global, word: &str) -> Result<[u8; 16], Failure> {
    let digits = bytes_of_text(alloc, word)?;
    match <[u8; 16]>::from_hex(digits.as_slice()) {
        Ok(validator_id) => Ok(validator_id),
        Err(_) => Err(Failure::BadValidatorId),
    }
}

// The audiences in these words. One that is not UTF-8 is no audience of any token, and is left out.
fn audiences(alloc: Global, words: &[&str]) -> Result<Vec<String>, Failure> {
    let mut own = Vec::new(alloc);
    for word in words {
        if let Ok(name) = String::from_utf8(bytes_of_text(alloc, word)?) {
            own.push(name)?;
        }
    }
    Ok(own)
}

fn standard_input(rt: &HostRuntime) -> Input<'_> {
    Input::new(rt, Stream::Stdin(rt.stdin()))
}

// Why an engine gave up that read these inputs. The first of them has that number.
fn failure_of(fault: ToolFault, inputs: &[Input<'_>], number: usize) -> Failure {
    let first = match tool_input(fault).checked_sub(number) {
        Some(index) => match inputs.get(index) {
            Some(input) => input.first(),
            None => None,
        },
        None => None,
    };
    Failure::Tool { fault, first }
}

// The files of these names in their order.
fn open_each<'a>(rt: &'a HostRuntime, names: &[&str]) -> Result<Vec<Input<'a>>, Failure> {
    let mut inputs = Vec::new(rt.alloc());
    for name in names {
        inputs.push(open(rt, name)?)?;
    }
    Ok(inputs)
}

// The files of these names in their order, or standard input where there is none.
fn open_all<'a>(rt: &'a HostRuntime, names: &[&str]) -> Result<Vec<Input<'a>>, Failure> {
    let mut inputs = open_each(rt, names)?;
    if names.is_empty() {
        inputs.push(standard_input(rt))?;
    }
    Ok(inputs)
}

// The trust domain name in a word. One that is not UTF-8 is none.
fn domain_of(alloc: Global, word: &str) -> Result<String, Failure> {
    match String::from_utf8(bytes_of_text(alloc, word)?) {
        Ok(domain) => Ok(domain),
        Err(_) => Err(Failure::from(ToolFault::Bundles(BundleFault::Domain(0)))),
    }
}

// The file of trust bundles.
fn open_bundles<'a>(rt: &'a HostRuntime, matches: &ArgMatches<'_>) -> Result<Input<'a>, Failure> {
    open(rt, matches.get_str("bundles").unwrap_or(""))
}

// The trust bundles: those of the file or, where a trust domain is named, the bundle of this one, which the file has. This reads
// the file, so all others are open by then.
fn trusted<'a>(
    rt: &'a HostRuntime,
    matches: &ArgMatches<'_>,
    mut file: Input<'a>,
) -> Result<Input<'a>, Failure> {
    let Some(word) = matches.get_str("trust-domain") else {
        let text = read_input(rt.alloc(), &mut file, 1)?;
        return Ok(Input::new(rt, Stream::Made(Cursor::new(text))));
    };
    let domain = domain_of(rt.alloc(), word)?;
    let text = read_input(rt.alloc(), &mut file, 1)?;
    match bundles_of(rt.alloc(), domain.as_str(), &text) {
        Ok(bundles) => Ok(Input::new(rt, Stream::Made(Cursor::new(bundles)))),
        Err(fault) => Err(Failure::from(ToolFault::Bundles(fault))),
    }
}

// Why an engine gave up that read these bundles: they may be the bundle of one trust domain, whose name is missing.
fn refused(rt: &HostRuntime, bundles: &Input<'_>, failure: Failure) -> Failure {
    let Failure::Tool {
        fault: ToolFault::Bundles(BundleFault::Domain(_) | BundleFault::Keys(_)),
        ..
    } = &failure
    else {
        return failure;
    };
    match is_unnamed(rt.alloc(), bundles.made()) {
        Ok(true) => Failure::Unnamed,
        Ok(false) => failure,
        Err(error) => Failure::from(error),
    }
}

fn id(rt: &HostRuntime, matches: &ArgMatches<'_>) -> Result<u8, Failure> {
    let text = bytes_of_text(rt.alloc(), matches.get_str("text").unwrap_or(""))?;
    let mut out = Counted::new(io::writer(rt));
    Ok(status_of(run_id(rt.alloc(), &text, &mut out)?))
}

fn report(rt: &HostRuntime, matches: &ArgMatches<'_>) -> Result<u8, Failure> {
    let now = matches.get_one::<u64>("now");
    let mut inputs = open_all(rt, matches.get_strs("file").unwrap_or(&[]))?;
    let mut out = Counted::new(io::writer(rt));
    match run_report(rt.alloc(), inputs.as_mut_slice(), now, &mut out) {
        Ok(()) => Ok(0),
        Err(fault) => Err(failure_of(fault, inputs.as_slice(), 1)),
    }
}

fn merge(rt: &HostRuntime, matches: &ArgMatches<'_>) -> Result<u8, Failure> {
    let now = matches.get_one::<u64>("now");
    let mut inputs = open_all(rt, matches.get_strs("file").unwrap_or(&[]))?;
    let mut out = Counted::new(io::writer(rt));
    match run_merge(rt.alloc(), inputs.as_mut_slice(), now, &mut out) {
        Ok(()) => Ok(0),
        Err(fault) => Err(failure_of(fault, inputs.as_slice(), 1)),
    }
}

fn summary(rt: &HostRuntime, matches: &ArgMatches<'_>) -> Result<u8, Failure> {
    let mut inputs = open_all(rt, matches.get_strs("file").unwrap_or(&[]))?;
    // (a summary is put digest by digest)
    let mut writer = match BufWriter::new(rt.alloc(), io::writer(rt)) {
        Ok(writer) => writer,
        Err(_) => return Err(Failure::from(ToolFault::OutOfMemory)),
    };
    let mut out = Counted::new(&mut writer);
    if let Err(fault) = run_summary(rt.alloc(), inputs.as_mut_slice(), &mut out) {
        return Err(failure_of(fault, inputs.as_slice(), 1));
    }
    match writer.flush() {
        Ok(()) => Ok(0),
        Err(_) => Err(Failure::from(ToolFault::Write)),
    }
}

fn answer(rt: &HostRuntime, matches: &ArgMatches<'_>) -> Result<u8, Failure> {
    let mut asked = open(rt, matches.get_str("summary").unwrap_or(""))?;
    let mut inputs = open_all(rt, matches.get_strs("file").unwrap_or(&[]))?;
    let mut out = Counted::new(io::writer(rt));
    match run_answer(rt.alloc(), &mut asked, inputs.as_mut_slice(), &mut out) {
        Ok(()) => Ok(0),
        Err(fault) if tool_input(fault) == 1 => Err(Failure::Tool {
            fault,
            first: asked.first(),
        }),
        Err(fault) => Err(failure_of(fault, inputs.as_slice(), 2)),
    }
}

fn candidates(rt: &HostRuntime, matches: &ArgMatches<'_>) -> Result<u8, Failure> {
    let file = open_bundles(rt, matches)?;
    let mut bundles = trusted(rt, matches, file)?;
    let mut tokens = standard_input(rt);
    let mut out = Counted::new(io::writer(rt));
    match run_candidates(rt.alloc(), &mut bundles, &mut tokens, &mut out) {
        Ok(accepted) => Ok(status_of(accepted)),
        Err(fault) => Err(refused(rt, &bundles, Failure::from(fault))),
    }
}

fn refusals(rt: &HostRuntime, matches: &ArgMatches<'_>) -> Result<u8, Failure> {
    let lines: &[&str] = if matches.get_flag("json") {
        &JSON
    } else {
        &LINES
    };
    let mut text = Vec::new(rt.alloc());
    for line in lines {
        text.extend_from_slice(line.as_bytes())?;
        text.push(b'\n')?;
    }
    match io::writer(rt).write_all(&text) {
        Ok(()) => Ok(0),
        Err(_) => Err(Failure::from(ToolFault::Write)),
    }
}

fn check_setting(rt: &HostRuntime, matches: &ArgMatches<'_>) -> Result<CheckSetting, Failure> {
    let validator_id = validator_id_of(rt.alloc(), matches.get_str("validator-id").unwrap_or(""))?;
    let own = audiences(rt.alloc(), matches.get_strs("audience").unwrap_or(&[]))?;
    let now = matches.get_one::<u64>("now").unwrap_or(0);
    let longest = matches.get_one::<u64>("longest");
    Ok(CheckSetting {
        own,
        validator_id,
        now,
        longest,
    })
}

// Leaves the file for the record as it was.
fn discard(kept: &mut Option<Kept<'_>>) {
    if let Some(kept) = kept {
        kept.discard();
    }
}

fn check(rt: &HostRuntime, matches: &ArgMatches<'_>) -> Result<u8, Failure> {
    let given = check_setting(rt, matches)?;
    let file = open_bundles(rt, matches)?;
    let mut table = open(rt, matches.get_str("table").unwrap_or(""))?;
    let mut tokens = standard_input(rt);
    let mut earlier = open_each(rt, matches.get_strs("record").unwrap_or(&[]))?;
    let mut kept = match matches.get_str("out") {
        Some(name) => Some(open_kept(rt, name)?),
        None => None,
    };
    let mut bundles = match trusted(rt, matches, file) {
        Ok(bundles) => bundles,
        Err(failure) => {
            discard(&mut kept);
            return Err(failure);
        }
    };
    let mut out = Counted::new(io::writer(rt));
    let answer = run_check(
        rt.alloc(),
        given,
        &mut bundles,
        &mut table,
        &mut tokens,
        earlier.as_mut_slice(),
        &mut kept,
        &mut out,
    );
    match answer {
        Ok(accepted) => Ok(status_of(accepted)),
        Err(fault) => {
            discard(&mut kept);
            let failure = failure_of(fault, earlier.as_slice(), 4);
            Err(refused(rt, &bundles, failure))
        }
    }
}

fn dispatch(rt: &HostRuntime, matches: &ArgMatches<'_>) -> Result<u8, Failure> {
    match matches.subcommand() {
        Some(("check", inner)) => check(rt, inner),
        Some(("id", inner)) => id(rt, inner),
        Some(("report", inner)) => report(rt, inner),
        Some(("merge", inner)) => merge(rt, inner),
        Some(("summary", inner)) => summary(rt, inner),
        Some(("answer", inner)) => answer(rt, inner),
        Some(("candidates", inner)) => candidates(rt, inner),
        Some(("refusals", inner)) => refusals(rt, inner),
        _ => Ok(2),
    }
}

// The file with this number among those on the command line. The first one has the number `first`.
fn named<'a>(names: Option<&[&'a str]>, number: usize, first: usize) -> Option<&'a str> {
    let index = number.checked_sub(first)?;
    names?.get(index).copied()
}

// The name of the file that is the input with this number, or `None` where that is standard input.
fn name_of_input<'a>(matches: &ArgMatches<'a>, number: usize) -> Option<&'a str> {
    let (command, inner) = matches.subcommand()?;
    match (command, number) {
        ("check" | "candidates", 1) => inner.get_str("bundles"),
        ("check", 2) => inner.get_str("table"),
        ("check", _) => named(inner.get_strs("record"), number, 4),
        ("answer", 1) => inner.get_str("summary"),
        ("answer", _) => named(inner.get_strs("file"), number, 2),
        _ => named(inner.get_strs("file"), number, 1),
    }
}

// The name of the input with this number in messages: a file by its name, unless memory is refused for that.
fn input_text(alloc: Global, matches: &ArgMatches<'_>, number: usize) -> Option<String> {
    let name = name_of_input(matches, number).unwrap_or("standard input");
    String::from_utf8(bytes_of_text(alloc, name).ok()?).ok()
}

// Writes the line of a failure on standard error, and its sentence where one was requested. (There is no way to report that
// standard error can't be written.)
fn tell(rt: &HostRuntime, failure: &Failure, is_explained: bool, input: Option<&str>) {
    let words = if is_explained {
        Some(Words {
            sentence: failure.sentence(),
            input: input.unwrap_or("An input"),
        })
    } else {
        None
    };
    let _ = failure.tell(words, &mut rt.stderr());
}

// Reports a failure before a command begins, and returns the exit status.
fn failed(rt: &HostRuntime, failure: Failure, is_explained: bool) -> u8 {
    tell(rt, &failure, is_explained, None);
    failure.status()
}

// Reports the failure of the command, if it failed, and returns the exit status.
fn answered(rt: &HostRuntime, matches: &ArgMatches<'_>, is_explained: bool) -> u8 {
    match dispatch(rt, matches) {
        Ok(status) => status,
        Err(failure) => {
            let input = if is_explained {
                input_text(rt.alloc(), matches, failure.input())
            } else {
                None
            };
            let input = input.as_ref().map(|text| text.as_str());
            tell(rt, &failure, is_explained, input);
            failure.status()
        }
    }
}

// Whether the environment requests sentences: SVID_EXPLAIN is 1.
fn is_asked_by<R: Env>(rt: &R) -> bool {
    let mut room = [0; 1];
    match rt.var("SVID_EXPLAIN", &mut room) {
        Ok(1) => room[0] == b'1',
        _ => false,
    }
}

// Whether the command line requests them. (This looks at the words itself: clap returns no matches when help can't be written.)
fn is_asked_in(words: &[String]) -> bool {
    for word in words {
        match word.as_str() {
            "--" => return false,
            "--explain" => return true,
            _ => {}
        }
    }
    false
}

/// Runs the command on the command line, and returns the exit status.
pub fn run(rt: &HostRuntime) -> u8 {
    let alloc = rt.alloc();
    let is_asked = is_asked_by(rt);
    let words = match words(rt, alloc) {
        Ok(words) => words,
        Err(error) => return failed(rt, Failure::from(error), is_asked),
    };
    let is_asked = is_asked || is_asked_in(words.as_slice());
    let command = match command(alloc) {
        Ok(command) => command,
        Err(error) => return failed(rt, Failure::from(error), is_asked),
    };
    match command.try_get_matches_from(words.as_slice()) {
        Ok(matches) => answered(rt, &matches, is_asked),
        Err(error) => match usage(rt, &error, words.as_slice()) {
            Ok(status) => status,
            Err(failure) => failed(rt, failure, is_asked),
        },
    }
}
