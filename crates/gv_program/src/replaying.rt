//! `vmbind replay`: replays a driver's log as report, script or picture.
ghost use Rattle.gv_program.specs.Status.{IsStatus};

use crate::fault::{ProgramFault, print_unless_closed};
use crate::files::{address, opened};
use crate::log_drawing::draw_log;
use crate::progress::ProgressReporter;
use crate::status::DONE;
use crate::words::{CompareWords, ReplayWords};
use gv_draw::Options;
use gv_replay::{FlagBits, Form, Format, ReplayFault, Sizes, Terms, measure, replay as play};
use gv_text::{MemorySource, Pipe, ScriptFault, Sink, Source};
use std::alloc::Global;
use std::rt::{Clock, Files};

impl From<ReplayFault> for ProgramFault {
    fn from(fault: ReplayFault) -> ProgramFault {
        match fault {
            ReplayFault::NoLine => ProgramFault::NoLine,
            ReplayFault::NoSpace => ProgramFault::NoSpace,
            ReplayFault::ManySpaces => ProgramFault::ManySpaces,
            ReplayFault::ReadFault => ProgramFault::Script(ScriptFault::ReadFault),
            ReplayFault::WriteFault => ProgramFault::Script(ScriptFault::WriteFault),
            ReplayFault::OutOfMemory => ProgramFault::Script(ScriptFault::OutOfMemory),
        }
    }
}

/// Replays a log, and gives the exit status.
pub fn replay<R: AllocGlobal + Eprint + Clock, T: Files, S: Source, K: Sink + Pipe>(
    rt: &R,
    files: &T,
    asked: ReplayWords<'_>,
    is_terminal: bool,
    reader: &mut S,
    writer: &mut K,
) -> u8
    ensures { IsStatus result }
{
    let reporter = ProgressReporter::new(rt, is_terminal && !asked.quiet);
    match replayed(rt.alloc(), files, &reporter, &asked, reader, writer) {
        Ok(()) => DONE,
        Err(fault) => print_unless_closed(rt, writer, fault),
    }
}

/// The log of a file, or of standard input.
fn replayed<R: Eprint + Clock, T: Files, S: Source, K: Sink>(
    alloc: Global,
    files: &T,
    reporter: &ProgressReporter<'_, R>,
    asked: &ReplayWords<'_>,
    reader: &mut S,
    writer: &mut K,
) -> Result<(), ProgramFault> {
    let format = format_of(asked.format)?;
    let log = Asked {
        format,
        flag_bits: flags_of(asked.flags)?,
        pid: asked.pid,
        space: kept(alloc, asked.space)?,
        addresses: addresses_of(alloc, asked)?,
        all: asked.all,
        form: form_of(asked)?,
    };
    let telling = Telling {
        alloc,
        reporter,
        picture: picture_of(asked, format, log.addresses.as_slice()),
    };
    match asked.file {
        Some(path) => telling.tell_file(files, path, &log.terms(), writer),
        None => telling.tell_input(reader, &log.terms(), writer),
    }
}

/// Writes the mappings at the end of a file's log.
pub fn list_log<R: Eprint + Clock, T: Files, K: Sink>(
    alloc: Global,
    files: &T,
    reporter: &ProgressReporter<'_, R>,
    asked: &CompareWords<'_>,
    format: &str,
    writer: &mut K,
) -> Result<(), ProgramFault> {
    let log = Asked {
        format: format_of(format)?,
        flag_bits: flags_of(asked.flags)?,
        pid: asked.pid,
        space: kept(alloc, asked.space)?,
        addresses: Vec::new(alloc),
        all: false,
        form: Form::Mappings,
    };
    let telling = Telling {
        alloc,
        reporter,
        picture: None,
    };
    telling.tell_file(files, asked.second, &log.terms(), writer)
}

/// What is asked of a log, apart from the words that ask it.
#[derive(Drop)]
struct Asked {
    format: Format,
    flag_bits: FlagBits,
    pid: Option<u64>,
    space: Option<String>,
    addresses: Vec<u64>,
    all: bool,
    form: Form,
}

impl Asked {
    fn terms(&self) -> Terms<'_> {
        let space = match &self.space {
            Some(name) => Some(name.as_str()),
            None => None,
        };
        Terms {
            format: self.format,
            flag_bits: self.flag_bits,
            pid: self.pid,
            space,
            addresses: self.addresses.as_slice(),
            all: self.all,
            form: self.form,
            sizes: None,
        }
    }
}

/// A name by itself.
fn kept(alloc: Global, name: Option<&str>) -> Result<Option<String>, ProgramFault> {
    match name {
        Some(name) => Ok(Some(String::from_str(alloc, name)?)),
        None => Ok(None),
    }
}

/// How a log is told: as a picture, or in the form that its terms say, and before whom.
#[derive(Drop)]
struct Telling<'a, 'r, R> {
    alloc: Global,
    reporter: &'a ProgressReporter<'r, R>,
    picture: Option<Options>,
}

impl<'a, 'r, R: Eprint + Clock> Telling<'a, 'r, R> {
    /// Tells the log of a file, which is read twice where its lines don't tell sizes.
    fn tell_file<T: Files, K: Sink>(
        &self,
        files: &T,
        path: &str,
        terms: &Terms<'_>,
        writer: &mut K,
    ) -> Result<(), ProgramFault> {
        let mut log = opened(files, path)?;
        let of = self.reporter.len_if_shown(files, path);
        if !terms.format.wants_sizes() {
            return self.tell(&mut log, of, writer, terms);
        }
        let sizes = self.measured(&mut log, of, terms)?;
        let mut again = opened(files, path)?;
        let sized = terms.sized(&sizes);
        self.tell(&mut again, of, writer, &sized)
    }

    /// Tells the log of standard input, which is kept where it has to be read twice.
    fn tell_input<S: Source, K: Sink>(
        &self,
        reader: &mut S,
        terms: &Terms<'_>,
        writer: &mut K,
    ) -> Result<(), ProgramFault> {
        if !terms.format.wants_sizes() {
            return self.tell(reader, None, writer, terms);
        }
        let log = self.reporter.read_all(self.alloc, reader, None)?;
        let of = Some(log.len() as u64);
        let sizes = self.measured(&mut MemorySource::new(&log), of, terms)?;
        let mut again = MemorySource::new(&log);
        let sized = terms.sized(&sizes);
        self.tell(&mut again, of, writer, &sized)
    }

    /// How large the objects of a log are.
    fn measured<S: Source>(
        &self,
        log: &mut S,
        of: Option<u64>,
        terms: &Terms<'_>,
    ) -> Result<Sizes, ProgramFault> {
        let mut reported_source = self.reporter.reported(log, of);
        let sizes = measure(self.alloc, &mut reported_source, terms);
        reported_source.finish();
        Ok(sizes?)
    }

    /// Draws a log, or writes it in its form.
    fn tell<S: Source, K: Sink>(
        &self,
        log: &mut S,
        of: Option<u64>,
        writer: &mut K,
        terms: &Terms<'_>,
    ) -> Result<(), ProgramFault> {
        let mut reported_source = self.reporter.reported(log, of);
        let told = match &self.picture {
            Some(options) => draw_log(self.alloc, &mut reported_source, writer, terms, options),
            None => play(self.alloc, &mut reported_source, writer, terms),
        };
        reported_source.finish();
        Ok(told?)
    }
}

/// In which form a log is told, if it isn't drawn. No two forms go together.
fn form_of(asked: &ReplayWords<'_>) -> Result<Form, ProgramFault> {
    match (asked.json, asked.script, asked.draw) {
        (false, false, false) => Ok(Form::Report),
        (false, false, true) => Ok(Form::Watched),
        (true, false, false) => Ok(Form::Json),
        (false, true, false) => Ok(Form::Script),
        _ => Err(ProgramFault::TwoForms),
    }
}

/// The picture that is asked, around the first address if there is one.
fn picture_of(asked: &ReplayWords<'_>, format: Format, addresses: &[u64]) -> Option<Options> {
    if !asked.draw {
        return None;
    }
    Some(Options {
        at: addresses.first().map(|addr| format.address(*addr)),
        width: asked.width,
    })
}

/// The addresses whose past is asked.
fn addresses_of(alloc: Global, asked: &ReplayWords<'_>) -> Result<Vec<u64>, ProgramFault> {
    let mut addresses = Vec::new(alloc);
    for word in asked.at.iter() {
        let addr = address(word)?;
        if addresses.push(addr).is_err() {
            return Err(ProgramFault::Script(ScriptFault::OutOfMemory));
        }
    }
    Ok(addresses)
}

fn format_of(word: &str) -> Result<Format, ProgramFault> {
    match word {
        "radv" => Ok(Format::Radv),
        "amdgpu" => Ok(Format::Amdgpu),
        "xe" => Ok(Format::Xe),
        "i915" => Ok(Format::I915),
        "gpuvas" => Ok(Format::Gpuvas),
        _ => Err(ProgramFault::NoFormat),
    }
}

fn flags_of(word: Option<&str>) -> Result<FlagBits, ProgramFault> {
    match word {
        None => Ok(FlagBits::Unsaid),
        Some("entry") => Ok(FlagBits::Entry),
        Some("call") => Ok(FlagBits::Call),
        Some(_) => Err(ProgramFault::NoFlags),
    }
}
