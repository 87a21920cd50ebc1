//! The program over a runtime.

use crate::args::{Options, Task, command};
use crate::codec::{Codec, Target};
use crate::decode::Decoder;
use crate::dump::tree_of;
use crate::encode::Encoder;
use crate::forms::{FormError, FormProblem, form_of, values_of, written_as};
use crate::from_json::encode_json;
use crate::modules::Modules;
use crate::places::line_and_column;
use crate::progress::Progress;
use crate::show::words_of_type;
use crate::sizes::list_with_sizes;
use crate::stop::Stop;
use crate::tables::{is_same_source, source_of};
use crate::types::{list_of, node_of};
use asn1_resolve::Schema;
use clap::ArgMatches;
use clap::error::ErrorKind;
use std::alloc::{AllocError, Global};
use std::io::{self, Read, Write};
use std::rt::Runtime;
use std::{env, fs};

/// The name of standard input in messages.
const STANDARD_INPUT: &str = "<stdin>";

/// Runs on the words of the command line. Returns the exit status: 0, 1 if the input is invalid, 2 if
/// the call or a module is invalid.
pub fn run<R: Runtime + AllocGlobal>(rt: &R, progress: Progress) -> u8 {
    match answer(rt, progress) {
        Ok(status) => status,
        Err(stop) => {
            let status = stop.status();
            let _ = rt.eprintln(stop);
            status
        }
    }
}

/// Reads the words, and does what they say. Help has the status 0.
fn answer<R: Runtime + AllocGlobal>(rt: &R, progress: Progress) -> Result<u8, Stop> {
    let alloc = rt.alloc();
    let words = words_of(rt)?;
    match command(alloc)?.try_get_matches_from(words.as_slice()) {
        Ok(matches) => {
            do_task(rt, &matches, progress)?;
            Ok(0)
        }
        Err(error) if error.kind() == ErrorKind::OutOfMemory => Err(Stop::Memory),
        Err(error) => {
            let status = if error.use_stderr() { 2 } else { 0 };
            if error.print(rt).is_err() {
                return Err(Stop::Output);
            }
            Ok(status)
        }
    }
}

/// Returns the words of the command line.
fn words_of<R: Runtime + AllocGlobal>(rt: &R) -> Result<Vec<String>, Stop> {
    let mut words = Vec::new(rt.alloc());
    match env::args(rt) {
        Ok(args) => {
            for word in args {
                words.push(word)?;
            }
            Ok(words)
        }
        Err(error) => Err(of_file(rt.alloc(), "the command line", error)),
    }
}

/// Does what matches say.
fn do_task<R: Runtime + AllocGlobal>(
    rt: &R,
    matches: &ArgMatches<'_>,
    progress: Progress,
) -> Result<(), Stop> {
    let Some((name, matches)) = matches.subcommand() else {
        return Ok(());
    };
    let Some(task) = Task::named(name) else {
        return Ok(());
    };
    let options = Options::of(matches);
    if task == Task::Dump {
        return dump(rt, &options, progress);
    }
    let names = matches.get_strs("modules").unwrap_or(&[]);
    let modules = read_modules(rt, names)?;
    progress.say(rt, "reading modules of", modules.text().len());
    let schema = modules.schema()?;
    match task {
        Task::Decode => decode(rt, &options, &modules, &schema, progress),
        Task::Encode => encode(rt, &options, &modules, &schema, progress),
        Task::Types => {
            let list = if options.has_sizes {
                list_with_sizes(rt.alloc(), &schema)?
            } else {
                list_of(rt.alloc(), &schema)?
            };
            write_whole(rt, list.as_bytes())
        }
        Task::Show => {
            let Target { node, depth, .. } = target_of(rt.alloc(), &options, &schema)?;
            let name = options.type_name;
            let shown = words_of_type(rt.alloc(), &schema, name, node, depth)?;
            write_whole(rt, shown.as_bytes())
        }
        Task::Tables => tables(rt, &options, &modules, &schema),
        Task::Check | Task::Dump => Ok(()),
    }
}

/// Returns why a file was not read.
fn of_file(alloc: Global, name: &str, error: io::Error) -> Stop {
    if error.kind() == io::ErrorKind::OutOfMemory {
        return Stop::Memory;
    }
    Stop::call(format!(in alloc; "{name}: {error}"))
}

/// Reads the files of modules.
fn read_modules<'a, R: Runtime + AllocGlobal>(
    rt: &R,
    names: &[&'a str],
) -> Result<Modules<'a>, Stop> {
    let mut modules = Modules::new(rt.alloc());
    for name in names {
        match fs::read_to_string(rt, *name) {
            Ok(text) => modules.add(*name, text.as_str())?,
            Err(error) => return Err(of_file(rt.alloc(), *name, error)),
        }
    }
    Ok(modules)
}

/// Reads the input whole.
fn read_input<R: Runtime + AllocGlobal>(rt: &R, input: Option<&str>) -> Result<Vec<u8>, Stop> {
    if let Some(name) = input {
        return match fs::read(rt, name) {
            Ok(octets) => Ok(octets),
            Err(error) => Err(of_file(rt.alloc(), name, error)),
        };
    }
    let mut octets = Vec::new(rt.alloc());
    match rt.reader().read_to_end(&mut octets) {
        Ok(_) => Ok(octets),
        Err(error) if error.kind() == io::ErrorKind::OutOfMemory => Err(Stop::Memory),
        Err(error) => Err(Stop::input(format!(in rt.alloc(); "{STANDARD_INPUT}: {error}"))),
    }
}

/// Writes octets to standard output.
fn write_whole<R: Runtime>(rt: &R, octets: &[u8]) -> Result<(), Stop> {
    let mut output = io::writer(rt);
    match output.write_all(octets) {
        Ok(()) => Ok(()),
        Err(_) => Err(Stop::Output),
    }
}

/// Returns the octets of each value of an input.
fn values_in<R: Runtime + AllocGlobal>(
    rt: &R,
    options: &Options<'_>,
) -> Result<Vec<Vec<u8>>, Stop> {
    let input = read_input(rt, options.input)?;
    let form = match options.from {
        Some(form) => form,
        None => form_of(input.as_slice()),
    };
    match values_of(rt.alloc(), form, input.as_slice()) {
        Ok(values) => Ok(values),
        Err(error) if error.problem == FormProblem::Memory => Err(Stop::Memory),
        Err(error) => {
            let name = options.input.unwrap_or(STANDARD_INPUT);
            Err(Stop::input(form_text(rt.alloc(), name, input.as_slice(), error)))
        }
    }
}

/// Returns the text of a fault of an input, with its line and column.
fn form_text(
    alloc: Global,
    name: &str,
    input: &[u8],
    error: FormError,
) -> Result<String, AllocError> {
    let (line, column) = line_and_column(input, error.at);
    let problem = error.problem;
    format!(in alloc; "{name}:{line}:{column}: {problem}")
}

/// Returns the type that the options name, and how a value of it is decoded.
fn target_of(alloc: Global, options: &Options<'_>, schema: &Schema) -> Result<Target, Stop> {
    match node_of(schema, options.type_name) {
        Some(node) => Ok(Target {
            node,
            depth: options.depth,
            is_prefix: options.is_prefix,
        }),
        None => {
            let name = options.type_name;
            Err(Stop::call(format!(in alloc; "the modules have no type `{name}`")))
        }
    }
}

/// Makes what decodes and encodes values of a type.
fn codec_of(
    alloc: Global,
    options: &Options<'_>,
    modules: &Modules<'_>,
    schema: &Schema,
    node: usize,
) -> Result<Codec, Stop> {
    match Codec::new(alloc, schema, node, options.rules) {
        Ok(codec) => Ok(codec),
        Err(error) => Err(modules.of_default(error)),
    }
}

/// Prints the values that the input has.
fn decode<R: Runtime + AllocGlobal>(
    rt: &R,
    options: &Options<'_>,
    modules: &Modules<'_>,
    schema: &Schema,
    progress: Progress,
) -> Result<(), Stop> {
    let alloc = rt.alloc();
    let target = target_of(alloc, options, schema)?;
    let codec = codec_of(alloc, options, modules, schema, target.node)?;
    let values = values_in(rt, options)?;
    let decoder = Decoder {
        alloc,
        schema,
        codec: &codec,
        target,
        parts: options.parts,
        printed: options.printed,
    };
    for (index, value) in values.as_slice().iter().enumerate() {
        progress.say(rt, "decoding", value.len());
        match decoder.text_of(value.as_slice()) {
            Ok(text) => write_whole(rt, text.as_slice())?,
            Err(Stop::Input(text)) if values.len() > 1 => {
                let number = index.saturating_add(1);
                return Err(Stop::input(format!(in alloc; "block {number}: {text}")));
            }
            Err(stop) => return Err(stop),
        }
    }
    Ok(())
}

/// Returns the label of a block of PEM for a type: its name in upper case, without that of its module.
fn label_of(alloc: Global, type_name: &str) -> Result<String, AllocError> {
    let own = match type_name.split_once('.') {
        Some((_, own)) => own,
        None => type_name,
    };
    let mut label = String::new(alloc);
    for character in own.chars() {
        label.push(character.to_ascii_uppercase())?;
    }
    Ok(label)
}

/// Writes the octets that encode the value of the input's JSON.
fn encode<R: Runtime + AllocGlobal>(
    rt: &R,
    options: &Options<'_>,
    modules: &Modules<'_>,
    schema: &Schema,
    progress: Progress,
) -> Result<(), Stop> {
    let alloc = rt.alloc();
    let target = target_of(alloc, options, schema)?;
    let codec = codec_of(alloc, options, modules, schema, target.node)?;
    let input = read_input(rt, options.input)?;
    progress.say(rt, "encoding JSON of", input.len());
    let encoder = Encoder {
        alloc,
        schema,
        codec: &codec,
        target,
    };
    let name = options.input.unwrap_or(STANDARD_INPUT);
    let octets = encode_json(&encoder, name, input.as_slice())?;
    let label = label_of(alloc, options.type_name)?;
    let written = written_as(alloc, options.to, label.as_str(), octets.as_slice())?;
    write_whole(rt, written.as_slice())
}

/// Prints the elements of the input as trees.
fn dump<R: Runtime + AllocGlobal>(
    rt: &R,
    options: &Options<'_>,
    progress: Progress,
) -> Result<(), Stop> {
    let values = values_in(rt, options)?;
    for value in values.as_slice() {
        progress.say(rt, "reading elements of", value.len());
        let tree = tree_of(rt.alloc(), value.as_slice(), options.depth, options.parts)?;
        write_whole(rt, tree.as_bytes())?;
    }
    Ok(())
}

/// Prints the tables of the types, or compares them with those of a file.
fn tables<R: Runtime + AllocGlobal>(
    rt: &R,
    options: &Options<'_>,
    modules: &Modules<'_>,
    schema: &Schema,
) -> Result<(), Stop> {
    let alloc = rt.alloc();
    let target = target_of(alloc, options, schema)?;
    let codec = codec_of(alloc, options, modules, schema, target.node)?;
    let source = source_of(alloc, schema, codec.defaults())?;
    let Some(name) = options.checked else {
        return write_whole(rt, source.as_bytes());
    };
    match fs::read_to_string(rt, name) {
        Ok(found) if is_same_source(found.as_str(), source.as_str()) => Ok(()),
        Ok(_) => Err(Stop::input(format!(in alloc; "{name}: not the tables of the modules"))),
        Err(error) => Err(of_file(alloc, name, error)),
    }
}
