//! The command line.

use crate::forms::Form;
use crate::rules::Rules;
use clap::builder::ValueParser;
use clap::{Arg, ArgAction, ArgMatches, Command};
use std::alloc::{AllocError, Global};

/// The names of rules and of forms.
static RULES: [&str; 3] = ["der", "uper", "aper"];

static PRINTED: [&str; 3] = ["json", "text", "tree"];

static FORMS: [&str; 4] = ["binary", "hex", "base64", "pem"];

/// The greatest depth that may be chosen, and the most parts.
const MOST_DEPTH: u64 = 1000;

const MOST_PARTS: u64 = 1_000_000_000;

/// How deep a value may be nested, and how many parts it may have, unless options say so.
const DEPTH: usize = 50;

const PARTS: usize = 1_000_000;

/// What the program is asked to do.
#[derive(Clone, Copy, Debug, PartialEq, Eq)]
pub enum Task {
    /// To print values that octets encode.
    Decode,
    /// To encode a value.
    Encode,
    /// To check modules.
    Check,
    /// To list the types of modules.
    Types,
    /// To print a type as the rules see it.
    Show,
    /// To print elements as a tree.
    Dump,
    /// To print the tables of modules.
    Tables,
}

impl Task {
    /// Returns the task of a subcommand. `None` if there is none with this name.
    pub fn named(name: &str) -> Option<Task> {
        match name {
            "decode" => Some(Task::Decode),
            "encode" => Some(Task::Encode),
            "check" => Some(Task::Check),
            "types" => Some(Task::Types),
            "show" => Some(Task::Show),
            "dump" => Some(Task::Dump),
            "tables" => Some(Task::Tables),
            _ => None,
        }
    }
}

/// How values are printed.
#[derive(Clone, Copy, Debug, PartialEq, Eq)]
pub enum Output {
    /// As JSON (X.697).
    Json,
    /// In the value notation of X.680.
    Notation,
    /// As a tree: a line for each value.
    Tree,
}

impl Output {
    /// Returns how values are printed by a name. Without a name it is as JSON.
    fn named(name: &str) -> Output {
        match name {
            "text" => Output::Notation,
            "tree" => Output::Tree,
            _ => Output::Json,
        }
    }
}

/// What the words after a subcommand say.
#[derive(Clone, Copy, Debug)]
pub struct Options<'m> {
    /// The rules, for the subcommands that have rules.
    pub rules: Rules,
    /// The name of the type. It is empty if the subcommand has none.
    pub type_name: &'m str,
    /// The form of the input. `None` if it is recognised.
    pub from: Option<Form>,
    /// The form of the output.
    pub to: Form,
    /// How values are printed.
    pub printed: Output,
    /// Whether octets may follow a value.
    pub is_prefix: bool,
    /// A value may be nested less deep than this.
    pub depth: usize,
    /// The most parts of a value.
    pub parts: usize,
    /// The name of the input's file. `None` for standard input.
    pub input: Option<&'m str>,
    /// Whether the bits of types are printed beside their names.
    pub has_sizes: bool,
    /// The name of the file that must have the tables. `None` if they are printed.
    pub checked: Option<&'m str>,
}

/// Returns the value of an option. It is empty if the option is not given.
fn value_of<'m>(matches: &ArgMatches<'m>, name: &str) -> &'m str {
    match matches.get_str(name) {
        Some(value) => value,
        None => "",
    }
}

impl<'m> Options<'m> {
    /// Returns what the matches of a subcommand say.
    pub fn of(matches: &ArgMatches<'m>) -> Options<'m> {
        let rules = value_of(matches, "rules");
        let from = value_of(matches, "from");
        let to = value_of(matches, "to");
        Options {
            rules: Rules::named(rules).unwrap_or(Rules::Der),
            type_name: value_of(matches, "type"),
            from: Form::named(from),
            to: Form::named(to).unwrap_or(Form::Binary),
            printed: Output::named(to),
            is_prefix: matches.get_flag("rest"),
            depth: matches.get_one("depth").unwrap_or(DEPTH),
            parts: matches.get_one("parts").unwrap_or(PARTS),
            input: matches.get_str("input"),
            has_sizes: matches.get_flag("sizes"),
            checked: matches.get_str("check"),
        }
    }
}

/// Returns an option with a value.
fn option<'a>(alloc: Global, name: &'a str, value: &'a str, help: &'a str) -> Arg<'a> {
    Arg::new(alloc, name)
        .long(name)
        .value_name(value)
        .help(help)
}

/// Returns an option that must be given, and names rules.
fn rules<'a>(alloc: Global) -> Arg<'a> {
    let names: &'a [&'a str] = &RULES;
    option(alloc, "rules", "RULES", "The encoding rules")
        .value_parser(ValueParser::Names(names))
        .required(true)
}

/// Returns the option that names a type.
fn type_name<'a>(alloc: Global) -> Arg<'a> {
    let help = "The type of the value, as Type or Module.Type";
    option(alloc, "type", "TYPE", help).required(true)
}

/// Returns an option that names a form.
fn form<'a>(alloc: Global, name: &'a str, help: &'a str) -> Arg<'a> {
    let names: &'a [&'a str] = &FORMS;
    option(alloc, name, "FORM", help).value_parser(ValueParser::Names(names))
}

/// Returns the option that says how values are printed.
fn printed<'a>(alloc: Global) -> Arg<'a> {
    let names: &'a [&'a str] = &PRINTED;
    let help =
        "How values are printed: JSON, the value notation of X.680, or a tree [default: json]";
    option(alloc, "to", "HOW", help).value_parser(ValueParser::Names(names))
}

/// Returns the option that names a file to read.
fn input<'a>(alloc: Global) -> Arg<'a> {
    let help = "The file to read instead of standard input";
    option(alloc, "input", "FILE", help)
}

/// Returns the option that limits depth.
fn depth<'a>(alloc: Global) -> Arg<'a> {
    let help = "A value may be nested less deep than this, up to 1000 [default: 50]";
    option(alloc, "depth", "N", help).value_parser(ValueParser::Unsigned(1, MOST_DEPTH))
}

/// Returns the option that limits the number of parts.
fn parts<'a>(alloc: Global, help: &'a str) -> Arg<'a> {
    option(alloc, "parts", "N", help).value_parser(ValueParser::Unsigned(1, MOST_PARTS))
}

/// Returns the argument that names the files of modules.
fn modules<'a>(alloc: Global) -> Arg<'a> {
    Arg::new(alloc, "modules")
        .value_name("MODULE.asn1")
        .help("The files with the modules")
        .num_args(1..)
        .action(ArgAction::Append)
        .required(true)
}

/// Returns the subcommand `decode`.
fn decode<'a>(alloc: Global) -> Result<Command<'a>, AllocError> {
    let from = "The form of the input; its look tells it unless this option does";
    let rest = "Permit octets after the value";
    let most = "The most parts of a value: components, items and alternatives [default: 1000000]";
    Command::new(alloc, "decode")
        .about("Print the values that octets encode")
        .after_help("Example: asn1 decode --rules uper --type Person people.asn1 < person.bin")
        .arg(rules(alloc))?
        .arg(type_name(alloc))?
        .arg(form(alloc, "from", from))?
        .arg(printed(alloc))?
        .arg(input(alloc))?
        .arg(
            Arg::new(alloc, "rest")
                .long("rest")
                .action(ArgAction::SetTrue)
                .help(rest),
        )?
        .arg(depth(alloc))?
        .arg(parts(alloc, most))?
        .arg(modules(alloc))
}

/// Returns the subcommand `encode`.
fn encode<'a>(alloc: Global) -> Result<Command<'a>, AllocError> {
    Command::new(alloc, "encode")
        .about("Write the octets that encode the value of a JSON")
        .after_help("Example: asn1 encode --rules uper --type Person people.asn1 < person.json")
        .arg(rules(alloc))?
        .arg(type_name(alloc))?
        .arg(form(alloc, "to", "The form of the output [default: binary]"))?
        .arg(input(alloc))?
        .arg(depth(alloc))?
        .arg(modules(alloc))
}

/// Returns the subcommand `check`.
fn check<'a>(alloc: Global) -> Result<Command<'a>, AllocError> {
    Command::new(alloc, "check")
        .about("Check modules: nothing is printed if they are right")
        .after_help("Example: asn1 check people.asn1 names.asn1")
        .arg(modules(alloc))
}

/// Returns the subcommand `types`.
fn types<'a>(alloc: Global) -> Result<Command<'a>, AllocError> {
    Command::new(alloc, "types")
        .about("Print the names of the types of modules, one a line")
        .after_help("Example: asn1 types --sizes people.asn1")
        .arg(
            Arg::new(alloc, "sizes")
                .long("sizes")
                .action(ArgAction::SetTrue)
                .help("Print the least and the most bits of a value in unaligned PER too"),
        )?
        .arg(modules(alloc))
}

/// Returns the subcommand `show`.
fn show<'a>(alloc: Global) -> Result<Command<'a>, AllocError> {
    Command::new(alloc, "show")
        .about("Print a type as the encoding rules see it: tags, bounds, indexes, presence bits")
        .after_help("Example: asn1 show --type Person people.asn1")
        .arg(type_name(alloc))?
        .arg(depth(alloc))?
        .arg(modules(alloc))
}

/// Returns the subcommand `dump`.
fn dump<'a>(alloc: Global) -> Result<Command<'a>, AllocError> {
    let from = "The form of the input; its look tells it unless this option does";
    let most = "The most elements [default: 1000000]";
    Command::new(alloc, "dump")
        .about("Print the elements of any DER as a tree, without a module")
        .after_help("Example: asn1 dump --input certificate.pem")
        .arg(form(alloc, "from", from))?
        .arg(input(alloc))?
        .arg(depth(alloc))?
        .arg(parts(alloc, most))
}

/// Returns the subcommand `tables`.
fn tables<'a>(alloc: Global) -> Result<Command<'a>, AllocError> {
    let check = "Print nothing; the status is 1 if the file has other tables";
    Command::new(alloc, "tables")
        .about("Print the tables of modules as a source of constants")
        .after_help("Example: asn1 tables --rules uper --type Person people.asn1 > people.rt")
        .arg(rules(alloc))?
        .arg(type_name(alloc))?
        .arg(option(alloc, "check", "FILE", check))?
        .arg(depth(alloc))?
        .arg(modules(alloc))
}

/// Returns the program's command line.
///
/// # Errors
///
/// Returns an error if out of memory.
pub fn command<'a>(alloc: Global) -> Result<Command<'a>, AllocError> {
    Command::new(alloc, "asn1")
        .about("Decode and encode values of the types of ASN.1 modules")
        .subcommand_required(true)
        .arg_required_else_help(true)
        .subcommand(decode(alloc)?)?
        .subcommand(encode(alloc)?)?
        .subcommand(check(alloc)?)?
        .subcommand(types(alloc)?)?
        .subcommand(show(alloc)?)?
        .subcommand(dump(alloc)?)?
        .subcommand(tables(alloc)?)
}
