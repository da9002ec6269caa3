//! What the program reads: arguments, files and standard input.
use crate::failure::Failure;
use cedar_bindings::Bindings;
use cedar_entities::Entities;
use cedar_functions::BuiltinExtension;
use cedar_inputs::{
    InputError, RequestParts, Store, context_from_json, entities_from_json, entity_from_text,
};
use cedar_parser::ParseError;
use cedar_policies::PolicySet;
use cedar_policy_parser::parse_policies;
use cedar_request::{Context, Request};
use cedar_terms::EntityUID;
use clap::ArgMatches;
use std::alloc::Global;
use std::rc::Rc;
use std::rt::Env as _;
use std::{env, fs, io, str};

/// The arguments behind the program's name.
pub fn words(rt: &HostRuntime) -> Result<Vec<String>, Failure> {
    match env::args(rt) {
        Ok(args) => Ok(args.skip(1).collect(rt.alloc())?),
        Err(error) if error.kind() == io::ErrorKind::InvalidData => {
            Err(Failure::of_argument(broken_argument(rt)))
        }
        Err(error) => Err(error.into()),
    }
}

// The number of the first argument that is no text.
fn broken_argument(rt: &HostRuntime) -> usize {
    let mut buffer = [0; 4096];
    for number in 1..usize::MAX {
        match rt.arg(number, &mut buffer) {
            Ok(length) => match buffer.get(..length) {
                Some(bytes) if str::from_utf8(bytes).is_ok() => {}
                _ => return number,
            },
            Err(env::FillError::TooLong) => {}
            Err(env::FillError::NotPresent) => break,
        }
    }
    0
}

/// A text and the name of the file that holds it.
#[derive(Debug, Drop)]
pub struct Source<'a> {
    /// What the file is called.
    pub file: &'a str,
    /// What it holds.
    pub text: String,
}

impl Source<'_> {
    /// What a parser made of the text, or why there is nothing.
    pub fn parsed<T>(&self, made: Result<T, ParseError>) -> Result<T, Failure> {
        match made {
            Ok(made) => Ok(made),
            Err(error) => Err(Failure::of_syntax(self.file, &self.text, &error)),
        }
    }
}

/// The text of the file that an option names.
pub fn read_source<'a>(
    rt: &HostRuntime,
    options: &ArgMatches<'a>,
    name: &str,
) -> Result<Source<'a>, Failure> {
    let file = options.get_str(name).unwrap_or("-");
    let text = read(rt, file)?;
    Ok(Source {
        file: shown(file),
        text,
    })
}

/// The text of an argument, or of standard input if it is `-`.
pub fn expression(rt: &HostRuntime, options: &ArgMatches<'_>) -> Result<String, Failure> {
    match options.get_str("expression") {
        Some("-") => read(rt, "-"),
        text => Ok(String::from_str(rt.alloc(), text.unwrap_or(""))?),
    }
}

/// The text of a condition: that of a file, or of an argument.
pub fn condition(rt: &HostRuntime, options: &ArgMatches<'_>) -> Result<String, Failure> {
    match options.get_str("file") {
        Some(file) => read(rt, file),
        None => expression(rt, options),
    }
}

/// Where the condition stands, before a message: in a file, or in an argument, which goes unnamed.
pub fn place_of_condition(alloc: Global, options: &ArgMatches<'_>) -> Result<String, Failure> {
    match options.get_str("file") {
        Some(file) => Ok(format!(in alloc; "{}: ", shown(file))?),
        None => Ok(String::new(alloc)),
    }
}

/// What the files of `--bind` and then the arguments `--arg` bind.
pub fn bindings(rt: &HostRuntime, options: &ArgMatches<'_>) -> Result<Bindings, Failure> {
    let mut bindings = Bindings::new(rt.alloc());
    for file in options.get_strs("bind").unwrap_or(&[]) {
        bind_file(rt, file, &mut bindings)?;
    }
    for pair in options.get_strs("arg").unwrap_or(&[]).chunks(2) {
        bind_argument(rt.alloc(), pair, &mut bindings)?;
    }
    Ok(bindings)
}

fn bind_file(rt: &HostRuntime, file: &str, bindings: &mut Bindings) -> Result<(), Failure> {
    let text = read(rt, file)?;
    match bindings.bind_json(rt.alloc(), &text) {
        Ok(()) => Ok(()),
        Err(error) => Err(Failure::of_bindings(shown(file), &error)),
    }
}

fn bind_argument(alloc: Global, pair: &[&str], bindings: &mut Bindings) -> Result<(), Failure> {
    if let [name, json] = pair {
        if let Err(error) = bindings.bind_value(alloc, name, json) {
            return Err(Failure::of_bindings("--arg", &error));
        }
    }
    Ok(())
}

/// The policies of a text.
pub fn policies(rt: &HostRuntime, source: &Source<'_>) -> Result<PolicySet, Failure> {
    source.parsed(parse_policies(rt.alloc(), &source.text))
}

/// The entities of a file; there are none without one.
pub fn entities(rt: &HostRuntime, options: &ArgMatches<'_>) -> Result<Store, Failure> {
    let (file, text) = match options.get_str("entities") {
        Some(file) => (shown(file), read(rt, file)?),
        None => ("--entities", String::from_str(rt.alloc(), "[]")?),
    };
    match entities_from_json(rt.alloc(), &text) {
        Ok(entities) => Ok(entities),
        Err(error) => Err(Failure::of_input(file, &error)),
    }
}

/// The entities of a file; without one nothing is known of any entity.
pub fn known_entities(rt: &HostRuntime, options: &ArgMatches<'_>) -> Result<Store, Failure> {
    match options.get_str("entities") {
        Some(_) => entities(rt, options),
        None => nothing_known(rt.alloc()),
    }
}

// The part of a store that has no entity.
fn nothing_known(alloc: Global) -> Result<Store, Failure> {
    match Entities::part_from_entities(alloc, Vec::new(alloc)) {
        Ok(entities) => Ok(entities),
        Err(error) => Err(Failure::of_input("--entities", &InputError::from(error))),
    }
}

/// A request of which parts may be not known.
pub fn partial_request(
    rt: &HostRuntime,
    options: &ArgMatches<'_>,
) -> Result<Request<BuiltinExtension>, Failure> {
    Ok(request_parts(rt, options)?.into_request())
}

/// A request of which each part is known; its context is empty if none is given.
pub fn request(
    rt: &HostRuntime,
    options: &ArgMatches<'_>,
) -> Result<Request<BuiltinExtension>, Failure> {
    let mut parts = request_parts(rt, options)?;
    if let Some(name) = parts.missing() {
        return Err(Failure::of_missing(name));
    }
    if parts.context.is_none() {
        parts.context = Some(Context::empty(rt.alloc())?);
    }
    Ok(parts.into_request())
}

// What a file, or options, say of a request.
fn request_parts(rt: &HostRuntime, options: &ArgMatches<'_>) -> Result<RequestParts, Failure> {
    match options.get_str("request-json") {
        Some(file) => match RequestParts::from_json(rt.alloc(), &read(rt, file)?) {
            Ok(parts) => Ok(parts),
            Err(error) => Err(Failure::of_input(shown(file), &error)),
        },
        None => Ok(RequestParts {
            principal: entity(rt, options, "principal")?,
            action: entity(rt, options, "action")?,
            resource: entity(rt, options, "resource")?,
            context: context(rt, options)?,
        }),
    }
}

// The entity of an option, if it is given.
fn entity(
    rt: &HostRuntime,
    options: &ArgMatches<'_>,
    name: &str,
) -> Result<Option<Rc<EntityUID>>, Failure> {
    let Some(text) = options.get_str(name) else {
        return Ok(None);
    };
    match entity_from_text(rt.alloc(), name, text) {
        Ok(uid) => Ok(Some(uid)),
        Err(error) => Err(Failure::of_entity(name, text, &error)),
    }
}

// The context of a file, if one is given.
fn context(
    rt: &HostRuntime,
    options: &ArgMatches<'_>,
) -> Result<Option<Context<BuiltinExtension>>, Failure> {
    let Some(file) = options.get_str("context") else {
        return Ok(None);
    };
    match context_from_json(rt.alloc(), &read(rt, file)?) {
        Ok(context) => Ok(Some(context)),
        Err(error) => Err(Failure::of_input(shown(file), &error)),
    }
}

// The text of a file, `-` for standard input.
fn read(rt: &HostRuntime, file: &str) -> Result<String, Failure> {
    let text = if file == "-" {
        io::read_to_string(rt.alloc(), rt.reader())
    } else {
        fs::read_to_string(rt, file)
    };
    match text {
        Ok(text) => Ok(text),
        Err(error) => Err(Failure::of_file(shown(file), &error)),
    }
}

// What messages call a file.
fn shown(file: &str) -> &str {
    if file == "-" { "<stdin>" } else { file }
}

/// Whether standard input is wanted at most once, by these options.
pub fn reads_input_once(options: &ArgMatches<'_>, names: &[&str]) -> bool {
    let mut wanted: usize = 0;
    for name in names {
        let values = options.get_strs(name).unwrap_or(&[]);
        let count = values.iter().filter(|value| **value == "-").count();
        wanted = wanted.saturating_add(count);
    }
    wanted <= 1
}
