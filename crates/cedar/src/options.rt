//! What the program is asked for.
use clap::{Arg, ArgAction, ArgMatches, Command, Error};
use std::alloc::{AllocError, Global};

const ABOUT: &str = "Decides requests by policies in Cedar's syntax.";

const AFTER: &str = "\
Answers go to standard output, everything else to standard error. A FILE may be `-`, standard
input, once. The status is

    0  what was asked for was done; the request is allowed
    1  it can't be done: options, or a file
    2  the request is denied; with --exit-status, the value is `false`
    3  memory ran out
    4  the answer is not known, since parts of what decides are not
    5  the text is no condition
    6  the condition has a fault

docs/AUTHORIZE.md and docs/CONDITIONS.md have the whole.";

const AUTHORIZE: &str = "Decides a request: prints ALLOW or DENY";

const EVALUATE: &str = "\
Evaluates a condition as far as its parts are known: prints its value, or its residual, a condition
on what is not known yet";

const AFTER_EVALUATE: &str = "\
Not known are the parts of the request that are not given, unknowns that are not bound, and, without
--entities, all that entities alone decide: `in`, attributes, tags. What may have a fault stays in
the residual, as `false || context.mfa`. A residual may be evaluated again, once more is known.
--bind binds unknowns, as `unknown(\"limit\")`, and parts of the request:

    {\"principal\": \"User::\\\"alice\\\"\", \"context\": {\"mfa\": true}, \"limit\": 3}

Answers go to standard output, everything else to standard error. A FILE may be `-`, standard input,
once. The status is, with --batch the greatest of the lines',

    0  a value was printed
    1  it can't be done: options, or a file
    2  the value is `false`, with --exit-status
    3  memory ran out
    4  a residual was printed, or with --strict refused
    5  the text is no condition
    6  the condition has a fault";

const CHECK: &str = "Checks that policies, entities or an expression can be parsed";

const FORMAT: &str = "Prints policies in one layout, without their comments";

const LINK: &str = "Prints the policy that a template is with entities in place of its slots";

/// What the words of a command line ask for, behind the program's name.
pub fn parse<'a>(alloc: Global, words: &'a [String]) -> Result<ArgMatches<'a>, Error> {
    let takes_hyphens = words.iter().any(|word| begins_expression(word));
    command(alloc, takes_hyphens)?.try_get_matches_from(words)
}

// Whether a word begins with a hyphen and is no option: an expression, as in `-1 < 2`.
fn begins_expression(word: &str) -> bool {
    match word.strip_prefix('-') {
        Some(rest) => {
            let name = rest.strip_prefix('-').unwrap_or(rest);
            !name.is_empty() && !is_option_name(name)
        }
        None => false,
    }
}

// Whether a word behind hyphens may be the name of an option, with a value behind `=`.
fn is_option_name(name: &str) -> bool {
    let name = match name.split_once('=') {
        Some((name, _)) => name,
        None => name,
    };
    name.bytes()
        .all(|byte| byte == b'-' || byte.is_ascii_alphabetic())
}

fn command<'a>(alloc: Global, takes_hyphens: bool) -> Result<Command<'a>, AllocError> {
    Command::new(alloc, "cedar")
        .no_binary_name(true)
        .version("1.0.0, policies as in Cedar 4.14.1")
        .about(ABOUT)
        .after_help(AFTER)
        .subcommand_required(true)
        .subcommand(authorize(alloc)?)?
        .subcommand(evaluate(alloc, takes_hyphens)?)?
        .subcommand(check(alloc)?)?
        .subcommand(format(alloc)?)?
        .subcommand(link(alloc)?)
}

fn authorize<'a>(alloc: Global) -> Result<Command<'a>, AllocError> {
    let command = Command::new(alloc, "authorize")
        .about(AUTHORIZE)
        .arg(policies(alloc).required(true))?
        .arg(flag(alloc, "verbose", VERBOSE).short('v'))?
        .arg(flag(alloc, "json", JSON).conflicts_with("verbose")?)?
        .arg(
            flag(alloc, "partial", PARTIAL)
                .conflicts_with("verbose")?
                .conflicts_with("json")?,
        )?;
    with_request(alloc, command)
}

const VERBOSE: &str = "Prints too which policies the decision is due to";

const JSON: &str = "Prints decision, reasons and errors as one JSON object";

const PARTIAL: &str = "\
What is not given of the request is not known: maybe prints UNKNOWN and the residual policies";

fn evaluate<'a>(alloc: Global, takes_hyphens: bool) -> Result<Command<'a>, AllocError> {
    let expression = expression(alloc)
        .allow_hyphen_values(takes_hyphens)
        .required_unless_present("file")?;
    let command = Command::new(alloc, "evaluate")
        .about(EVALUATE)
        .after_help(AFTER_EVALUATE)
        .arg(expression)?
        .arg(condition_file(alloc)?)?;
    with_answers(alloc, with_bindings(alloc, with_request(alloc, command)?)?)
}

fn condition_file<'a>(alloc: Global) -> Result<Arg<'a>, AllocError> {
    file(alloc, "file", "The condition, as a file holds it")
        .short('f')
        .conflicts_with("expression")
}

// The options that bind names.
fn with_bindings<'a>(alloc: Global, command: Command<'a>) -> Result<Command<'a>, AllocError> {
    command
        .arg(
            file(alloc, "bind", BIND)
                .short('b')
                .action(ArgAction::Append),
        )?
        .arg(bound_name(alloc))
}

const BIND: &str = "What names stand for, as a JSON object; several times";

const NAME_AND_JSON: [&str; 2] = ["NAME", "JSON"];

fn bound_name<'a>(alloc: Global) -> Arg<'a> {
    Arg::new(alloc, "arg")
        .long("arg")
        .value_names(&NAME_AND_JSON)
        .num_args(2)
        .allow_hyphen_values(true)
        .action(ArgAction::Append)
        .help("What a name stands for; counts over --bind; several times")
}

// The options that say how answers are given.
fn with_answers<'a>(alloc: Global, command: Command<'a>) -> Result<Command<'a>, AllocError> {
    command
        .arg(format_of_answers(alloc))?
        .arg(flag(alloc, "batch", BATCH))?
        .arg(flag(alloc, "strict", STRICT))?
        .arg(flag(alloc, "exit-status", EXIT_STATUS))
}

const FORMATS: [&str; 2] = ["text", "json"];

fn format_of_answers<'a>(alloc: Global) -> Arg<'a> {
    Arg::new(alloc, "format")
        .long("format")
        .value_name("FORMAT")
        .value_parser(FORMATS.as_slice())
        .default_value("text")
        .help("How answers are printed; as JSON each is one, faults and syntax errors too")
}

const BATCH: &str = "Each line of the expression is a condition; prints a line for each";

const STRICT: &str = "What is not known is an error";

const EXIT_STATUS: &str = "The status is 2 if the value is `false`";

fn check<'a>(alloc: Global) -> Result<Command<'a>, AllocError> {
    Command::new(alloc, "check-parse")
        .about(CHECK)
        .arg(policies(alloc))?
        .arg(entities(alloc))?
        .arg(expression(alloc).long("expression"))
}

fn format<'a>(alloc: Global) -> Result<Command<'a>, AllocError> {
    Command::new(alloc, "format")
        .about(FORMAT)
        .arg(policies(alloc).required(true))
}

fn link<'a>(alloc: Global) -> Result<Command<'a>, AllocError> {
    let arguments = Arg::new(alloc, "arguments")
        .short('a')
        .long("arguments")
        .value_name("JSON")
        .required(true)
        .help("What stands for the slots, as {\"?principal\": \"User::\\\"alice\\\"\"}");
    Command::new(alloc, "link")
        .about(LINK)
        .arg(policies(alloc).required(true))?
        .arg(id(alloc, "template-id", "The identifier of the template"))?
        .arg(id(alloc, "new-id", "The identifier of the policy").short('n'))?
        .arg(arguments)
}

fn id<'a>(alloc: Global, name: &'static str, help: &'static str) -> Arg<'a> {
    Arg::new(alloc, name)
        .long(name)
        .value_name("ID")
        .required(true)
        .help(help)
}

fn policies<'a>(alloc: Global) -> Arg<'a> {
    file(alloc, "policies", "The policies, in Cedar's syntax").short('p')
}

fn entities<'a>(alloc: Global) -> Arg<'a> {
    file(alloc, "entities", "The entities, as a JSON array")
}

fn expression<'a>(alloc: Global) -> Arg<'a> {
    Arg::new(alloc, "expression")
        .value_name("EXPRESSION")
        .help("The expression, or `-` for standard input")
}

// The options that say what is known of a request.
fn with_request<'a>(alloc: Global, command: Command<'a>) -> Result<Command<'a>, AllocError> {
    command
        .arg(entities(alloc))?
        .arg(file(alloc, "request-json", REQUEST))?
        .arg(entity(alloc, "principal", 'l')?)?
        .arg(entity(alloc, "action", 'a')?)?
        .arg(entity(alloc, "resource", 'r')?)?
        .arg(
            file(alloc, "context", "The context, as a JSON object")
                .short('c')
                .conflicts_with("request-json")?,
        )
}

const REQUEST: &str = "The request, as a JSON object of principal, action, resource and context";

fn file<'a>(alloc: Global, name: &'static str, help: &'static str) -> Arg<'a> {
    Arg::new(alloc, name)
        .long(name)
        .value_name("FILE")
        .help(help)
}

fn entity<'a>(alloc: Global, name: &'static str, short: char) -> Result<Arg<'a>, AllocError> {
    Arg::new(alloc, name)
        .short(short)
        .long(name)
        .value_name("ENTITY")
        .help("An entity of the request, as User::\"alice\"")
        .conflicts_with("request-json")
}

fn flag<'a>(alloc: Global, name: &'static str, help: &'static str) -> Arg<'a> {
    Arg::new(alloc, name)
        .long(name)
        .action(ArgAction::SetTrue)
        .help(help)
}
