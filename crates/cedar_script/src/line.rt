//! The lines of the script, read as commands.
ghost use Rattle.std.specs.Prelude.{
  ◌≡◌,
  ◌≢◌,
  ◌==◌,
  ◌⊎◌,
  ◌∷◌,
  [],
  IfOk,
  OnErr,
  IfErr,
  IsTrue,
  false,
  slice_index,
};
ghost use Rattle.std.specs.Result.{OkIff};
ghost use Rattle.std.specs.Str.Parse.{digits_value, signed_digits_value};
ghost use Rattle.cedar_names.specs.Names.{IsNameOf, has_reserved};
ghost use Rattle.cedar_names.specs.PlainNames.{bare_name};
ghost use Rattle.cedar_names.specs.Slots.{slot_text};
ghost use Rattle.cedar_names.specs.declared.slot.SlotId.{SlotId};
ghost use Rattle.cedar_terms.specs.Literals.{BoolLit, literal_text};
ghost use Rattle.cedar_terms.specs.Ops.{binary_op_text, var_text};
ghost use Rattle.cedar_terms.specs.Types.{bare_type, type_text};
ghost use Rattle.cedar_terms.specs.declared.ops.BinaryOp.{BinaryOp};
ghost use Rattle.cedar_terms.specs.declared.var.Var.{Var};
ghost use Rattle.cedar_script.specs.CommandWords.{texts_now, words_of, Spells, Reads};
ghost use Rattle.cedar_script.specs.Words.{IsNoName, WritesCount, WritesLong};

use crate::command_error::CommandError;
use crate::pattern::parse_pattern;
use cedar_names::{FromNormalizedStr as _, Name, NonEmpty, ParseErrors, SlotId};
use cedar_terms::{BinaryOp, EntityType, Pattern, Type, UnaryOp, Var};
use std::alloc::Global;

/// What a line asks for, with its words read.
#[derive(Debug, Drop)]
pub enum Command<'a> {
    /// Pushes a Boolean literal.
    Bool(bool),
    /// Pushes an integer literal.
    Long(i64),
    /// Pushes a string literal.
    String(&'a str),
    /// Pushes a variable.
    Var(Var),
    /// Pushes a slot.
    Slot(SlotId),
    /// Pushes the unknown of this name, which values of the type may replace, or any where none is
    /// given.
    Unknown(&'a str, Option<Type>),
    /// Takes a test and two branches, and pushes their conditional.
    If,
    /// Takes two expressions and pushes their conjunction, simplified where both are Boolean
    /// literals.
    And,
    /// Takes two expressions and pushes their disjunction, simplified where both are Boolean
    /// literals.
    Or,
    /// Takes two expressions and pushes the node of their conjunction.
    RawAnd,
    /// Takes two expressions and pushes the node of their disjunction.
    RawOr,
    /// Takes an expression and pushes the operator applied to it.
    Unary(UnaryOp),
    /// Takes two expressions and pushes the operator applied to them.
    Binary(BinaryOp),
    /// Takes this many expressions and pushes the call of the function on them, the lowest as the
    /// first argument.
    Call(Name, usize),
    /// Takes an expression and pushes its attribute.
    Get(&'a str),
    /// Takes an expression and pushes the test for its attribute.
    Has(&'a str),
    /// Takes an expression and pushes the test for each attribute in turn.
    ExtHas(NonEmpty<&'a str>),
    /// Takes an expression and pushes the test against the pattern.
    Like(Pattern),
    /// Takes an expression and pushes the test for the entity type.
    Is(EntityType),
    /// Takes this many expressions and pushes the set of them, the lowest as the first member.
    Set(usize),
    /// Takes an expression for each key, the lowest for the first, and pushes the record of them.
    Record(Vec<&'a str>),
    /// Takes a value and binds the name to it, in place of an earlier binding.
    Bind(&'a str),
    /// Replaces the top by its substitution.
    Substitute,
    /// The same, where each value has the type that is expected of it.
    Typed,
    /// Shows the top, which stays.
    Show,
    /// Shows the outcome of the top, which stays: its value, or the fault.
    Eval,
    /// Replaces the top by its known value, or its residual.
    Simplify,
}

impl<'a> Command<'a> {
    /// Reads the text of a line that is not empty.
    ///
    /// Words are separated by one space each, and none is empty; after `string` and `like` the rest
    /// of the line is taken as it is. What is no command is a bad line.
    pub fn parse(alloc: Global, text: &'a str) -> Result<Command<'a>, CommandError>
        ensures reads { IfOk result (λ command. Reads text.now command) }
        ensures refused { IfErr result (λ e.
            (e ≡ CommandError.BadLine) ⊎ (e ≡ CommandError.Memory)) }
    {
        let Some((first, rest)) = text.split_once(' ') else {
            return parse_alone(alloc, text);
        };
        // As bytes, words are told apart without a call for each.
        match first.as_bytes() {
            b"string" => Ok(Command::String(rest)),
            b"like" => Ok(Command::Like(parse_pattern(alloc, rest)?)),
            _ if is_word(rest) => parse_with_one(alloc, first, rest),
            _ => parse_each(alloc, text),
        }
    }
}

// Whether a text is a word: it is not empty, and has no space.
fn is_word(text: &str) -> bool
    ensures { IsTrue result → words_of text.now ≡ text.now ∷ [] }
{
    !text.is_empty() && !text.as_bytes().contains(&b' ')
}

// The command that the words of a line spell, three or more.
fn parse_each<'a>(alloc: Global, text: &'a str) -> Result<Command<'a>, CommandError>
    ensures spelled { IfOk result (λ command. Spells command (words_of text.now)) }
    ensures refused { IfErr result (λ e. (e ≡ CommandError.BadLine) ⊎ (e ≡ CommandError.Memory)) }
{
    let words: Vec<&str> = text.split(' ').collect(alloc)?;
    if words.iter().any(|word| word.is_empty()) {
        return Err(CommandError::BadLine);
    }
    parse_words(alloc, &words)
}

// The command that three words or more spell, none of which is empty.
fn parse_words<'a>(alloc: Global, words: &[&'a str]) -> Result<Command<'a>, CommandError>
    ensures spelled { IfOk result (λ command. Spells command (texts_now words.now)) }
    ensures refused { IfErr result (λ e. (e ≡ CommandError.BadLine) ⊎ (e ≡ CommandError.Memory)) }
{
    match words {
        ["record", keys @ ..] => Ok(Command::Record(keys.to_vec(alloc)?)),
        ["exthas", first, later @ ..] => {
            let later = later.to_vec(alloc)?;
            Ok(Command::ExtHas(NonEmpty::new(*first, later)))
        }
        ["unknown", name, ty] => Ok(Command::Unknown(name, Some(parse_type(ty)?))),
        ["call", name, number] => Ok(Command::Call(parse_name(alloc, name)?, parse_count(number)?)),
        _ => Err(CommandError::BadLine),
    }
}

// The command that a word alone spells.
fn parse_alone<'a>(alloc: Global, word: &str) -> Result<Command<'a>, CommandError>
    ensures spelled { IfOk result (λ command. Spells command (word.now ∷ [])) }
    ensures refused { IfErr result (λ e. (e ≡ CommandError.BadLine) ⊎ (e ≡ CommandError.Memory)) }
{
    match word.as_bytes() {
        b"string" => Ok(Command::String("")),
        b"if" => Ok(Command::If),
        b"and" => Ok(Command::And),
        b"or" => Ok(Command::Or),
        b"raw-and" => Ok(Command::RawAnd),
        b"raw-or" => Ok(Command::RawOr),
        b"!" => Ok(Command::Unary(UnaryOp::Not)),
        b"neg" => Ok(Command::Unary(UnaryOp::Neg)),
        b"isEmpty" => Ok(Command::Unary(UnaryOp::IsEmpty)),
        b"like" => Ok(Command::Like(Pattern::from_vec(alloc, Vec::new(alloc))?)),
        b"record" => Ok(Command::Record(Vec::new(alloc))),
        b"substitute" => Ok(Command::Substitute),
        b"typed" => Ok(Command::Typed),
        b"show" => Ok(Command::Show),
        b"eval" => Ok(Command::Eval),
        b"simplify" => Ok(Command::Simplify),
        _ => Ok(Command::Binary(parse_binary_op(word)?)),
    }
}

// The command that a first word and one more spell.
fn parse_with_one<'a>(
    alloc: Global,
    first: &str,
    word: &'a str,
) -> Result<Command<'a>, CommandError>
    ensures spelled { IfOk result (λ command. Spells command (first.now ∷ word.now ∷ [])) }
    ensures refused { IfErr result (λ e. (e ≡ CommandError.BadLine) ⊎ (e ≡ CommandError.Memory)) }
{
    match first.as_bytes() {
        b"bool" => Ok(Command::Bool(parse_bool(word)?)),
        b"long" => Ok(Command::Long(parse_long(word)?)),
        b"var" => Ok(Command::Var(parse_var(word)?)),
        b"slot" => Ok(Command::Slot(parse_slot(word)?)),
        b"unknown" => Ok(Command::Unknown(word, None)),
        b"get" => Ok(Command::Get(word)),
        b"has" => Ok(Command::Has(word)),
        b"is" => Ok(Command::Is(EntityType::from(parse_name(alloc, word)?))),
        b"set" => Ok(Command::Set(parse_count(word)?)),
        b"record" => Ok(Command::Record(vec![in alloc; word]?)),
        b"exthas" => Ok(Command::ExtHas(NonEmpty::new(word, Vec::new(alloc)))),
        b"bind" => Ok(Command::Bind(word)),
        _ => Err(CommandError::BadLine),
    }
}

// The Boolean that a word names.
fn parse_bool(word: &str) -> Result<bool, CommandError>
    ensures named { IfOk result (λ b. word.now ≡ literal_text (BoolLit b)) }
    ensures refused { IfErr result (λ e. e ≡ CommandError.BadLine) }
{
    match word {
        "true" => Ok(true),
        "false" => Ok(false),
        _ => Err(CommandError::BadLine),
    }
}

// The integer that a word writes: an optional minus and one or more digits, within 64 bits signed.
fn parse_long(word: &str) -> Result<i64, CommandError>
    ensures number { OkIff result (WritesLong word.now) (signed_digits_value 10 word.now) }
    ensures refused { IfErr result (λ e. e ≡ CommandError.BadLine) }
{
    if starts_with_plus(word) {
        return Err(CommandError::BadLine);
    }
    word.parse().map_err(|_| CommandError::BadLine)
}

// The count that a word writes: one or more digits, within 64 bits unsigned.
fn parse_count(word: &str) -> Result<usize, CommandError>
    ensures number { OkIff result (WritesCount word.now) (digits_value 10 word.now) }
    ensures refused { IfErr result (λ e. e ≡ CommandError.BadLine) }
{
    if starts_with_plus(word) {
        return Err(CommandError::BadLine);
    }
    word.parse().map_err(|_| CommandError::BadLine)
}

// Whether a word begins with the sign that `parse` would take too.
fn starts_with_plus(word: &str) -> bool
    ensures { result ≡ (slice_index word.now 0 == 43) }
{
    matches!(word.as_bytes(), [b'+', ..])
}

// The variable that has this text.
fn parse_var(word: &str) -> Result<Var, CommandError>
    ensures named { IfOk result (λ var. word.now ≡ var_text var) }
    ensures every { OnErr result ((var : Var) → word.now ≢ var_text var) }
    ensures refused { IfErr result (λ e. e ≡ CommandError.BadLine) }
{
    Var::from_text(word).ok_or(CommandError::BadLine)
}

// The slot that has this text behind a question mark.
fn parse_slot(word: &str) -> Result<SlotId, CommandError>
    ensures named { IfOk result (λ slot. 63 ∷ word.now ≡ slot_text slot) }
    ensures every { OnErr result ((slot : SlotId) → 63 ∷ word.now ≢ slot_text slot) }
    ensures refused { IfErr result (λ e. e ≡ CommandError.BadLine) }
{
    match word {
        "principal" => Ok(SlotId::Principal),
        "resource" => Ok(SlotId::Resource),
        _ => Err(CommandError::BadLine),
    }
}

// The name that a word writes in its normalized form.
fn parse_name(alloc: Global, word: &str) -> Result<Name, CommandError>
    ensures read { IfOk result (λ name. IsNameOf word.now (bare_name name)) }
    ensures allowed { IfOk result (λ name. has_reserved (bare_name name) ≡ false) }
    ensures refused { IfErr result (λ e. (e ≡ CommandError.BadLine) ⊎ (e ≡ CommandError.Memory)) }
    ensures bad { IfErr result (λ e. e ≡ CommandError.BadLine → IsNoName word.now) }
{
    match Name::from_normalized_str(alloc, word) {
        Ok(name) => Ok(name),
        Err(ParseErrors::NotNormalized { .. }) => Err(CommandError::BadLine),
        Err(ParseErrors::Reserved(_)) => Err(CommandError::BadLine),
        Err(ParseErrors::Memory) => Err(CommandError::Memory),
    }
}

// The type without a name of its own that has this text.
fn parse_type(word: &str) -> Result<Type, CommandError>
    ensures named { IfOk result (λ ty. word.now ≡ type_text (bare_type ty)) }
    ensures refused { IfErr result (λ e. e ≡ CommandError.BadLine) }
{
    Type::from_text(word).ok_or(CommandError::BadLine)
}

// The operator of two arguments that has this text.
fn parse_binary_op(word: &str) -> Result<BinaryOp, CommandError>
    ensures named { IfOk result (λ op. word.now ≡ binary_op_text op) }
    ensures every { OnErr result ((op : BinaryOp) → word.now ≢ binary_op_text op) }
    ensures refused { IfErr result (λ e. e ≡ CommandError.BadLine) }
{
    BinaryOp::from_text(word).ok_or(CommandError::BadLine)
}
