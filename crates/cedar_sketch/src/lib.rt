//! The texts of expressions, in prefix form: `Sketch`, a builder of texts.
#![tactic(auto)]

ghost use Rattle.std.specs.Prelude.{
  ◌≡◌,
  ◌∷◌,
  ◌++◌,
  [],
  List,
  ℕ,
  IfOk,
  IfErr,
  OnOk,
  None,
  map,
  string_bytes,
};
ghost use Rattle.std.specs.Rc.{rc_str_bytes};
ghost use Rattle.cedar_names.specs.PlainNames.{bare_name};
ghost use Rattle.cedar_names.specs.Names.{name_text};
ghost use Rattle.cedar_terms.specs.Escape.{quoted};
ghost use Rattle.cedar_terms.specs.Ops.{binary_op_text, unary_op_text};
ghost use Rattle.cedar_terms.specs.Unknowns.{bare_annotation};
ghost use Rattle.cedar_builders.specs.Errors.{OnDuplicateKey};
ghost use Rattle.cedar_builders.specs.Answers.{Gives};
ghost use Rattle.cedar_builders.specs.Keys.{keys_of, meant_pairs, IsAscending, HasRepeat};
ghost use Rattle.cedar_builders.specs.declared.expression_construction_errors.ExpressionConstructionError.TheVariants as error;
ghost use Rattle.cedar_builders.specs.Answers.{never};
ghost use Rattle.cedar_sketch.specs.SketchTexts.{
  annotation_texts,
  form_text,
  joined,
  pair_text,
  quoted_pattern,
  sketch_ops,
  spaced_text,
  text_of,
};

use cedar_builders::{
    BuildFault, ExprBuilder, ExprBuilderInfallibleBuild, ExpressionConstructionError, Rope,
};
use cedar_names::{Loc, Name, NonEmpty, SlotId};
use cedar_terms::{BinaryOp, EntityType, Escaped, Literal, Pattern, Type, UnaryOp, Unknown, Var};
use std::alloc::{AllocError, Global};
use std::convert::Infallible;
use std::rc::RcStr;

/// An S-expression: a leaf as it is, or a list as a text in pieces, which are joined once, when it
/// is written.
///
/// A list goes on with the pieces of its first part. It writes leaves and short lists behind its
/// last piece, and takes over the pieces of a long one as they stand. So a tree of any shape and
/// depth is made in time proportional to its nodes, and is dropped piece by piece.
#[derive(Debug, Drop)]
pub struct SExpression {
    form: Form,
}

#[derive(Debug, Drop)]
enum Form {
    Literal(Literal),
    Var(Var),
    Slot(SlotId),
    List(Rope),
}

impl SExpression {
    /// The text, with one space between the parts of a list.
    pub fn to_text(&self, alloc: Global) -> Result<String, AllocError>
        ensures { IfOk result (λ s. string_bytes s ≡ text_of self.now) }
    {
        match &self.form {
            Form::Literal(literal) => format!(in alloc; "{literal}"),
            Form::Var(var) => format!(in alloc; "{var}"),
            Form::Slot(slot) => format!(in alloc; "{slot}"),
            Form::List(text) => text.to_text(alloc),
        }
    }
}

// The text of a list without the bracket behind its last part.
#[derive(Debug, Drop)]
struct OpenList {
    text: Rope,
}

impl OpenList {
    // The beginning of a list without a part: the bracket and a word.
    #[inline(always)]
    fn open(alloc: Global, opening: &str) -> Result<OpenList, AllocError>
        ensures { IfOk result (λ list. joined list ≡ opening.now) }
    {
        Ok(OpenList {
            text: Rope::from_str(alloc, opening)?,
        })
    }

    // The beginning of a list with a part: the bracket, a word and a space, and the part. It goes
    // on with the pieces of a part that is a list.
    #[inline(always)]
    fn open_with(alloc: Global, opening: &str, part: SExpression) -> Result<OpenList, AllocError>
        ensures { IfOk result (λ list. joined list ≡ opening.now ++ text_of part) }
    {
        match part.form {
            Form::List(mut text) => {
                text.put_before(alloc, opening)?;
                Ok(OpenList { text })
            }
            leaf => {
                let mut list = OpenList::open(alloc, opening)?;
                list.add(leaf)?;
                Ok(list)
            }
        }
    }

    // Puts a part behind a space.
    #[inline(always)]
    fn push(&mut self, part: SExpression) -> Result<(), AllocError>
        ensures { OnOk result (joined self.new ≡ joined self.old ++ 32 ∷ text_of part) }
    {
        self.text.push(' ')?;
        self.add(part.form)
    }

    // Puts a leaf or a list at the end.
    #[inline(always)]
    fn add(&mut self, form: Form) -> Result<(), AllocError>
        ensures { OnOk result (joined self.new ≡ joined self.old ++ form_text form) }
    {
        match form {
            Form::Literal(literal) => write!(self.text, "{literal}"),
            Form::Var(var) => write!(self.text, "{var}"),
            Form::Slot(slot) => write!(self.text, "{slot}"),
            Form::List(text) => self.text.append(text),
        }
    }

    // Puts each part behind a space.
    fn push_all(&mut self, parts: Vec<SExpression>) -> Result<(), AllocError>
        ensures { OnOk result
            (joined self.new ≡ joined self.old ++ spaced_text (map text_of parts.items)) }
    {
        for part in parts {
            self.push(part)?;
        }
        Ok(())
    }

    // Puts a text behind a space.
    fn push_text(&mut self, text: &str) -> Result<(), AllocError>
        ensures { OnOk result (joined self.new ≡ joined self.old ++ 32 ∷ text.now) }
    {
        write!(self.text, " {text}")
    }

    // Puts the name of a function or a type behind a space.
    fn push_name(&mut self, name: &Name) -> Result<(), AllocError>
        ensures { OnOk result
            (joined self.new ≡ joined self.old ++ 32 ∷ name_text (bare_name name.now)) }
    {
        write!(self.text, " {name}")
    }

    // Puts a pattern in quotes behind a space.
    fn push_pattern(&mut self, pattern: &Pattern) -> Result<(), AllocError>
        ensures { OnOk result
            (joined self.new ≡ joined self.old ++ 32 ∷ quoted_pattern pattern.now) }
    {
        write!(self.text, " \"{pattern}\"")
    }

    // Puts an attribute in quotes behind a space.
    fn push_attribute(&mut self, attribute: &str) -> Result<(), AllocError>
        ensures { OnOk result (joined self.new ≡ joined self.old ++ 32 ∷ quoted attribute.now) }
    {
        write!(self.text, " \"{}\"", Escaped(attribute))
    }

    // Puts each attribute in quotes behind a space.
    fn push_attributes(&mut self, attributes: &[RcStr]) -> Result<(), AllocError>
        ensures { OnOk result
            (joined self.new
            ≡ joined self.old ++ spaced_text (map quoted (map rc_str_bytes attributes.now))) }
    {
        for attribute in attributes {
            self.push_attribute(attribute)?;
        }
        Ok(())
    }

    // Puts the type of an unknown behind a space, if it has one.
    fn push_annotation(&mut self, annotation: &Option<Type>) -> Result<(), AllocError>
        ensures { OnOk result
            (joined self.new
            ≡ joined self.old ++ spaced_text (annotation_texts (bare_annotation annotation.now))) }
    {
        match annotation {
            None => Ok(()),
            Some(ty) => write!(self.text, " {ty}"),
        }
    }

    // Puts the list of each key and its value behind a space.
    fn push_pairs(&mut self, pairs: Vec<(RcStr, SExpression)>) -> Result<(), AllocError>
        ensures { OnOk result
            (joined self.new
            ≡ joined self.old ++ spaced_text (map pair_text (meant_pairs text_of pairs.items))) }
    {
        for (key, value) in pairs {
            self.push_pair(&key, value)?;
        }
        Ok(())
    }

    // Puts the list of a key and its value behind a space.
    fn push_pair(&mut self, key: &str, value: SExpression) -> Result<(), AllocError>
        ensures { OnOk result
            (joined self.new ≡ joined self.old ++ 32 ∷ pair_text (key.now, text_of value)) }
    {
        self.push_bracket_and_key(key)?;
        self.push(value)?;
        self.push_bracket()
    }

    // Puts a bracket and a key in quotes behind a space.
    fn push_bracket_and_key(&mut self, key: &str) -> Result<(), AllocError>
        ensures { OnOk result (joined self.new ≡ joined self.old ++ 32 ∷ 40 ∷ quoted key.now) }
    {
        write!(self.text, " (\"{}\"", Escaped(key))
    }

    // Puts the bracket behind the last part.
    fn push_bracket(&mut self) -> Result<(), AllocError>
        ensures { OnOk result (joined self.new ≡ joined self.old ++ 41 ∷ []) }
    {
        self.text.push(')')
    }

    // The list, with the bracket behind its last part.
    #[inline(always)]
    fn close(mut self) -> Result<SExpression, AllocError>
        ensures { IfOk result (λ e. text_of e ≡ joined self ++ 41 ∷ []) }
    {
        self.push_bracket()?;
        Ok(SExpression {
            form: Form::List(self.text),
        })
    }
}

// Makes the list of an opening and two parts.
#[inline(always)]
fn list_of_two(
    alloc: Global,
    opening: &str,
    first: SExpression,
    second: SExpression,
) -> Result<SExpression, AllocError>
    ensures { IfOk result (λ e.
        text_of e ≡ opening.now ++ (text_of first ++ 32 ∷ (text_of second ++ 41 ∷ []))) }
{
    let mut list = OpenList::open_with(alloc, opening, first)?;
    list.push(second)?;
    list.close()
}

// The bracket, an operator and a space.
fn unary_opening(op: UnaryOp) -> &'static str
    ensures { result.now ≡ 40 ∷ (unary_op_text op ++ 32 ∷ []) }
{
    match op {
        UnaryOp::Not => "(! ",
        UnaryOp::Neg => "(- ",
        UnaryOp::IsEmpty => "(isEmpty ",
    }
}

// The bracket, an operator and a space.
fn binary_opening(op: BinaryOp) -> &'static str
    ensures { result.now ≡ 40 ∷ (binary_op_text op ++ 32 ∷ []) }
{
    match op {
        BinaryOp::Eq => "(== ",
        BinaryOp::Less => "(< ",
        BinaryOp::LessEq => "(<= ",
        BinaryOp::Add => "(+ ",
        BinaryOp::Sub => "(- ",
        BinaryOp::Mul => "(* ",
        BinaryOp::In => "(in ",
        BinaryOp::Contains => "(contains ",
        BinaryOp::ContainsAll => "(containsAll ",
        BinaryOp::ContainsAny => "(containsAny ",
        BinaryOp::GetTag => "(getTag ",
        BinaryOp::HasTag => "(hasTag ",
    }
}

/// The builder of texts: what it makes of `1 < 2 && true` is `(and (< 1 2) true)`.
///
/// It makes every node as it stands: `(and true false)` is not `false`. `docs/SCRIPT.md` lists the
/// text of each kind.
#[derive(Debug, Drop)]
pub struct Sketch;

impl ExprBuilder for Sketch {
    type Expr = SExpression;

    type Data = ();

    type BuildError = Infallible;

    ghost Meaning = { List ℕ };

    ghost Fault = { ⊥ };

    ghost ops = { sketch_ops };

    ghost meaning_of = { text_of };

    ghost fault_of = { never };

    fn new() -> Sketch {
        Sketch
    }

    fn with_data(_data: ()) -> Sketch {
        Sketch
    }

    fn loc(&self) -> Option<&Loc> {
        None
    }

    fn data(&self) -> &() {
        &()
    }

    fn with_maybe_source_loc(self, _source_loc: Option<Loc>) -> Sketch {
        self
    }

    #[inline(always)]
    fn val(self, _: Global, literal: Literal) -> Result<SExpression, AllocError> {
        Ok(SExpression {
            form: Form::Literal(literal),
        })
    }

    fn var(self, _: Global, var: Var) -> Result<SExpression, AllocError> {
        Ok(SExpression {
            form: Form::Var(var),
        })
    }

    fn slot(self, _: Global, slot: SlotId) -> Result<SExpression, AllocError> {
        Ok(SExpression {
            form: Form::Slot(slot),
        })
    }

    #[inline(always)]
    fn unknown(self, alloc: Global, unknown: Unknown) -> Result<SExpression, AllocError> {
        let mut list = OpenList::open(alloc, "(unknown")?;
        list.push_text(&unknown.name)?;
        list.push_annotation(&unknown.type_annotation)?;
        list.close()
    }

    fn ite(
        self,
        alloc: Global,
        test_expr: SExpression,
        then_expr: SExpression,
        else_expr: SExpression,
    ) -> Result<SExpression, AllocError> {
        let mut list = OpenList::open_with(alloc, "(if ", test_expr)?;
        list.push(then_expr)?;
        list.push(else_expr)?;
        list.close()
    }

    #[inline(always)]
    fn and(
        self,
        alloc: Global,
        left: SExpression,
        right: SExpression,
    ) -> Result<SExpression, AllocError> {
        list_of_two(alloc, "(and ", left, right)
    }

    #[inline(always)]
    fn or(
        self,
        alloc: Global,
        left: SExpression,
        right: SExpression,
    ) -> Result<SExpression, AllocError> {
        list_of_two(alloc, "(or ", left, right)
    }

    #[inline(always)]
    fn unary_app(
        self,
        alloc: Global,
        op: UnaryOp,
        arg: SExpression,
    ) -> Result<SExpression, AllocError> {
        OpenList::open_with(alloc, unary_opening(op), arg)?.close()
    }

    #[inline(always)]
    fn binary_app(
        self,
        alloc: Global,
        op: BinaryOp,
        arg1: SExpression,
        arg2: SExpression,
    ) -> Result<SExpression, AllocError> {
        list_of_two(alloc, binary_opening(op), arg1, arg2)
    }

    fn call_extension_fn(
        self,
        alloc: Global,
        fn_name: Name,
        args: Vec<SExpression>,
    ) -> Result<SExpression, BuildFault<Infallible>>
        ensures { Gives text_of never
            (sketch_ops.call_of (bare_name fn_name) (map text_of args.items))
            result }
    {
        let mut list = OpenList::open(alloc, "(call")?;
        list.push_name(&fn_name)?;
        list.push_all(args)?;
        Ok(list.close()?)
    }

    fn get_attr(
        self,
        alloc: Global,
        expr: SExpression,
        attr: RcStr,
    ) -> Result<SExpression, AllocError> {
        let mut list = OpenList::open_with(alloc, "(get ", expr)?;
        list.push_attribute(&attr)?;
        list.close()
    }

    fn extended_has_attr(
        self,
        alloc: Global,
        expr: SExpression,
        attrs: NonEmpty<RcStr>,
    ) -> Result<SExpression, AllocError> {
        let mut list = OpenList::open_with(alloc, "(has ", expr)?;
        list.push_attribute(&attrs.head)?;
        list.push_attributes(&attrs.tail)?;
        list.close()
    }

    fn like(
        self,
        alloc: Global,
        expr: SExpression,
        pattern: Pattern,
    ) -> Result<SExpression, AllocError> {
        let mut list = OpenList::open_with(alloc, "(like ", expr)?;
        list.push_pattern(&pattern)?;
        list.close()
    }

    fn is_entity_type(
        self,
        alloc: Global,
        expr: SExpression,
        entity_type: EntityType,
    ) -> Result<SExpression, AllocError> {
        let mut list = OpenList::open_with(alloc, "(is ", expr)?;
        list.push_name(entity_type.name())?;
        list.close()
    }

    fn set(self, alloc: Global, members: Vec<SExpression>) -> Result<SExpression, AllocError>
        ensures { IfOk result (λ e. text_of e ≡ sketch_ops.set_of (map text_of members.items)) }
    {
        let mut list = OpenList::open(alloc, "(set")?;
        list.push_all(members)?;
        list.close()
    }

    fn record(
        self,
        alloc: Global,
        pairs: Vec<(RcStr, SExpression)>,
    ) -> Result<SExpression, ExpressionConstructionError>
        ensures means { IsAscending (keys_of pairs.items) → IfOk result (λ e.
            text_of e ≡ sketch_ops.record_of (meant_pairs text_of pairs.items)) }
        ensures accepts { IsAscending (keys_of pairs.items) → IfErr result (λ e. e ≡ error.Memory) }
        ensures refuses { IfErr result (OnDuplicateKey (λ _. HasRepeat (keys_of pairs.items))) }
    {
        let mut list = OpenList::open(alloc, "(record")?;
        list.push_pairs(pairs)?;
        Ok(list.close()?)
    }
}

impl ExprBuilderInfallibleBuild for Sketch {}

// No lawful builder: the law of conjunctions does not hold of its texts.
