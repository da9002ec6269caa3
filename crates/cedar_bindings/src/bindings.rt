//! What names stand for.
ghost use Rattle.std.specs.Prelude.{◌≡◌, ◌≢◌, IfErr, IfOk, IfSome, List, None, OnOk, Some};
ghost use Rattle.std.specs.Rc.{rc_str_bytes};
ghost use Rattle.serde_json.specs.Data.{Data, Members, object};
ghost use Rattle.serde_json.specs.Read.{read};
ghost use Rattle.serde_json.specs.View.{members_view, view};
ghost use Rattle.cedar_builders.specs.BareExpr.{BareExpr, Text, Unknown as UnknownTree};
ghost use Rattle.cedar_builders.specs.Keys.{meant_pairs};
ghost use Rattle.cedar_exprs.specs.BareExpr.{bare_expr};
ghost use Rattle.semantics_values.specs.Reading.{IsValueOf};
ghost use Rattle.cedar_json.specs.declared.json_error.JsonError.TheVariants.{Memory};
ghost use Rattle.cedar_values.specs.BareValues.{bare_value};
ghost use Rattle.cedar_values.specs.WellFormedValues.{value_of as value_in, well_formed_env};
ghost use Rattle.cedar_bindings.specs.Bindings.{AreBound, IsBound, IsPutAt, env_in, names_in};
ghost use Rattle.cedar_bindings.specs.Names.{names_of};
ghost use Rattle.cedar_bindings.specs.Requests.{AreNamed, IsMember};

use crate::request::{is_variable, member};
use crate::usage::keep_unused;
use cedar_exprs::{Expr, push_item};
use cedar_json::{JsonError, parse_json};
use cedar_terms::Unknown;
use cedar_values::{NoExtension, NotValue, Value, WellFormedValue};
use serde_json::{Map, Value as Json};
use std::alloc::{AllocError, Global};
use std::collections::HashMap;
use std::rc::RcStr;

/// What some names stand for. `principal`, `action`, `resource` and `context` are the variables of
/// the request; each name is also that of the unknown `unknown("NAME")`.
#[derive(Drop)]
pub struct Bindings {
    // The values of those that have one.
    values: HashMap<RcStr, WellFormedValue>,
    // What each stands for: one that has a value for the unknown of that name.
    named: HashMap<RcStr, Expr>,
}

impl Bindings {
    /// No bindings.
    pub fn new(alloc: Global) -> Bindings
        ensures names { (n : Text) → names_in result n ≡ None }
        ensures values { (n : Text) → env_in result n ≡ None }
    {
        Bindings {
            values: HashMap::new(alloc),
            named: HashMap::new(alloc),
        }
    }

    /// Binds the names that a JSON object has, in place of what they stood for.
    ///
    /// ```rust
    /// let mut bindings = Bindings::new(alloc);
    /// bindings.bind_json(alloc, "{\"limit\": 3, \"context\": {\"mfa\": true}}")?;
    /// ```
    ///
    /// `docs/CONDITIONS.md` says which value each kind of JSON is. If the text is refused, nothing
    /// is bound; if memory runs out, some names may be.
    pub fn bind_json(&mut self, alloc: Global, text: &str) -> Result<(), JsonError>
        ensures bound { OnOk result ((ms : Members) × (read text.now ≡ Some (object ms))
            × (ps : List (Text × BareExpr)) × AreNamed ms ps × AreBound self.old ps self.new) }
        ensures refused { IfErr result (λ e. e ≢ Memory → self.new ≡ self.old) }
    {
        let json = parse_json(alloc, text)?;
        let pairs = object_of(alloc, &json)?;
        Ok(self.bind_all(alloc, pairs)?)
    }

    /// Binds a name to what a piece of JSON stands for, in place of what it stood for.
    ///
    /// ```rust
    /// bindings.bind_value(alloc, "limit", "3")?;
    /// ```
    pub fn bind_value(&mut self, alloc: Global, name: &str, text: &str) -> Result<(), JsonError>
        ensures bound { OnOk result ((d : Data) × (read text.now ≡ Some d) × (e : BareExpr)
            × IsMember name.now d e
            × IsBound ⟦<NoExtension as Ord>⟧.cmp self.old name.now e self.new) }
        ensures refused { IfErr result (λ e. e ≢ Memory → self.new ≡ self.old) }
    {
        let json = parse_json(alloc, text)?;
        let expr = member(alloc, name, &json)?;
        Ok(self.bind(alloc, RcStr::from_str(alloc, name)?, expr)?)
    }

    /// The bound names for which none of these conditions asks, but for the variables of the
    /// request, in ascending order.
    pub fn unused(&self, alloc: Global, texts: &[&str]) -> Result<Vec<String>, AllocError> {
        let mut names = Vec::new(alloc);
        for name in self.named.keys() {
            if !is_variable(name) {
                names.push(String::from_str(alloc, name)?)?;
            }
        }
        for text in texts {
            keep_unused(alloc, text, &mut names)?;
        }
        names.sort()?;
        Ok(names)
    }

    /// What each name stands for: one that has a value for the unknown of that name.
    pub fn named(&self) -> &HashMap<RcStr, Expr>
        ensures { names_of result.now ≡ names_in self.now }
    {
        &self.named
    }

    /// The values of those unknowns.
    pub fn values(&self) -> &HashMap<RcStr, WellFormedValue>
        ensures { well_formed_env result.now ≡ env_in self.now }
    {
        &self.values
    }

    // Binds names one after the other.
    fn bind_all(&mut self, alloc: Global, pairs: Vec<(RcStr, Expr)>) -> Result<(), AllocError>
        ensures { OnOk result
            (AreBound self.old (meant_pairs bare_expr pairs.items) self.new) }
    {
        for (name, expr) in pairs {
            self.bind(alloc, name, expr)?;
        }
        Ok(())
    }

    // Binds a name to an expression of literals, sets, records and calls.
    fn bind(&mut self, alloc: Global, name: RcStr, expr: Expr) -> Result<(), AllocError>
        ensures { OnOk result (IsBound ⟦<NoExtension as Ord>⟧.cmp self.old (rc_str_bytes name)
            (bare_expr expr) self.new) }
    {
        match value_of(alloc, &expr)? {
            Some(value) => self.bind_to_value(&name, value),
            None => self.bind_to_expr(&name, expr),
        }
    }

    // Binds a name to a value.
    fn bind_to_value(&mut self, name: &RcStr, value: WellFormedValue) -> Result<(), AllocError>
        ensures named { OnOk result ((e : Expr Unit)
            × (bare_expr e ≡ UnknownTree (rc_str_bytes name.now) None)
            × IsPutAt self.old.named (rc_str_bytes name.now) (Some e) self.new.named) }
        ensures bound { OnOk result
            (IsPutAt self.old.values (rc_str_bytes name.now) (Some value) self.new.values) }
    {
        let unknown = unknown_of(name)?;
        put(&mut self.values, name, value)?;
        put(&mut self.named, name, unknown)
    }

    // Binds a name to an expression that has no value.
    fn bind_to_expr(&mut self, name: &RcStr, expr: Expr) -> Result<(), AllocError>
        ensures named { OnOk result
            (IsPutAt self.old.named (rc_str_bytes name.now) (Some expr) self.new.named) }
        ensures unbound { IsPutAt self.old.values (rc_str_bytes name.now) None self.new.values }
    {
        remove(&mut self.values, name);
        put(&mut self.named, name, expr)
    }
}

// What each name of an object stands for.
fn object_of(alloc: Global, json: &Json) -> Result<Vec<(RcStr, Expr)>, JsonError>
    ensures { IfOk result (λ ps. (ms : Members)
        × (view json.now ≡ object ms) × AreNamed ms (meant_pairs bare_expr ps.items)) }
{
    match json {
        Json::Object(members) => pairs_of(alloc, members),
        Json::Null | Json::Bool(_) | Json::Number(_) | Json::String(_) | Json::Array(_) => {
            Err(JsonError::NoObject)
        }
    }
}

fn pairs_of(alloc: Global, members: &Map<String, Json>) -> Result<Vec<(RcStr, Expr)>, JsonError>
    ensures { IfOk result (λ ps.
        AreNamed (members_view members.now.entries) (meant_pairs bare_expr ps.items)) }
{
    let mut pairs = Vec::with_capacity(alloc, members.len())?;
    for (name, json) in members {
        let expr = member(alloc, name, json)?;
        push_item(&mut pairs, (RcStr::from_str(alloc, name)?, expr))?;
    }
    Ok(pairs)
}

// The unknown of a name.
fn unknown_of(name: &RcStr) -> Result<Expr, AllocError>
    ensures { IfOk result (λ e. bare_expr e ≡ UnknownTree (rc_str_bytes name.now) None) }
{
    Ok(Expr::unknown(Unknown::new_untyped(name.clone()?)))
}

// The value of an expression, if no call stands in it.
fn value_of(alloc: Global, expr: &Expr) -> Result<Option<WellFormedValue>, AllocError>
    ensures { IfOk result (λ found. IfSome found (λ w.
        IsValueOf ⟦<NoExtension as Ord>⟧.cmp (bare_expr expr.now) (bare_value (value_in w)))) }
{
    match Value::try_from_expr(alloc, expr.clone(alloc)?) {
        Ok(value) => Ok(Some(WellFormedValue::new_unchecked(value))),
        Err(NotValue::NotValue { loc: _loc }) => Ok(None),
        Err(NotValue::Memory) => Err(AllocError),
    }
}

// Puts what a name stands for, in place of an earlier one.
fn put<V: Drop>(map: &mut HashMap<RcStr, V>, name: &RcStr, value: V) -> Result<(), AllocError>
    ensures { OnOk result (IsPutAt map.old (rc_str_bytes name.now) (Some value) map.new) }
{
    drop(map.insert(name.clone()?, value)?);
    Ok(())
}

// Takes away what a name stands for.
fn remove<V: Drop>(map: &mut HashMap<RcStr, V>, name: &RcStr)
    ensures { IsPutAt map.old (rc_str_bytes name.now) None map.new }
{
    drop(map.remove(name.as_str()));
}
