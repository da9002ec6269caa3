//! Parses policies in Cedar's own syntax; those stored here were written by hand after Cedar's
//! public documentation, and so was what they come to.
//!
//! The argument names a file of texts with a line `---` between them. Of each the program shows
//! every policy with its identifier and its condition, and how it is printed, or why the text is
//! refused. What is printed is parsed again: it has to be printed the same. Templates are linked.
//! At last a text of policies is damaged at each byte, and those are counted that are refused.
#![tactic(auto)]

use anyhow::{Result, bail};
use cedar_names::{FromNormalizedStr as _, Name};
use cedar_parser::{ParseError, SyntaxError};
use cedar_policies::{Policy, SlotValues, Template};
use cedar_policy_parser::parse_policies;
use cedar_printer::policy_text;
use cedar_terms::{EntityType, EntityUID};
use std::alloc::{AllocError, Global};
use std::rc::{Rc, RcStr};
use std::{env, fs};

fn main(rt: HostRuntime) -> Result<()> {
    let Some(file) = env::args(&rt)?.nth(1) else {
        bail!("usage: recorded_policies POLICIES");
    };
    let texts = fs::read_to_string(&rt, &file)?;
    for text in texts.split("---\n") {
        println!(rt; "{}", text.trim_end())?;
        match parse_policies(rt.alloc(), text) {
            Ok(set) => {
                show_policies(&rt, set.policies())?;
                show_damaged(&rt, text.trim_end())?;
            }
            Err(ParseError::Syntax(error)) => show_error(&rt, text, &error)?,
            Err(ParseError::Memory) => return Err(AllocError.into()),
        }
        println!(rt)?;
    }
    Ok(())
}

fn show_error(rt: &HostRuntime, text: &str, error: &SyntaxError) -> Result<()> {
    println!(rt; "  {error}")?;
    println!(rt; "{}", error.excerpt(text))?;
    Ok(())
}

fn show_policies(rt: &HostRuntime, policies: &[Policy]) -> Result<()> {
    let alloc = rt.alloc();
    for policy in policies {
        show_policy(rt, &policy.id, &policy.template)?;
        if policy.template.is_template() {
            show_links(rt, &policy.template)?;
        }
        show_printed(rt, &policy.template.to_text(alloc)?)?;
    }
    Ok(())
}

fn show_policy(rt: &HostRuntime, id: &str, template: &Template) -> Result<()> {
    let condition = template.condition(rt.alloc())?;
    let text = policy_text(rt.alloc(), &condition)?.text;
    println!(rt; "  {id}: {:?}: {text}", template.effect)?;
    Ok(())
}

// Whether what is printed is parsed as the same.
fn show_printed(rt: &HostRuntime, text: &str) -> Result<()> {
    let alloc = rt.alloc();
    match parse_policies(alloc, text) {
        Ok(set) => match set.policies() {
            [again] if again.template.to_text(alloc)?.as_str() == text => print!(rt; "{text}")?,
            _ => println!(rt; "  printed otherwise: {text}")?,
        },
        Err(error) => println!(rt; "  not parsed: {error}: {text}")?,
    }
    Ok(())
}

// Cuts a text off before each byte, and puts a `#` there, and counts what is refused.
fn show_damaged(rt: &HostRuntime, text: &str) -> Result<()> {
    let alloc = rt.alloc();
    let mut cut: usize = 0;
    let mut marked: usize = 0;
    for at in 0..text.len() {
        let (Some(before), Some(behind)) = (text.get(..at), text.get(at..)) else {
            continue;
        };
        if is_refused(alloc, before)? {
            cut = cut.saturating_add(1);
        }
        if is_refused(alloc, &format!(in alloc; "{before}#{behind}")?)? {
            marked = marked.saturating_add(1);
        }
    }
    let all = text.len();
    println!(rt; "  refused: {cut} of {all} beginnings, {marked} of {all} texts with a `#`")?;
    Ok(())
}

// Whether a text is refused, with a mark below the place.
fn is_refused(alloc: Global, text: &str) -> Result<bool> {
    match parse_policies(alloc, text) {
        Ok(_) => Ok(false),
        Err(ParseError::Syntax(error)) => {
            Ok(format!(in alloc; "{error}\n{}", error.excerpt(text))?.contains('^'))
        }
        Err(ParseError::Memory) => Err(AllocError.into()),
    }
}

// Links a template in each way, and shows what comes of it.
fn show_links(rt: &HostRuntime, template: &Template) -> Result<()> {
    show_link(rt, template, false, false)?;
    show_link(rt, template, true, false)?;
    show_link(rt, template, false, true)?;
    show_link(rt, template, true, true)
}

fn show_link(rt: &HostRuntime, template: &Template, first: bool, second: bool) -> Result<()> {
    let alloc = rt.alloc();
    let values = SlotValues {
        principal: value(alloc, first, "alice")?,
        resource: value(alloc, second, "photo")?,
    };
    match template.link(alloc, &values) {
        Ok(linked) => show_policy(rt, "linked", &linked),
        Err(error) => {
            println!(rt; "  not linked: {error}")?;
            Ok(())
        }
    }
}

fn value(alloc: Global, is_given: bool, id: &str) -> Result<Option<Rc<EntityUID>>, AllocError> {
    if !is_given {
        return Ok(None);
    }
    let ty = Name::from_normalized_str(alloc, "Thing").map_err(|_| AllocError)?;
    let uid = EntityUID::new(EntityType::from(ty), RcStr::from_str(alloc, id)?);
    Ok(Some(Rc::new(alloc, uid)?))
}
