//! The known name that is nearest to a wanted one.
ghost use Rattle.std.specs.Prelude.{◌≡◌, IfOk};
ghost use Rattle.cedar_json.specs.NearNames.{IsMeant, IsNearest, slips as slips_of};

use std::alloc::{AllocError, Global};
use strsim::levenshtein;

// Names that are longer are not compared.
const LONGEST: usize = 60;

/// The known name that is nearest to a wanted one, if it is near.
pub fn nearest<'a>(
    alloc: Global,
    wanted: &str,
    known: &[&'a str],
) -> Result<Option<&'a str>, AllocError>
    ensures { IfOk result (IsNearest wanted.now known.now) }
{
    let mut found = None;
    let mut fewest = slips(wanted.len());
    for name in known {
        if wanted.len() <= LONGEST && name.len() <= LONGEST {
            let edits = levenshtein(alloc, wanted, name)?;
            if edits < fewest {
                fewest = edits;
                found = Some(*name);
            }
        }
    }
    Ok(found)
}

// From how many edits on a name of this length is no slip.
fn slips(len: usize) -> usize
    ensures { result ≡ slips_of len }
{
    if len <= 2 {
        2
    } else if len <= 5 {
        3
    } else {
        4
    }
}

/// `did you mean` with the nearest known name, if one is near.
pub fn did_you_mean(
    alloc: Global,
    wanted: &str,
    known: &[&str],
) -> Result<Option<String>, AllocError>
    ensures { IfOk result (IsMeant wanted.now known.now) }
{
    match nearest(alloc, wanted, known)? {
        Some(name) => Ok(Some(format!(in alloc; "did you mean `{name}`?")?)),
        None => Ok(None),
    }
}
