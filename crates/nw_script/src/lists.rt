//! Lists in a word, separated by commas.
ghost use Rattle.std.specs.Prelude.{◌≡◌, IfOk, Err, map};
ghost use Rattle.nw_script.specs.List.{AreElements, HasNonElement, parts_of};

use crate::LineFault;
use std::alloc::{AllocError, Global};

/// Parses a list, with the function `element` for each part between its commas. `-` is the empty list.
///
/// `Bad` if some part is not an element. `NoMemory` if an allocation fails, which may come before such a part is found.
pub fn list<'a, T: Drop, F: Fn(&'a str) -> Option<T>>(
    alloc: Global,
    text: &'a str,
    element: F,
) -> Result<Vec<T>, LineFault>
    requires { F.IsAlwaysCallable element }
    ensures elements { IfOk result
        (λ list. AreElements F.Fn element (parts_of text.now) list.items) }
    ensures bad { result ≡ Err LineFault.Bad → HasNonElement F.Fn element (parts_of text.now) }
{
    let parts = split_parts(alloc, text)?;
    all_elements(alloc, &parts, element)
}

/// The parts between the commas of the list. `-` has none.
fn split_parts(alloc: Global, text: &str) -> Result<Vec<&str>, AllocError>
    ensures { IfOk result (λ parts. map (λ part. part.now) parts.items ≡ parts_of text.now) }
{
    if text == "-" {
        return Ok(Vec::new(alloc));
    }
    text.split(',').collect(alloc)
}

/// The elements of the parts, or `Bad` if some part is not an element.
fn all_elements<'a, T: Drop, F: Fn(&'a str) -> Option<T>>(
    alloc: Global,
    parts: &[&'a str],
    element: F,
) -> Result<Vec<T>, LineFault>
    requires { F.IsAlwaysCallable element }
    ensures elements { IfOk result
        (λ list. AreElements F.Fn element (map (λ part. part.now) parts.now) list.items) }
    ensures bad { result ≡ Err LineFault.Bad
        → HasNonElement F.Fn element (map (λ part. part.now) parts.now) }
{
    let mut elements = Vec::new(alloc);
    for part in parts {
        elements.push(element(*part).ok_or(LineFault::Bad)?)?;
    }
    Ok(elements)
}
