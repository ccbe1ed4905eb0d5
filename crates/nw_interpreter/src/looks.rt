//! Looks in words.

use crate::bindings::Bindings;
use crate::fault::LineFault;
use crate::words::empty_line;
use nw_digest::{Digest, Round};
use nw_model::Look;
use std::alloc::Global;
use std::fmt::Write;

impl<'a> Bindings<'a> {
    /// The lines of these looks at slots of the round, each with its author. One line says so if there are none.
    ///
    /// `Bad` if a digest has no name, which never happens in a script. `NoMemory` if an allocation fails.
    pub fn lines_of_looks(
        &self,
        alloc: Global,
        round: Round,
        looks: &[(u16, Look)],
    ) -> Result<String, LineFault> {
        let mut lines = empty_line(alloc)?;
        for (author, look) in looks {
            if !lines.is_empty() {
                lines.push('\n')?;
            }
            write!(lines, "look {}.{author} ", round.get())?;
            self.push_look(&mut lines, look)?;
        }
        if looks.is_empty() {
            write!(lines, "look {} none", round.get())?;
        }
        Ok(lines)
    }

    fn push_look(&self, line: &mut String, look: &Look) -> Result<(), LineFault> {
        let (floor, newest) = (look.floor.get(), look.newest.get());
        let (first, missing) = (self.name_or_dash(look.first)?, look.missing);
        let certified = self.name_or_dash(look.certified)?;
        let (stands, complete) = (yes_or_no(look.stands), yes_or_no(look.complete));
        write!(
            line,
            "g={floor} newest={newest} first={first} missing={missing} "
        )?;
        write!(
            line,
            "certified={certified} stands={stands} complete={complete}"
        )?;
        Ok(())
    }

    // The first name of the digest, or `-` if there is no digest.
    fn name_or_dash(&self, digest: Option<Digest>) -> Result<&'a str, LineFault> {
        match digest {
            None => Ok("-"),
            Some(digest) => Ok(self.names.first_name(&digest)?.as_str()),
        }
    }
}

fn yes_or_no(answer: bool) -> &'static str {
    if answer { "yes" } else { "no" }
}
