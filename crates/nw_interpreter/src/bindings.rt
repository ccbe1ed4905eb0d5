//! The committee and the bound names of a script.

use crate::fault::LineFault;
use crate::names::{NamedBlock, Names};
use crate::words::named;
use nw_book::Ticket;
use nw_committee::Committee;
use nw_digest::{Digest, Shared};
use nw_script::Name;
use nw_sig::DemoScheme;
use std::alloc::Global;
use std::collections::HashMap;

/// The committee of a script, and what its names are bound to: blocks and tickets. They outlive the stores of the script.
#[derive(Drop)]
pub struct Bindings<'a> {
    pub(crate) committee: Shared<Committee>,
    pub(crate) names: Names<'a>,
    tickets: HashMap<&'a str, Ticket<DemoScheme>>,
}

impl<'a> Bindings<'a> {
    /// No bound names. It allocates nothing.
    pub fn new(alloc: Global, committee: Shared<Committee>) -> Bindings<'a> {
        Bindings {
            committee,
            names: Names::new(alloc),
            tickets: HashMap::new(alloc),
        }
    }

    /// The committee of the script.
    pub fn committee(&self) -> &Shared<Committee> {
        &self.committee
    }

    /// The digest of the named block. `Bad` if the name is not bound.
    pub fn digest_of(&self, name: Name<'a>) -> Result<Digest, LineFault> {
        Ok(self.named_block(name)?.digest())
    }

    /// The named block. `Bad` if the name is not bound.
    pub(crate) fn named_block(&self, name: Name<'a>) -> Result<&NamedBlock, LineFault> {
        self.names.named_block(name)
    }

    /// Whether the name is bound to a ticket.
    pub fn has_ticket(&self, name: Name<'a>) -> bool {
        self.tickets.contains_key(name.as_str())
    }

    /// The line for a causal read that gave a ticket. If `is_kept`, it binds the name to the ticket; if not, it walks the ticket.
    ///
    /// `NoMemory` if an allocation fails. `Bad` if a block of the list has no name, which never happens in a script.
    pub fn take_ticket(
        &mut self,
        alloc: Global,
        name: Name<'a>,
        ticket: Ticket<DemoScheme>,
        is_kept: bool,
    ) -> Result<String, LineFault> {
        if !is_kept {
            let line = self.walk_ticket(alloc, name, &ticket);
            drop(ticket);
            return line;
        }
        drop(self.tickets.insert(name.as_str(), ticket)?);
        named(alloc, name, "ready")
    }

    /// The line with the list of the named ticket. `Bad` if the name is not bound to a ticket, `NoMemory` if an allocation fails.
    pub fn walk(&self, alloc: Global, name: Name<'a>) -> Result<String, LineFault> {
        let ticket = self.tickets.get(name.as_str()).ok_or(LineFault::Bad)?;
        self.walk_ticket(alloc, name, ticket)
    }

    // The line with the names of the listed blocks. `Bad` if a block has no name.
    fn walk_ticket(
        &self,
        alloc: Global,
        name: Name<'a>,
        ticket: &Ticket<DemoScheme>,
    ) -> Result<String, LineFault> {
        let walked = ticket.walk_lent(alloc)?;
        let mut line = named(alloc, name, "causal")?;
        for ancestor in &walked {
            line.push(' ')?;
            line.push_str(self.names.first_name(ancestor.digest)?.as_str())?;
        }
        Ok(line)
    }
}
