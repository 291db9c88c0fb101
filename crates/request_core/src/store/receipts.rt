//! Receipts: what is handed out for a command that is done, and how it is counted.
ghost use Rattle.request_core.specs.State.{raised_from, stamp_after};
ghost use Rattle.std.specs.Prelude.{◌≡◌};

use super::Core;
use crate::answer::{Receipt, Todo};

impl Core {
    ghost use Rattle.request_core.specs.Commands.{IsIssued};

    /// Counts a command that found the revision `before`, if it changed something, and makes its
    /// receipt, for which `todo` is left to read.
    pub(crate) fn receipt_of<'c>(&mut self, before: u64, todo: Todo<'c>) -> Receipt<'c>
        ensures { IsIssued before todo.entry self.old self.new result }
    {
        let revision = self.tables.revision();
        let raised = raised_from(before, revision);
        self.stamp = stamp_after(raised.is_some() || todo.is_beside(), self.stamp);
        Receipt {
            stamp: self.stamp,
            revision,
            raised,
            watch: todo.watch(),
            todo,
        }
    }
}

/// The revision that a command which found one revision raised the store to, if it did.
fn raised_from(before: u64, revision: u64) -> Option<u64>
    ensures { result ≡ raised_from before revision }
{
    if before < revision {
        Some(revision)
    } else {
        None
    }
}

/// The number of changing calls behind one more, which changed something or not. It wraps.
fn stamp_after(changed: bool, stamp: u64) -> u64
    ensures { result ≡ stamp_after changed stamp }
{
    if changed {
        stamp.wrapping_add(1)
    } else {
        stamp
    }
}
