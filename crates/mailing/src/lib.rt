//! A whole system with a mailbox: a kernel with round robin on lines, a user that sends messages, and one that receives them and has them printed.
#![tactic(auto)]

ghost use Rattle.kernel_theorems.specs.Text.{IsTextOf};
ghost use Rattle.mailing.specs.Property.{MailEnds, MailIsKept, MailIsPrinted};
ghost use Rattle.mailing.specs.Text.{text};
ghost use Rattle.mailing.specs.Tree.{kernel_tree};

use cvm_model::reasoning::runs_are_lawful;

/// A law: each dispatch and each step of a user keeps what is so of messages and users.
pub fn mail_is_kept()
    ensures { MailIsKept }
{}

/// A law: whatever lines are raised, each turn ends, and the messages are those printed, in the order in which they were sent, and those on their way.
pub fn mail_is_printed()
    ensures { MailIsPrinted }
{
    runs_are_lawful();
    mail_is_kept();
}

/// A law: so what was sent was printed, once and in order, but for three messages at most that are on their way; how many turns and dispatches there are at
/// most, by the dispatches that took lines; that none has faulted; and what a halted system has come to.
pub fn mail_ends()
    ensures { MailEnds }
{}

/// A law: the text is that of the tree.
pub fn text_is_tree()
    ensures { IsTextOf 80000 text kernel_tree }
{}
