// A kernel that carries messages from one user to another.

ghost use Rattle.kernel_theorems.specs.Mailbox.{text, MessagesAreDelivered};
ghost use Rattle.kernel_theorems.specs.MailboxTree.{mailbox};
ghost use Rattle.kernel_theorems.specs.Text.{IsTextOf};

use crate::registers::sets_are_found;
use cvm_model::reasoning::runs_are_lawful;

/// A law: what user 2 finds at its gets that succeed is what user 1 had at its puts that were taken, in order, each message once and unchanged; each call
/// is answered, each turn ends, and no dispatch faults.
pub fn messages_are_delivered()
    ensures { MessagesAreDelivered }
{
    sets_are_found();
    runs_are_lawful();
}

/// A law: the text is that of the mailbox.
pub fn text_is_mailbox()
    ensures { IsTextOf 37000 text mailbox }
{}
