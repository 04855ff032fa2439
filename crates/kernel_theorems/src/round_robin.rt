// A kernel that gives the processor to one user after another.

ghost use Rattle.kernel_theorems.specs.RoundRobin.{round_robin, EachGetsATurn, RoundRobinIsFair};
ghost use Rattle.kernel_theorems.specs.RoundRobinText.{text};
ghost use Rattle.kernel_theorems.specs.Text.{IsTextOf};

use cvm_model::reasoning::runs_are_lawful;

/// A law: the round robin is safe, each of its turns ends, and each user is next in its turn.
pub fn round_robin_is_fair()
    ensures { RoundRobinIsFair }
{
    runs_are_lawful();
}

/// A law: in so many lines as there are users each user is next.
pub fn each_gets_a_turn()
    ensures { EachGetsATurn }
{}

/// A law: the text is that of the round robin of three users.
pub fn text_is_round_robin()
    ensures { IsTextOf 9000 text (round_robin 3) }
{}
