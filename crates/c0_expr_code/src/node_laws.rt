//! The laws of the code of typed expressions. Each is the contract of a function that does nothing.

ghost use Rattle.c0_expr_code.specs.Node.{NodesAreMade};
ghost use Rattle.c0_expr_code.specs.NodeJumps.{NodeJumpsAreWithin, NodePatchesAim};

use c0_typed::laws::{elements_are_those, fields_are_those, variables_are_those};

/// The code of the typed tree of a typed expression is that of the expression.
pub fn nodes_are_made()
    ensures { NodesAreMade }
{
    variables_are_those();
    fields_are_those();
    elements_are_those();
}

/// A typed test's code whose branches have no distances yet is the test's code once it is patched, and its branches stand in it.
pub fn node_patches_aim()
    ensures aims { NodePatchesAim }
    ensures within { NodeJumpsAreWithin }
{}
