//! What is known of a kernel by the primitives that its source calls. Each function is a law.
#![tactic(auto)]

ghost use Rattle.called_primitives.specs.Kernels.{PagelessTouchNone, ReadersChangeNone};

/// A law: a unit that calls no `vm_set`, `vm_resize`, `vm_put` or `vm_copy` is a kernel that changes no machine.
pub fn readers_change_none()
    ensures { ReadersChangeNone }
{}

/// A law: a unit that calls no `vm_resize`, `vm_word`, `vm_put` or `vm_copy` is a kernel whose dispatches touch no page of a user, in loops too.
pub fn pageless_touch_none()
    ensures { PagelessTouchNone }
{}
