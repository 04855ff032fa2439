// Branches that get their distance when the code that they lead to stands.

ghost use Rattle.std.specs.Prelude.{◌≡◌, ◌≤◌, ◌<◌, All, length, slice_index, slice_set};
ghost use Rattle.c0_expr_code.specs.Jumps.{patched};
ghost use Rattle.c0_expr_code.specs.Patch.{aimed, distance};

/// Lets the branch at a word of the code lead to another word, which may stand before it, or to the one behind the last.
pub fn patch(code: &mut Vec<u32>, at: usize, to: usize)
    requires at { at < length code.old.items }
    requires to { to ≤ length code.old.items }
    ensures { code.new.items ≡ slice_set code.old.items at (aimed (slice_index code.old.items at) (distance at to)) }
{
    let word = code[at];
    let far = to.wrapping_sub(at + 1) % 0x1_0000;
    code[at] = word / 0x1_0000 * 0x1_0000 + (far as u32);
}

/// Lets the branches at these words of the code lead to another word, which may stand before them, or to the one behind the last.
pub fn patch_all(code: &mut Vec<u32>, jumps: &[usize], to: usize)
    requires jumps { All (λ j. j < length code.old.items) jumps.now }
    requires to { to ≤ length code.old.items }
    ensures { code.new.items ≡ patched to jumps.now code.old.items }
{
    for at in jumps {
        patch(code, *at, to);
    }
}
