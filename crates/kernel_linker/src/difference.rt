// How stored words differ from those that are made.

ghost use Rattle.std.specs.Prelude.{◌≡◌, length};
ghost use Rattle.kernel_linker.specs.Difference.{compared, words_compared};

/// How stored words differ from those that are made.
#[derive(Clone, Copy, Debug, PartialEq, Eq)]
pub enum Difference {
    /// There are as many words stored, and others are made.
    Count {
        stored: u64,
        made: u64,
    },
    /// The first word that differs, by its position from 0.
    Word {
        position: u64,
        stored: u32,
        made: u32,
    },
}

// Looks for the first word that differs.
fn compare_words(stored: &[u32], made: &[u32]) -> Result<(), Difference>
    requires { length stored.now ≡ length made.now }
    ensures { result ≡ words_compared 0 stored.now made.now }
{
    for position in 0..stored.len() {
        if stored[position] != made[position] {
            return Err(Difference::Word {
                position: position as u64,
                stored: stored[position],
                made: made[position],
            });
        }
    }
    Ok(())
}

/// Whether stored words are those that are made, or how they differ.
#[tactic(auto, unfolding(crate::specs::Difference::compared))]
pub fn compare(stored: &[u32], made: &[u32]) -> Result<(), Difference>
    ensures { result ≡ compared stored.now made.now }
{
    if stored.len() != made.len() {
        return Err(Difference::Count {
            stored: stored.len() as u64,
            made: made.len() as u64,
        });
    }
    compare_words(stored, made)
}
