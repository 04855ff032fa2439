//! What is known of linking and accepting: each function says a law, and does nothing.

ghost use Rattle.kernel_linker.specs.Laws.{LinkedAreAccepted, OpenedUnitsAreTheirSources, SpelledImagesFit};
ghost use Rattle.kernel_linker.specs.Migrate.{MigratedAreAccepted, OldWordsAreIgnored};
ghost use Rattle.kernel_linker.specs.Sources.{AcceptedAreOfImages};

/// A law: what is linked is accepted, over the same layer.
pub fn linked_images_are_accepted()
    ensures { LinkedAreAccepted }
{}

/// A law: what is migrated is accepted, over the same layer.
pub fn migrated_images_are_accepted()
    ensures { MigratedAreAccepted }
{}

/// A law: what is migrated does not depend on the old linked words.
pub fn old_words_are_ignored()
    ensures { OldWordsAreIgnored }
{}

/// A law: an image that has a spelling has parameters in range, and users that are few and short enough.
pub fn spelled_images_fit()
    ensures { SpelledImagesFit }
{}

/// A law: what is opened is the checked unit of the object's source.
pub fn opened_units_are_their_sources()
    ensures { OpenedUnitsAreTheirSources }
{}

/// A law: an accepted system is that of its image, whose own source has its unit.
pub fn accepted_systems_are_of_their_images()
    ensures { AcceptedAreOfImages }
{}
