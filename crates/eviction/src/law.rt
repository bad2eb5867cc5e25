//! Laws of the plans.

ghost use Rattle.eviction.specs.Laws.{CookiesGoByFaces, JarsAreSwept, KeysGoInRounds};
ghost use Rattle.eviction.specs.Laws.{KeysKeepEnough, NoSparedGoes, PlansForgetOrder};
ghost use Rattle.eviction.specs.Laws.{SweptJarsAreSmall, ThinnedKeysAreSmall};

/// Of up to 180 a key's plan takes none, of more just so many that 150 are left.
pub fn keys_keep_enough<X>()
    ensures { KeysKeepEnough X }
{}

/// In a key's plan those of earlier rounds go first, and in a round the less accessed ones.
pub fn keys_go_in_rounds<X>()
    ensures { KeysGoInRounds X }
{}

/// No one goes by a key's plan who is spared among all.
pub fn no_spared_goes<X>()
    ensures { NoSparedGoes X }
{}

/// A jar's plan leaves at most 3,300, or none that is stale.
pub fn jars_are_swept<X>()
    ensures { JarsAreSwept X }
{}

/// The plans of one list in any order are one.
pub fn plans_forget_order<X>()
    ensures { PlansForgetOrder X }
{}

/// Where the ids of the cookies rise, a thinned key has at most 180.
pub fn thinned_keys_are_small()
    ensures { ThinnedKeysAreSmall }
{}

/// Where the ids of the cookies rise, a swept jar has at most 3,300, or only cookies that are
/// neither expired nor stale.
pub fn swept_jars_are_small()
    ensures { SweptJarsAreSmall }
{}

/// Where the ids of the cookies rise, the plans of their faces, whose ties are their places, tell
/// by places which of them go.
pub fn cookies_go_by_faces()
    ensures { CookiesGoByFaces }
{}
