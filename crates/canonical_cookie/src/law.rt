//! Laws of made cookies and of stored rows.

ghost use Rattle.canonical_cookie.specs.Laws.{
  MadeCookiesHaveTheirKey,
  MadeRowsAreSound,
  RowsAreReadBack,
  RowsAreWrittenBack,
};

/// A cookie that a line makes at the place of a URL has the key of its host.
#[tactic(auto, using(crate::proofs::MadeLemmas::key_of_made))]
pub fn made_cookies_have_their_key()
    ensures { MadeCookiesHaveTheirKey }
{}

/// The row of such a cookie is sound.
pub fn made_rows_are_sound()
    ensures { MadeRowsAreSound }
{}

/// The sound row of a cookie that has the key of its host is read back as that cookie.
#[tactic(auto, using(crate::proofs::RowLemmas::read_back))]
pub fn rows_are_read_back()
    ensures { RowsAreReadBack }
{}

/// A row that stands for a cookie is written back as that row.
#[tactic(auto, using(crate::proofs::RowLemmas::written_back))]
pub fn rows_are_written_back()
    ensures { RowsAreWrittenBack }
{}
