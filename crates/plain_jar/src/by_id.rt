//! Cookies in the order of their ids.

ghost use Rattle.std.specs.Prelude.{◌≡◌, ◌++◌, ◌∷◌, [], IfOk, find, option_copied};
ghost use Rattle.jar_types.specs.Deletes as deletes;
ghost use Rattle.jar_types.specs.Ids.{RisesById};
ghost use Rattle.jar_types.specs.RowChanges.{has_id};
ghost use Rattle.jar_types.specs.Sets as sets;

use crate::order::{cookie_cmp, id_order};
use jar_types::{Cookie, CookieId, Cookies, NoMemory};
use std::alloc::Global;
use std::marker::Model;

/// Cookies whose ids rise, seen as their list.
#[derive(Drop)]
pub struct ById {
    cookies: Cookies,
}

impl Model for ById {
    ghost use Rattle.std.specs.Prelude.{List};
    ghost use Rattle.jar_types.specs.declared.cookie.Cookie.{Cookie};
    ghost use Rattle.jar_types.specs.Ids.{RisesById};

    ghost Value = { List Cookie };

    ghost view = { λ b. b.cookies };

    ghost invariant = { λ b. RisesById b.cookies };
}

impl ById {
    /// No cookie.
    pub fn new(alloc: Global) -> ById
        ensures { result ≡ [] }
    {
        ById {
            cookies: Cookies::new(alloc),
        }
    }

    /// The cookies of a vector, which it keeps.
    pub fn from_vec(items: Vec<Cookie>) -> ById
        requires { RisesById items.items }
        ensures { result ≡ items.items }
    {
        ById {
            cookies: Cookies::from_vec(items),
        }
    }

    /// Their vector.
    pub fn into_vec(self) -> Vec<Cookie>
        ensures value { result.items ≡ self }
        ensures rises { RisesById self }
    {
        self.cookies.into_vec()
    }

    /// All of them.
    pub fn as_slice(&self) -> &[Cookie]
        ensures value { result.now ≡ self.now }
        ensures rises { RisesById self.now }
    {
        self.cookies.as_slice()
    }

    /// The same cookies again.
    pub fn copy(&self, alloc: Global) -> Result<ById, NoMemory>
        ensures { IfOk result (λ cookies. cookies ≡ self.now) }
    {
        Ok(ById {
            cookies: self.cookies.copy(alloc)?,
        })
    }

    /// The one with the id of a cookie; none where there is none.
    pub fn old_of(&self, cookie: &Cookie) -> Option<&Cookie>
        ensures { option_copied result ≡ sets.old_of cookie.now self.now }
    {
        self.cookies
            .as_slice()
            .iter()
            .find(|other| cookie_cmp(cookie, other).is_eq())
    }

    /// The one with an id; none where there is none.
    pub fn with_id(&self, id: &CookieId) -> Option<&Cookie>
        ensures { option_copied result ≡ find (has_id id.now) self.now }
    {
        self.cookies
            .as_slice()
            .iter()
            .find(|cookie| id_order(id, cookie).is_eq())
    }

    /// The cookies without the one that has an id.
    #[tactic(auto, using(jar_types::proofs::RisingLemmas::without_id_rises))]
    pub fn without_id(self, id: &CookieId) -> ById
        ensures { result ≡ deletes.without_id id.now self }
    {
        let mut left = self.into_vec();
        take_out_id(&mut left, id);
        ById::from_vec(left)
    }

    /// The cookies without the one that has the id of a cookie.
    #[tactic(auto, using(jar_types::proofs::RisingLemmas::without_rises))]
    pub fn without(self, cookie: &Cookie) -> ById
        ensures { result ≡ sets.without_cookie cookie.now self }
    {
        let mut left = self.into_vec();
        take_out(&mut left, cookie);
        ById::from_vec(left)
    }

    /// The cookies with this one in the place of its id.
    pub fn with(self, alloc: Global, cookie: Cookie) -> Result<ById, NoMemory>
        ensures { IfOk result (λ cookies. cookies ≡ sets.with_cookie cookie self) }
    {
        let cookies = set_among(alloc, self.cookies.into_vec(), cookie)?;
        Ok(ById {
            cookies: Cookies::from_vec(cookies),
        })
    }
}

/// Takes out the cookie that has the id of another.
fn take_out(cookies: &mut Vec<Cookie>, cookie: &Cookie)
    ensures { cookies.new.items ≡ sets.without_cookie cookie.now cookies.old.items }
{
    cookies.retain(|other| !cookie_cmp(cookie, other).is_eq());
}

/// Takes out the cookie that has an id.
fn take_out_id(cookies: &mut Vec<Cookie>, id: &CookieId)
    ensures { cookies.new.items ≡ deletes.without_id id.now cookies.old.items }
{
    cookies.retain(|cookie| !id_order(id, cookie).is_eq());
}

/// The cookies of lesser ids, then this cookie, then those of greater ids.
fn set_among(alloc: Global, cookies: Vec<Cookie>, cookie: Cookie) -> Result<Vec<Cookie>, NoMemory>
    ensures { IfOk result (λ all. all.items ≡ sets.with_cookie cookie cookies.items) }
{
    let mut lesser = Vec::new(alloc);
    let mut greater = Vec::new(alloc);
    for other in cookies {
        let order = cookie_cmp(&other, &cookie);
        if order.is_lt() {
            lesser.push(other)?;
        } else if order.is_gt() {
            greater.push(other)?;
        }
    }
    joined(lesser, cookie, greater)
}

/// A cookie between two lists of them.
fn joined(
    mut lesser: Vec<Cookie>,
    cookie: Cookie,
    mut greater: Vec<Cookie>,
) -> Result<Vec<Cookie>, NoMemory>
    ensures { IfOk result (λ all. all.items ≡ lesser.items ++ (cookie ∷ greater.items)) }
{
    lesser.push(cookie)?;
    lesser.append(&mut greater)?;
    Ok(lesser)
}
